//! What is said of the frames of other protocols that were passed over.

use crate::messages::totals::write_first;
use std::fmt;
use tally_core::KindTally;

/// The frames that were passed over, of which there is one at least.
#[derive(Drop)]
pub struct PassedFrames<'a>(&'a KindTally);

/// What there is to say of the frames that were passed over, if there was one.
pub fn passed_frames(passed: &KindTally) -> Option<PassedFrames<'_>> {
    if passed.kinds().is_empty() {
        return None;
    }
    Some(PassedFrames(passed))
}

// The protocol that frames of an EtherType have in a station, by its usual name.
fn protocol_of(ether_type: u16) -> Option<&'static str> {
    match ether_type {
        // Below 0600 the word counts the octets behind it (IEEE 802.3), of which the first ones tell the protocol.
        0x0000..=0x05ff => Some("an LLC length: e.g. spanning tree"),
        0x0800 => Some("IPv4"),
        0x0806 => Some("ARP"),
        0x8100 | 0x88a8 => Some("a second VLAN tag: not read"),
        0x86dd => Some("IPv6"),
        0x8809 => Some("LACP"),
        0x8892 => Some("PROFINET"),
        0x888e => Some("IEEE 802.1X"),
        0x88a4 => Some("EtherCAT"),
        0x88b9 => Some("GSE management"),
        0x88cc => Some("LLDP"),
        0x88e3 => Some("MRP"),
        0x88e5 => Some("MACsec"),
        0x88f7 => Some("PTP"),
        0x88fb => Some("PRP supervision"),
        0x892f => Some("HSR"),
        _ => None,
    }
}

impl fmt::Display for PassedFrames<'_> {
    fn fmt<W: fmt::Write>(&self, f: &mut fmt::Formatter<W>) -> fmt::Result {
        let PassedFrames(passed) = self;
        let mut before = "passed over: ";
        let mut of = "EtherType ";
        for kind in passed.kinds() {
            write!(f, "{before}{} of {of}{:04x}", kind.total.count, kind.kind)?;
            if let Some(protocol) = protocol_of(kind.kind) {
                write!(f, " ({protocol})")?;
            }
            write_first(f, kind.total)?;
            before = "; ";
            of = "";
        }
        match passed.others() {
            Some(total) => {
                write!(f, "; {} of other EtherTypes", total.count)?;
                write_first(f, total)
            }
            None => Ok(()),
        }
    }
}
