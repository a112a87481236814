//! What is said of packets that were not captured on Ethernet.

use crate::messages::advice::link_name;
use crate::messages::totals::write_first;
use std::fmt;
use tally_core::KindTally;

/// The packets that were not captured on Ethernet, of which there is one at least.
#[derive(Drop)]
pub struct OtherLinks<'a>(&'a KindTally);

/// What there is to say of the packets that were not captured on Ethernet, if there was one.
pub fn packets_of_other_links(links: &KindTally) -> Option<OtherLinks<'_>> {
    if links.kinds().is_empty() {
        return None;
    }
    Some(OtherLinks(links))
}

impl fmt::Display for OtherLinks<'_> {
    fn fmt<W: fmt::Write>(&self, f: &mut fmt::Formatter<W>) -> fmt::Result {
        let OtherLinks(links) = self;
        let mut before = "not Ethernet: ";
        let mut of = "link type ";
        for kind in links.kinds() {
            write!(f, "{before}{} of {of}{}", kind.total.count, kind.kind)?;
            if let Some(name) = link_name(kind.kind) {
                write!(f, " ({name})")?;
            }
            write_first(f, kind.total)?;
            before = "; ";
            of = "";
        }
        if let Some(total) = links.others() {
            write!(f, "; {} of other link types", total.count)?;
            write_first(f, total)?;
        }
        f.write_str(": capture on the network card itself")
    }
}
