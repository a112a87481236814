//! The fields of an APDU of GOOSE that are kept elsewhere.

ghost use Rattle.std.specs.Prelude.{◌≡◌};
ghost use Rattle.pdu_core.specs.Parts.{pdu_of_parts};
ghost use Rattle.pdu_core.specs.Views.{octets_if};

use crate::goose::GoosePdu;
use mms_data::{Octets, UtcTime, ValueList};
use std::alloc::Allocator;

/// The fields of an IECGoosePdu (IEC 61850-8-1), its texts and members kept elsewhere: an APDU that is written without
/// being put together in memory of its own. The fields mean what those of `GoosePdu` do.
#[derive(Drop)]
pub struct GooseParts<'a, A: Allocator> {
    /// gocbRef, the name of the control block.
    pub gocb_ref: &'a [u8],
    /// timeAllowedtoLive, in milliseconds.
    pub live: u32,
    /// datSet, the name of the data set.
    pub dat_set: &'a [u8],
    /// goID, which may be absent.
    pub go_id: Option<&'a [u8]>,
    /// t, the moment of the last change.
    pub t: UtcTime,
    /// stNum, which counts changes.
    pub st_num: u32,
    /// sqNum, which counts retransmissions since the last change.
    pub sq_num: u32,
    /// simulation: the frame comes from a test set.
    pub simulation: bool,
    /// confRev, which counts changes of the control block's configuration.
    pub conf_rev: u32,
    /// ndsCom: the control block wants further configuration.
    pub nds_com: bool,
    /// allData, the members of the data set.
    pub members: &'a ValueList<A>,
}

/// The octets where they stand, if they are there.
pub fn slice_if<A: Allocator>(octets: &Option<Octets<A>>) -> Option<&[u8]>
    ensures { octets_if result ≡ octets.now }
{
    match octets {
        Some(octets) => Some(octets.as_slice()),
        None => None,
    }
}

impl<A: Allocator> GoosePdu<A> {
    /// The fields where they stand.
    pub fn parts(&self) -> GooseParts<'_, A>
        ensures { pdu_of_parts result ≡ self.now }
    {
        GooseParts {
            gocb_ref: self.gocb_ref.as_slice(),
            live: self.live,
            dat_set: self.dat_set.as_slice(),
            go_id: slice_if(&self.go_id),
            t: self.t,
            st_num: self.st_num,
            sq_num: self.sq_num,
            simulation: self.simulation,
            conf_rev: self.conf_rev,
            nds_com: self.nds_com,
            members: &self.members,
        }
    }
}
