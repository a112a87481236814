//! The APDU of GOOSE in memory of its own.

use mms_data::{Octets, UtcTime, ValueList};
use std::alloc::Allocator;

/// An IECGoosePdu (IEC 61850-8-1). Texts are octets from 20 to 7E. The number of data set entries is that of
/// the members.
#[derive(Drop)]
pub struct GoosePdu<A: Allocator> {
    /// gocbRef, the name of the control block.
    pub gocb_ref: Octets<A>,
    /// timeAllowedtoLive, in milliseconds.
    pub live: u32,
    /// datSet, the name of the data set.
    pub dat_set: Octets<A>,
    /// goID, which may be absent.
    pub go_id: Option<Octets<A>>,
    /// t, the moment of the last change.
    pub t: UtcTime,
    /// stNum, which counts changes.
    pub st_num: u32,
    /// sqNum, which counts retransmissions since the last change.
    pub sq_num: u32,
    /// simulation: the frame comes from a test set.
    pub simulation: bool,
    /// confRev, which counts changes of the control block's configuration.
    pub conf_rev: u32,
    /// ndsCom: the control block wants further configuration.
    pub nds_com: bool,
    /// allData, the members of the data set.
    pub members: ValueList<A>,
}
