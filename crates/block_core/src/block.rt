//! The control blocks that are subscribed to.

use ber_core::Octets;
use std::alloc::Allocator;

/// A control block (IEC 61850-8-1) whose frames are awaited. APPID and gocbRef are its name: a frame that has both is one of
/// the block.
#[derive(Drop)]
pub struct Block<A: Allocator> {
    /// APPID, which tells applications apart.
    pub app_id: u16,
    /// gocbRef, the name of the control block.
    pub gocb_ref: Octets<A>,
    /// datSet, the name of the data set that its frames carry.
    pub dat_set: Octets<A>,
    /// goID, which its frames have; `None` where goID is not looked at.
    pub go_id: Option<Octets<A>>,
    /// confRev, the configuration's revision.
    pub conf_rev: u32,
    /// The count of members of the data set.
    pub entries: u32,
}
