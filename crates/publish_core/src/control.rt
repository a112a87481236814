//! What all frames of a publisher have.

use frame_core::VlanTag;
use mms_data::Octets;
use std::alloc::Allocator;

/// A control block of GOOSE (IEC 61850-8-1), and the envelope of its frames. Texts are octets from 20 to 7E where they can
/// be spelled.
#[derive(Drop)]
pub struct Control<A: Allocator> {
    /// The address that frames are sent to.
    pub destination: [u8; 6],
    /// The address that they are sent from.
    pub source: [u8; 6],
    /// The tag of a virtual network, which may be absent.
    pub tag: Option<VlanTag>,
    /// APPID, which tells applications apart.
    pub app_id: u16,
    /// gocbRef, the name of the control block.
    pub gocb_ref: Octets<A>,
    /// datSet, the name of the data set.
    pub dat_set: Octets<A>,
    /// goID, which may be absent.
    pub go_id: Option<Octets<A>>,
    /// confRev, which counts changes of the control block's configuration.
    pub conf_rev: u32,
    /// How many members the data set has.
    pub entries: u32,
    /// simulation: the frames come from a test set.
    pub simulation: bool,
    /// ndsCom: the control block wants further configuration.
    pub nds_com: bool,
}
