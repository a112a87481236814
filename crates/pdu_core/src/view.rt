//! The APDU of GOOSE where it stands.

ghost use Rattle.std.specs.Prelude.{◌≡◌, length};
ghost use Rattle.mms_data.specs.Meaning.{left};

use mms_data::{Members, UtcTime};

/// An IECGoosePdu (IEC 61850-8-1) where it stands: the fields of `GoosePdu`, texts and members as parts of
/// the octets that spell it, and the count of the members.
#[derive(Clone, Copy)]
pub struct GooseView<'a> {
    /// gocbRef, the name of the control block.
    pub gocb_ref: &'a [u8],
    /// timeAllowedtoLive, in milliseconds.
    pub live: u32,
    /// datSet, the name of the data set.
    pub dat_set: &'a [u8],
    /// goID, which may be absent.
    pub go_id: Option<&'a [u8]>,
    /// t, the moment of the last change.
    pub t: UtcTime,
    /// stNum, which counts changes.
    pub st_num: u32,
    /// sqNum, which counts retransmissions since the last change.
    pub sq_num: u32,
    /// simulation: the frame comes from a test set.
    pub simulation: bool,
    /// confRev, which counts changes of the control block's configuration.
    pub conf_rev: u32,
    /// ndsCom: the control block wants further configuration.
    pub nds_com: bool,
    /// The count of the members.
    pub entries: usize,
    /// allData, the members of the data set.
    pub members: Members<'a>,
    /// Whether the octets that were read are known to be the written form of the APDU; false says nothing.
    pub written: bool,
    pub ghost counted: { entries ≡ length (left members) },
}
