//! Frames of GOOSE whose APDU is kept elsewhere, written in their one form.

ghost use Rattle.std.specs.Prelude.{◌≡◌, ◌≤◌, ◌<◌, ◌+◌, ◌↔◌, [], length, IfOk, OnOk, Err, is_ok};
ghost use Rattle.arrayvec.specs.ArrayVec.{array_vec_len};
ghost use Rattle.frame_core.specs.Frame.{SpellsFrame};
ghost use Rattle.frame_core.specs.GooseFrame.{frame_of_parts};
ghost use Rattle.frame_core.specs.Written.{ApduIsSpellable, IsHeld, IsTooLong, written_frame};
ghost use Rattle.frame_core.specs.computed.WrittenTest.{fits};
ghost use Rattle.pdu_core.specs.Parts.{pdu_of_parts};
ghost use Rattle.pdu_core.specs.Spellable.{IsSpellableGoose};
ghost use Rattle.pdu_core.specs.Written.{written_goose};

use crate::encoding::{EncodeFault, MOST_APDU};
use crate::envelope::{Envelope, GOOSE, MOST_FRAME, put_frame};
use crate::vlan_tag::VlanTag;
use arrayvec::ArrayVec;
use ber_core::Full;
use mms_data::PutFault;
use pdu_core::{GooseParts, put_goose_parts};
use std::alloc::Allocator;

/// A frame of GOOSE without a trailer, whose texts and members are kept elsewhere: it is written without being put
/// together in memory of its own. The fields mean what those of `Frame` do.
#[derive(Drop)]
pub struct GooseFrame<'a, A: Allocator> {
    /// The address that the frame is sent to.
    pub destination: [u8; 6],
    /// The address that it is sent from.
    pub source: [u8; 6],
    /// The tag of a virtual network, which may be absent.
    pub tag: Option<VlanTag>,
    /// APPID, which tells applications apart.
    pub app_id: u16,
    /// Reserved 1; its top bit is the simulation bit of edition 2.
    pub reserved1: u16,
    /// Reserved 2.
    pub reserved2: u16,
    /// The application's protocol data unit (APDU).
    pub parts: GooseParts<'a, A>,
}

/// The written form of the frame that has these fields, as `encode` gives it.
///
/// # Errors
///
/// Those of `encode`.
pub fn encode_goose<A: Allocator>(
    frame: &GooseFrame<'_, A>,
) -> Result<ArrayVec<u8, 1600>, EncodeFault>
    ensures not_spellable { (result ≡ Err EncodeFault.NotSpellable) ↔ (¬ ApduIsSpellable (frame_of_parts frame.now).apdu) }
    ensures too_long { (result ≡ Err EncodeFault.TooLong) ↔ (ApduIsSpellable (frame_of_parts frame.now).apdu × IsTooLong (frame_of_parts frame.now)) }
    ensures written { IfOk result (λ o. o.items ≡ written_frame (frame_of_parts frame.now)) }

    // What is written spells the frame.
    ensures spelled { IfOk result (λ o. SpellsFrame (frame_of_parts frame.now) o.items) }

    // For callers: the same as a test.
    ensures exact { is_ok result ≡ fits (frame_of_parts frame.now) }
{
    write_goose(frame)
}

// The written form, from its addresses on.
fn write_goose<A: Allocator>(frame: &GooseFrame<'_, A>) -> Result<ArrayVec<u8, 1600>, EncodeFault>
    ensures not_spellable { (result ≡ Err EncodeFault.NotSpellable) ↔ (¬ ApduIsSpellable (frame_of_parts frame.now).apdu) }
    ensures too_long { (result ≡ Err EncodeFault.TooLong) ↔ (ApduIsSpellable (frame_of_parts frame.now).apdu × IsTooLong (frame_of_parts frame.now)) }
    ensures written { IfOk result (λ o. o.items ≡ written_frame (frame_of_parts frame.now)) }
    ensures held { IfOk result (λ _. IsHeld (frame_of_parts frame.now)) }
{
    let mut apdu = ArrayVec::<u8, MOST_APDU>::new();
    match put_goose_parts(&mut apdu, &frame.parts) {
        Ok(()) => {}
        Err(PutFault::NotSpellable) => return Err(EncodeFault::NotSpellable),
        Err(PutFault::Full) => return Err(EncodeFault::TooLong),
    }
    let envelope = Envelope {
        destination: frame.destination,
        source: frame.source,
        tag: frame.tag,
        ether_type: GOOSE,
        app_id: frame.app_id,
        reserved1: frame.reserved1,
        reserved2: frame.reserved2,
    };
    let mut out = ArrayVec::<u8, MOST_FRAME>::new();
    match put_frame(&mut out, &envelope, apdu.as_slice(), &[]) {
        Ok(()) => Ok(out),
        Err(Full) => Err(EncodeFault::TooLong),
    }
}
