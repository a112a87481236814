//! Whether an APDU has a spelling.

ghost use Rattle.std.specs.Prelude.{◌↔◌, ◌<◌, ◌^◌, IfSome, IsTrue};
ghost use Rattle.ber_core.specs.Contents.{AreVisible};
ghost use Rattle.pdu_core.specs.Parts.{pdu_of_parts};
ghost use Rattle.pdu_core.specs.Spellable.{IsSpellableGoose};
ghost use Rattle.pdu_core.specs.Views.{octets_if};

use crate::goose::GoosePdu;
use crate::parts::{GooseParts, slice_if};
use ber_core::contents::check_visible;
use mms_data::{Octets, UtcTime, are_spellable};
use std::alloc::Allocator;

// Whether the octets are all visible.
pub(crate) fn is_visible_text(text: &[u8]) -> bool
    ensures { IsTrue result ↔ AreVisible text.now }
{
    match check_visible(text, 0) {
        Ok(()) => true,
        Err(_) => false,
    }
}

// The same of octets that may be absent.
pub(crate) fn is_visible_if<A: Allocator>(text: &Option<Octets<A>>) -> bool
    ensures { IsTrue result ↔ IfSome text.now AreVisible }
{
    is_visible_there(slice_if(text))
}

// The same of octets where they stand.
fn is_visible_there(text: Option<&[u8]>) -> bool
    ensures { IsTrue result ↔ IfSome (octets_if text.entry) AreVisible }
{
    match text {
        Some(text) => is_visible_text(text),
        None => true,
    }
}

// Each number lies in the range of its type; nothing is computed.
fn know_ranges(live: u32, t: UtcTime, st_num: u32, sq_num: u32, conf_rev: u32)
    ensures live { live < 2 ^ 32 }
    ensures seconds { t.seconds < 2 ^ 32 }
    ensures quality { t.quality < 256 }
    ensures st_num { st_num < 2 ^ 32 }
    ensures sq_num { sq_num < 2 ^ 32 }
    ensures conf_rev { conf_rev < 2 ^ 32 }
{
    let _ = (t.seconds, t.quality);
}

/// Whether each field of the APDU has a spelling: texts are visible, the fraction of the time is below 2^24,
/// the members are spellable and at most 4294967295.
pub fn is_spellable<A: Allocator>(pdu: &GoosePdu<A>) -> bool
    ensures { IsTrue result ↔ IsSpellableGoose pdu.now }
{
    are_spellable_parts(&pdu.parts())
}

/// Whether each of these fields has a spelling.
pub fn are_spellable_parts<A: Allocator>(parts: &GooseParts<'_, A>) -> bool
    ensures { IsTrue result ↔ IsSpellableGoose (pdu_of_parts parts.now) }
{
    if !is_visible_text(parts.gocb_ref) {
        return false;
    }
    if !is_visible_text(parts.dat_set) {
        return false;
    }
    if !is_visible_there(parts.go_id) {
        return false;
    }
    if parts.t.fraction >= 0x100_0000 {
        return false;
    }
    let entries = parts.members.as_slice();
    if entries.len() > 0xffff_ffff {
        return false;
    }
    know_ranges(
        parts.live,
        parts.t,
        parts.st_num,
        parts.sq_num,
        parts.conf_rev,
    );
    are_spellable(parts.members, 1)
}
