//! Seeing an APDU where it stands.

ghost use Rattle.std.specs.Prelude.{◌≡◌, ◌≤◌, Err, length, slice_range, true, false, IfOk, IfErr};
ghost use Rattle.ber_core.specs.computed.Reading.{Gives};
ghost use Rattle.ber_core.specs.declared.fault.Fault.{Fault};
ghost use Rattle.mms_data.specs.Meaning.{left};
ghost use Rattle.pdu_core.specs.Goose.{goose_items, SpellsGoose, GooseFault};
ghost use Rattle.pdu_core.specs.computed.GooseReading.{count_at, goose_at};
ghost use Rattle.pdu_core.specs.Views.{pdu_of, GooseIsPart, ShowsGoose};
ghost use Rattle.pdu_core.specs.Written.{written_goose};
ghost use Rattle.pdu_core.specs.declared.goose.GoosePdu.{GoosePdu};

use crate::fields::{
    flag_if_there, members_field, number_field, text_field, text_if_there, time_field,
};
use crate::view::GooseView;
use ber_core::fields::{check_end, required};
use ber_core::{Cause, Fault};
use mms_data::CountedMembers;
use mms_data::standing::has_short_length;

// Whether the count at this place is that of the entries.
#[inline(always)]
fn check_count(place: usize, count: u32, entries: &CountedMembers<'_>) -> Result<(), Fault>
    requires { entries.now.count ≡ length (left entries.now.members) }
    ensures exact { result ≡ count_at place count (left entries.now.members) }
    ensures same { IfOk result (λ _. count ≡ length (left entries.now.members)) }
{
    if count as usize == entries.count {
        Ok(())
    } else {
        Err(Cause::EntryCount.at(place))
    }
}

// The APDU that fills the octets from `at` to `end`, as reading from left to right gives it, and where `NOTES` is true,
// whether it is known to stand in its written form. Never inlined, so that the view is put together once.
#[inline(never)]
#[tactic(auto, unfolding(crate::specs::computed::GooseReading::goose_at))]
fn goose<'a, const NOTES: bool>(
    octets: &'a [u8],
    at: usize,
    end: usize,
) -> Result<GooseView<'a>, Fault>
    requires ordered { at ≤ end }
    requires inside { end ≤ length octets.now }
    ensures exact { Gives (λ v. goose_items (pdu_of {A = Unit {0}} v)) result (goose_at octets.now at end) }
    ensures parts { IfOk result (λ v. GooseIsPart v octets.entry) }
    ensures entries { IfOk result (λ v. v.entries ≡ length (left v.members)) }
    ensures written { IfOk result (λ v. v.written ≡ true → slice_range octets.now at end ≡ written_goose (pdu_of {A = Unit {0}} v)) }
    ensures asked { IfOk result (λ v. v.written ≡ true → NOTES ≡ true) }
{
    let header = required(octets, at, end, 0x61)?;
    let to = header.contents_to;
    let written = NOTES & has_short_length(&header);
    let (gocb_ref, place, written) = text_field(octets, header.contents_from, to, 0x80, written)?;
    let (live, place, written) = number_field(octets, place, to, 0x81, written)?;
    let (dat_set, place, written) = text_field(octets, place, to, 0x82, written)?;
    let (go_id, place, written) = text_if_there(octets, place, to, 0x83, written)?;
    let (t, place, written) = time_field(octets, place, to, 0x84, written)?;
    let (st_num, place, written) = number_field(octets, place, to, 0x85, written)?;
    let (sq_num, place, written) = number_field(octets, place, to, 0x86, written)?;
    let (simulation, place, written) = flag_if_there(octets, place, to, 0x87, written)?;
    let (conf_rev, place, written) = number_field(octets, place, to, 0x88, written)?;
    let (nds_com, place, written) = flag_if_there(octets, place, to, 0x89, written)?;
    let count_at = place;
    let (count, place, written) = number_field(octets, place, to, 0x8a, written)?;
    let (entries, place, written) = members_field::<NOTES>(octets, place, to, 0xab, written)?;
    check_end(place, to)?;
    check_end(to, end)?;
    check_count(count_at, count, &entries)?;
    Ok(GooseView {
        gocb_ref,
        live,
        dat_set,
        go_id,
        t,
        st_num,
        sq_num,
        simulation,
        conf_rev,
        nds_com,
        entries: entries.count,
        members: entries.members,
        written,
    })
}

/// What `view_goose` answers, and where `notes` is true, whether the octets are known to be the written form of the APDU.
/// Inlined, so that it costs nothing where `notes` is `false`.
///
/// # Errors
///
/// Those of `view_goose`.
#[inline(always)]
pub fn see_goose<'a>(
    octets: &'a [u8],
    at: usize,
    end: usize,
    notes: bool,
) -> Result<GooseView<'a>, Fault>
    requires ordered { at ≤ end }
    requires inside { end ≤ length octets.now }

    // The function on octets that it computes, as `view_goose` does, whose clauses say what it finds.
    ensures exact { Gives (λ v. goose_items (pdu_of {A = Unit {0}} v)) result (goose_at octets.now at end) }

    // Texts and members are parts of the octets, and the entries are counted.
    ensures parts { IfOk result (λ v. GooseIsPart v octets.entry) }
    ensures entries { IfOk result (λ v. v.entries ≡ length (left v.members)) }

    // The octets are the written form of the APDU, where the view says so; it says so only where that was asked.
    ensures written { IfOk result (λ v. v.written ≡ true → slice_range octets.now at end ≡ written_goose (pdu_of {A = Unit {0}} v)) }
    ensures asked { IfOk result (λ v. v.written ≡ true → notes ≡ true) }
{
    if notes {
        goose::<true>(octets, at, end)
    } else {
        goose::<false>(octets, at, end)
    }
}

/// The APDU whose one element fills the octets from `at` to `end` (IEC 61850-8-1, IECGoosePdu).
///
/// # Errors
///
/// The first fault from left to right; where there is none but the count of entries is not that of the
/// members, `EntryCount` at the identifier of the count.
pub fn view_goose<'a>(octets: &'a [u8], at: usize, end: usize) -> Result<GooseView<'a>, Fault>
    requires ordered { at ≤ end }
    requires inside { end ≤ length octets.now }

    // What is seen is spelled so, and what is spelled so is seen.
    ensures found { IfOk result (λ v. SpellsGoose {A = Unit {0}} (pdu_of v) (slice_range octets.now at end)) }
    ensures only { (p : GoosePdu (Unit {0})) → SpellsGoose p (slice_range octets.now at end) → ShowsGoose result p }

    // The fault that is answered is there, and the fault that is there is answered.
    ensures fault { IfErr result (λ f. GooseFault f at (slice_range octets.now at end)) }
    ensures fault_only { (f : Fault) → GooseFault f at (slice_range octets.now at end) → result ≡ Err f }

    // Texts and members are parts of the octets, and the entries are counted.
    ensures parts { IfOk result (λ v. GooseIsPart v octets.entry) }
    ensures entries { IfOk result (λ v. v.entries ≡ length (left v.members)) }

    // Whether the octets are the written form of the APDU is not noted.
    ensures unnoted { IfOk result (λ v. v.written ≡ false) }

    // For callers: the function on octets that it computes.
    ensures exact { Gives (λ v. goose_items (pdu_of {A = Unit {0}} v)) result (goose_at octets.now at end) }
{
    see_goose(octets, at, end, false)
}
