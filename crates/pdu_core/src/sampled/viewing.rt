//! Seeing a savPdu where it stands.

ghost use Rattle.std.specs.Prelude.{◌≡◌, ◌<◌, ◌≤◌, Err, length, slice_range, true, false, pos, IfErr, IfOk, Some};
ghost use Rattle.ber_core.specs.computed.FieldReading.{field_as};
ghost use Rattle.ber_core.specs.Fields.{always};
ghost use Rattle.ber_core.specs.computed.Reading.{Gives};
ghost use Rattle.ber_core.specs.Written.{short_integer, written_element};
ghost use Rattle.ber_core.specs.declared.fault.Fault.{Fault};
ghost use Rattle.pdu_core.specs.Sampled.{asdu_count, asdus, a_count, some_asdus, items_of_each, SpellsSv, SvFault};
ghost use Rattle.pdu_core.specs.computed.SampledReading.{asdu_count_at, asdus_at, count_in, sv_at, sv_item_at};
ghost use Rattle.pdu_core.specs.SampledViews.{asdus_left, asdus_source, sv_of, ShowsSv};
ghost use Rattle.pdu_core.specs.SampledWritten.{written_asdus, written_sv};
ghost use Rattle.pdu_core.specs.declared.sampled.asdu.SvPdu.{SvPdu};

use crate::sampled::asdus::check_asdus;
use crate::sampled::view::{Asdus, SvView};
use ber_core::contents::integer_in;
use ber_core::fields::{check_end, required};
use ber_core::{Cause, Fault, Header};
use mms_data::standing::{has_short_length, is_short};

// ASDUs, their count, and whether they are known to stand in their written form.
#[derive(Clone, Copy)]
struct CountedAsdus<'a> {
    count: usize,
    written: bool,
    asdus: Asdus<'a>,
}

// The count behind a header.
#[inline(always)]
#[tactic(auto, unfolding(crate::specs::computed::SampledReading::count_in))]
fn count(octets: &[u8], header: &Header) -> Result<u16, Fault>
    requires behind { header.now.at < header.now.contents_from }
    requires ordered { header.now.contents_from ≤ header.now.contents_to }
    requires inside { header.now.contents_to ≤ length octets.now }
    ensures { result ≡ count_in octets.now header.now }
{
    Ok(integer_in(octets, header, 1, 0xffff)? as u16)
}

// The count of ASDUs, which is always there, and the place behind it.
#[inline(always)]
fn count_field(
    octets: &[u8],
    at: usize,
    end: usize,
    identifier: u8,
    written: bool,
) -> Result<(u16, usize, bool), Fault>
    requires ordered { at ≤ end }
    requires inside { end ≤ length octets.now }
    ensures exact { Gives (λ x. (Some (a_count x.0), x.1)) result (field_as sv_item_at identifier asdu_count always octets.now at end) }
    ensures next { IfOk result (λ x. (at ≤ x.1) × (x.1 ≤ end)) }
    ensures stands { IfOk result (λ x. x.2 ≡ true → (written ≡ true) × (slice_range octets.now at x.1 ≡ written_element identifier (short_integer (pos x.0)))) }
{
    let header = required(octets, at, end, identifier)?;
    let count = count(octets, &header)?;
    let short = is_short(&octets[header.contents_from..header.contents_to]);
    let written = written & has_short_length(&header) & short;
    Ok((count, header.contents_to, written))
}

// The ASDUs that fill the octets from `at` to `end`, and their count.
#[inline(always)]
fn asdus_from<'a, const NOTES: bool>(
    octets: &'a [u8],
    at: usize,
    end: usize,
) -> Result<CountedAsdus<'a>, Fault>
    requires ordered { at ≤ end }
    requires inside { end ≤ length octets.now }
    ensures exact { Gives (λ x. items_of_each (asdus_left {A = Unit {0}} x.asdus)) result (asdus_at octets.now at end) }
    ensures source { IfOk result (λ x. asdus_source x.asdus ≡ octets.entry) }
    ensures count { IfOk result (λ x. x.count ≡ length (asdus_left {A = Unit {0}} x.asdus)) }
    ensures written { IfOk result (λ x. x.written ≡ true → slice_range octets.now at end ≡ written_asdus (asdus_left {A = Unit {0}} x.asdus)) }
{
    let (count, written) = check_asdus::<NOTES>(octets, at, end)?;
    Ok(CountedAsdus {
        count,
        written,
        asdus: Asdus::new(octets, at, end),
    })
}

// The ASDUs, which are always there, and the place behind them.
#[inline(always)]
fn asdus_field<'a, const NOTES: bool>(
    octets: &'a [u8],
    at: usize,
    end: usize,
    identifier: u8,
    written: bool,
) -> Result<(CountedAsdus<'a>, usize, bool), Fault>
    requires ordered { at ≤ end }
    requires inside { end ≤ length octets.now }
    ensures exact { Gives (λ x. (Some (some_asdus (items_of_each (asdus_left {A = Unit {0}} x.0.asdus))), x.1)) result (field_as sv_item_at identifier asdus always octets.now at end) }
    ensures next { IfOk result (λ x. (at ≤ x.1) × (x.1 ≤ end)) }
    ensures source { IfOk result (λ x. asdus_source x.0.asdus ≡ octets.entry) }
    ensures count { IfOk result (λ x. x.0.count ≡ length (asdus_left {A = Unit {0}} x.0.asdus)) }
    ensures stands { IfOk result (λ x. x.2 ≡ true → (written ≡ true) × (slice_range octets.now at x.1 ≡ written_element identifier (written_asdus (asdus_left {A = Unit {0}} x.0.asdus)))) }
{
    let header = required(octets, at, end, identifier)?;
    let asdus = asdus_from::<NOTES>(octets, header.contents_from, header.contents_to)?;
    let written = written & has_short_length(&header) & asdus.written;
    Ok((asdus, header.contents_to, written))
}

// Whether the count at this place is that of the ASDUs.
#[inline(always)]
#[tactic(auto, using(crate::proofs::SvLaws::each_count))]
fn check_count(place: usize, count: u16, asdus: &CountedAsdus<'_>) -> Result<(), Fault>
    requires { asdus.now.count ≡ length (asdus_left {A = Unit {0}} asdus.now.asdus) }
    ensures exact { result ≡ asdu_count_at place count (items_of_each (asdus_left {A = Unit {0}} asdus.now.asdus)) }
    ensures same { IfOk result (λ _. count ≡ length (asdus_left {A = Unit {0}} asdus.now.asdus)) }
{
    if count as usize == asdus.count {
        Ok(())
    } else {
        Err(Cause::AsduCount.at(place))
    }
}

// The APDU that fills the octets from `at` to `end`, as reading from left to right gives it, and where `NOTES` is true,
// whether it is known to stand in its written form. Never inlined, so that the view is put together once.
#[inline(never)]
#[tactic(auto, unfolding(crate::specs::computed::SampledReading::sv_at))]
fn sv<'a, const NOTES: bool>(octets: &'a [u8], at: usize, end: usize) -> Result<SvView<'a>, Fault>
    requires ordered { at ≤ end }
    requires inside { end ≤ length octets.now }
    ensures exact { Gives (λ v. items_of_each (asdus_left {A = Unit {0}} v.asdus)) result (sv_at octets.now at end) }
    ensures source { IfOk result (λ v. asdus_source v.asdus ≡ octets.entry) }
    ensures count { IfOk result (λ v. v.count ≡ length (asdus_left {A = Unit {0}} v.asdus)) }
    ensures written { IfOk result (λ v. v.written ≡ true → slice_range octets.now at end ≡ written_sv (sv_of {A = Unit {0}} v)) }
    ensures asked { IfOk result (λ v. v.written ≡ true → NOTES ≡ true) }
{
    let header = required(octets, at, end, 0x60)?;
    let to = header.contents_to;
    let written = NOTES & has_short_length(&header);
    let (count, place, written) = count_field(octets, header.contents_from, to, 0x80, written)?;
    let (asdus, place, written) = asdus_field::<NOTES>(octets, place, to, 0xa2, written)?;
    check_end(place, to)?;
    check_end(to, end)?;
    check_count(header.contents_from, count, &asdus)?;
    Ok(SvView {
        count,
        asdus: asdus.asdus,
        written,
    })
}

/// What `view_sv` answers, and where `notes` is true, whether the octets are known to be the written form of the APDU.
/// Inlined, so that it costs nothing where `notes` is `false`.
///
/// # Errors
///
/// Those of `view_sv`.
#[inline(always)]
pub fn see_sv<'a>(octets: &'a [u8], at: usize, end: usize, notes: bool) -> Result<SvView<'a>, Fault>
    requires ordered { at ≤ end }
    requires inside { end ≤ length octets.now }

    // The function on octets that it computes, as `view_sv` does, whose clauses say what it finds.
    ensures exact { Gives (λ v. items_of_each (asdus_left {A = Unit {0}} v.asdus)) result (sv_at octets.now at end) }

    // The ASDUs are read from the octets themselves, and are counted.
    ensures source { IfOk result (λ v. asdus_source v.asdus ≡ octets.entry) }
    ensures count { IfOk result (λ v. v.count ≡ length (asdus_left {A = Unit {0}} v.asdus)) }

    // The octets are the written form of the APDU, where the view says so; it says so only where that was asked.
    ensures written { IfOk result (λ v. v.written ≡ true → slice_range octets.now at end ≡ written_sv (sv_of {A = Unit {0}} v)) }
    ensures asked { IfOk result (λ v. v.written ≡ true → notes ≡ true) }
{
    if notes {
        sv::<true>(octets, at, end)
    } else {
        sv::<false>(octets, at, end)
    }
}

/// The APDU whose one element fills the octets from `at` to `end` (IEC 61850-9-2, savPdu).
///
/// # Errors
///
/// The first fault from left to right; where there is none but noASDU is not the count of the ASDUs,
/// `AsduCount` at the identifier of noASDU.
pub fn view_sv<'a>(octets: &'a [u8], at: usize, end: usize) -> Result<SvView<'a>, Fault>
    requires ordered { at ≤ end }
    requires inside { end ≤ length octets.now }

    // What is seen is spelled so, and what is spelled so is seen.
    ensures found { IfOk result (λ v. SpellsSv {A = Unit {0}} (sv_of v) (slice_range octets.now at end)) }
    ensures only { (p : SvPdu (Unit {0})) → SpellsSv p (slice_range octets.now at end) → ShowsSv result p }

    // The fault that is answered is there, and the fault that is there is answered.
    ensures fault { IfErr result (λ f. SvFault f at (slice_range octets.now at end)) }
    ensures fault_only { (f : Fault) → SvFault f at (slice_range octets.now at end) → result ≡ Err f }

    // The ASDUs are read from the octets themselves, and are counted.
    ensures source { IfOk result (λ v. asdus_source v.asdus ≡ octets.entry) }
    ensures count { IfOk result (λ v. v.count ≡ length (asdus_left {A = Unit {0}} v.asdus)) }

    // Whether the octets are the written form of the APDU is not noted.
    ensures unnoted { IfOk result (λ v. v.written ≡ false) }

    // For callers: the function on octets that it computes.
    ensures exact { Gives (λ v. items_of_each (asdus_left {A = Unit {0}} v.asdus)) result (sv_at octets.now at end) }
{
    see_sv(octets, at, end, false)
}
