//! ASDUs that were judged, seen again where they stand. No octet is judged twice: what would be at fault is ruled out by proof,
//! and no reading of a field has an effect, so the compiler keeps that of those fields alone which a caller looks at.

ghost use Rattle.std.specs.Prelude.{◌≡◌, ◌<◌, ◌≤◌, length, IfSome, IsOk, Ok, Some};
ghost use Rattle.byteorder.specs.Endian.{big_number};
ghost use Rattle.ber_core.specs.computed.FieldReading.{field_as};
ghost use Rattle.ber_core.specs.Fields.{always, optional};
ghost use Rattle.mms_data.specs.Place.{IsPart};
ghost use Rattle.pdu_core.specs.Asdu.{asdu_items, fixed_if, some_octets_if, time_if};
ghost use Rattle.pdu_core.specs.Contents.{text, time, fixed, raw, few, a_text, a_fixed, some_octets};
ghost use Rattle.pdu_core.specs.computed.ContentsReading.{item_at};
ghost use Rattle.pdu_core.specs.Goose.{text_if};
ghost use Rattle.pdu_core.specs.Views.{octets_if, IsPartIf};
ghost use Rattle.pdu_core.specs.computed.SampledReading.{asdu_at, behind_first};
ghost use Rattle.pdu_core.specs.SampledViews.{asdu_of, AsduIsPart};

use crate::sampled::usual::usual_fields;
use crate::sampled::view::AsduView;
use ber_core::fields::{known_required, known_there};
use byteorder::{BigEndian, ByteOrder};
use mms_data::UtcTime;
use mms_data::utc::time_of;

// The text that is known to stand at `at`, and the place behind it.
#[inline(always)]
fn known_text<'a>(octets: &'a [u8], at: usize, end: usize, identifier: u8) -> (&'a [u8], usize)
    requires ordered { at ≤ end }
    requires inside { end ≤ length octets.now }
    requires known { IsOk (field_as item_at identifier text always octets.now at end) }
    ensures exact { field_as item_at identifier text always octets.now at end ≡ Ok (Some (a_text result.0.now), result.1) }
    ensures next { (at ≤ result.1) × (result.1 ≤ end) }
    ensures part { IsPart result.0 octets.entry }
{
    let header = known_required(octets, at, end, identifier);
    let text = &octets[header.contents_from..header.contents_to];
    (text, header.contents_to)
}

// The text that may stand at `at`, and the place behind it.
#[inline(always)]
fn known_text_if<'a>(
    octets: &'a [u8],
    at: usize,
    end: usize,
    identifier: u8,
) -> (Option<&'a [u8]>, usize)
    requires ordered { at ≤ end }
    requires inside { end ≤ length octets.now }
    requires known { IsOk (field_as item_at identifier text optional octets.now at end) }
    ensures exact { field_as item_at identifier text optional octets.now at end ≡ Ok (text_if (octets_if result.0), result.1) }
    ensures next { (at ≤ result.1) × (result.1 ≤ end) }
    ensures part { IsPartIf result.0 octets.entry }
{
    match known_there(octets, at, end, identifier) {
        Some(header) => {
            let text = &octets[header.contents_from..header.contents_to];
            (Some(text), header.contents_to)
        }
        None => (None, at),
    }
}

// The octets of a number of `N` octets that is known to stand at `at`, and the place behind it.
#[inline(always)]
fn known_fixed<'a, const N: usize>(
    octets: &'a [u8],
    at: usize,
    end: usize,
    identifier: u8,
) -> (&'a [u8], usize)
    requires ordered { at ≤ end }
    requires inside { end ≤ length octets.now }
    requires known { IsOk (field_as item_at identifier (fixed N) always octets.now at end) }
    ensures exact { field_as item_at identifier (fixed N) always octets.now at end ≡ Ok (Some (a_fixed N (big_number N result.0.now)), result.1) }
    ensures next { (at ≤ result.1) × (result.1 ≤ end) }
    ensures size { length result.0.now ≡ N }
{
    let header = known_required(octets, at, end, identifier);
    let number = &octets[header.contents_from..header.contents_to];
    (number, header.contents_to)
}

// The number of two octets that may stand at `at`, and the place behind it.
#[inline(always)]
fn known_two_octets_if(octets: &[u8], at: usize, end: usize, identifier: u8) -> (Option<u16>, usize)
    requires ordered { at ≤ end }
    requires inside { end ≤ length octets.now }
    requires known { IsOk (field_as item_at identifier (fixed 2) optional octets.now at end) }
    ensures exact { field_as item_at identifier (fixed 2) optional octets.now at end ≡ Ok (fixed_if 2 result.0, result.1) }
    ensures next { (at ≤ result.1) × (result.1 ≤ end) }
{
    match known_there(octets, at, end, identifier) {
        Some(header) => {
            let number = BigEndian::read_u16(&octets[header.contents_from..header.contents_to]);
            (Some(number), header.contents_to)
        }
        None => (None, at),
    }
}

// The time that may stand at `at`, and the place behind it.
#[inline(always)]
fn known_time_if(octets: &[u8], at: usize, end: usize, identifier: u8) -> (Option<UtcTime>, usize)
    requires ordered { at ≤ end }
    requires inside { end ≤ length octets.now }
    requires known { IsOk (field_as item_at identifier time optional octets.now at end) }
    ensures exact { field_as item_at identifier time optional octets.now at end ≡ Ok (time_if result.0, result.1) }
    ensures next { (at ≤ result.1) × (result.1 ≤ end) }
{
    match known_there(octets, at, end, identifier) {
        Some(header) => {
            let time = time_of(&octets[header.contents_from..header.contents_to]);
            (Some(time), header.contents_to)
        }
        None => (None, at),
    }
}

// The octets of any count that are known to stand at `at`, and the place behind them.
#[inline(always)]
fn known_octets<'a>(octets: &'a [u8], at: usize, end: usize, identifier: u8) -> (&'a [u8], usize)
    requires ordered { at ≤ end }
    requires inside { end ≤ length octets.now }
    requires known { IsOk (field_as item_at identifier raw always octets.now at end) }
    ensures exact { field_as item_at identifier raw always octets.now at end ≡ Ok (Some (some_octets result.0.now), result.1) }
    ensures next { (at ≤ result.1) × (result.1 ≤ end) }
    ensures part { IsPart result.0 octets.entry }
{
    let header = known_required(octets, at, end, identifier);
    let contents = &octets[header.contents_from..header.contents_to];
    (contents, header.contents_to)
}

// The one to sixteen octets that may stand at `at`, and the place behind them.
#[inline(always)]
fn known_few_if<'a>(
    octets: &'a [u8],
    at: usize,
    end: usize,
    identifier: u8,
) -> (Option<&'a [u8]>, usize)
    requires ordered { at ≤ end }
    requires inside { end ≤ length octets.now }
    requires known { IsOk (field_as item_at identifier few optional octets.now at end) }
    ensures exact { field_as item_at identifier few optional octets.now at end ≡ Ok (some_octets_if (octets_if result.0), result.1) }
    ensures next { (at ≤ result.1) × (result.1 ≤ end) }
    ensures part { IsPartIf result.0 octets.entry }
{
    match known_there(octets, at, end, identifier) {
        Some(header) => {
            let contents = &octets[header.contents_from..header.contents_to];
            (Some(contents), header.contents_to)
        }
        None => (None, at),
    }
}

// The view of an ASDU of this svID whose other fields are known to fill the octets from `at` to `end`.
#[inline(always)]
fn known_fields<'a>(octets: &'a [u8], at: usize, end: usize, sv_id: &'a [u8]) -> AsduView<'a>
    requires ordered { at ≤ end }
    requires inside { end ≤ length octets.now }
    requires known { IsOk (behind_first (Some (a_text sv_id.now)) octets.now at end) }
    ensures exact { behind_first (Some (a_text sv_id.now)) octets.now at end ≡ Ok (asdu_items (asdu_of {A = Unit {0}} result)) }
    ensures parts { IsPart sv_id.entry octets.entry → AsduIsPart result octets.entry }
{
    let (dat_set, place) = known_text_if(octets, at, end, 0x81);
    let (smp_cnt, place) = known_fixed::<2>(octets, place, end, 0x82);
    let (conf_rev, place) = known_fixed::<4>(octets, place, end, 0x83);
    let (refr_tm, place) = known_time_if(octets, place, end, 0x84);
    let (smp_synch, place) = known_fixed::<1>(octets, place, end, 0x85);
    let (smp_rate, place) = known_two_octets_if(octets, place, end, 0x86);
    let (sample, place) = known_octets(octets, place, end, 0x87);
    let (smp_mod, place) = known_few_if(octets, place, end, 0x88);
    let (field_89, _) = known_few_if(octets, place, end, 0x89);
    AsduView {
        sv_id,
        dat_set,
        smp_cnt: BigEndian::read_u16(smp_cnt),
        conf_rev: BigEndian::read_u32(conf_rev),
        refr_tm,
        smp_synch: smp_synch[0],
        smp_rate,
        sample,
        smp_mod,
        field_89,
    }
}

/// The ASDU that is known to stand at `at`, in a region that ends at `end`, and the place behind it.
#[inline(always)]
#[tactic(auto, unfolding(crate::specs::computed::SampledReading::asdu_at))]
pub fn known_asdu<'a>(octets: &'a [u8], at: usize, end: usize) -> (AsduView<'a>, usize)
    requires ordered { at ≤ end }
    requires inside { end ≤ length octets.now }
    requires known { IsOk (asdu_at octets.now at end) }
    ensures exact { asdu_at octets.now at end ≡ Ok (asdu_items (asdu_of {A = Unit {0}} result.0), result.1) }
    ensures next { (at < result.1) × (result.1 ≤ end) }
    ensures parts { AsduIsPart result.0 octets.entry }
{
    let header = known_required(octets, at, end, 0x30);
    let to = header.contents_to;
    let (sv_id, place) = known_text(octets, header.contents_from, to, 0x80);
    (known_fields(octets, place, to, sv_id), to)
}

/// The same, where the ASDU has the usual fields.
#[inline(always)]
#[tactic(auto, unfolding(crate::specs::computed::SampledReading::asdu_at))]
pub fn known_usual<'a>(octets: &'a [u8], at: usize, end: usize) -> Option<(AsduView<'a>, usize)>
    requires ordered { at ≤ end }
    requires inside { end ≤ length octets.now }
    requires known { IsOk (asdu_at octets.now at end) }
    ensures exact { IfSome result (λ x. asdu_at octets.now at end ≡ Ok (asdu_items (asdu_of {A = Unit {0}} x.0), x.1)) }
    ensures next { IfSome result (λ x. (at < x.1) × (x.1 ≤ end)) }
{
    let header = known_required(octets, at, end, 0x30);
    let to = header.contents_to;
    let (sv_id, place) = known_text(octets, header.contents_from, to, 0x80);
    Some((usual_fields(octets, place, to, sv_id)?, to))
}
