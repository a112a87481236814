//! An ASDU of the fields that streams have in nearly every frame (svID, smpCnt, confRev, smpSynch and sample) and no others,
//! each length in one octet: it is read at once, and is known to stand in its written form.

ghost use Rattle.std.specs.Prelude.{◌≡◌, ◌<◌, ◌≤◌, ◌+◌, Ok, IfSome, Some, drop, length, slice_range};
ghost use Rattle.ber_core.specs.Element.{IsIdentifier};
ghost use Rattle.ber_core.specs.Written.{written_element};
ghost use Rattle.ber_core.specs.computed.FieldReading.{required_at};
ghost use Rattle.mms_data.specs.Place.{IsPart};
ghost use Rattle.pdu_core.specs.Asdu.{asdu_fields, asdu_items};
ghost use Rattle.pdu_core.specs.Contents.{a_text};
ghost use Rattle.pdu_core.specs.SampledViews.{asdu_of, AsduIsPart};
ghost use Rattle.pdu_core.specs.SampledWritten.{written_asdu};
ghost use Rattle.pdu_core.specs.Written.{written_fields};
ghost use Rattle.pdu_core.specs.computed.SampledReading.{asdu_at, behind_first};

use crate::sampled::view::AsduView;
use ber_core::contents::check_visible;
use byteorder::{BigEndian, ByteOrder};

// The contents of the element of this identifier at `at`, whose length is one octet, and the place behind it.
#[inline(always)]
fn short_element<'a>(
    octets: &'a [u8],
    at: usize,
    end: usize,
    identifier: u8,
) -> Option<(&'a [u8], usize)>
    requires ordered { at ≤ end }
    requires inside { end ≤ length octets.now }
    requires identifier { IsIdentifier identifier }
    ensures next { IfSome result (λ x. (at + 2 ≤ x.1) × (x.1 ≤ end) × (x.1 < at + 130)) }
    ensures exact { IfSome result (λ x. required_at identifier octets.now at end ≡ Ok (record { at = at; identifier = identifier; contents_from = at + 2; contents_to = x.1 })) }
    ensures written { IfSome result (λ x. slice_range octets.now at x.1 ≡ written_element identifier (slice_range octets.now (at + 2) x.1)) }
    ensures contents { IfSome result (λ x. x.0.now ≡ slice_range octets.now (at + 2) x.1) }
    ensures part { IfSome result (λ x. IsPart x.0 octets.entry) }
{
    match &octets[at..end] {
        [first, size, rest @ ..]
            if *first == identifier && *size < 0x80 && *size as usize <= rest.len() => {
            let to = at + 2 + *size as usize;
            Some((&octets[at + 2..to], to))
        }
        _ => None,
    }
}

// The octets from `at` to `end`.
#[inline(always)]
fn part<'a>(octets: &'a [u8], at: usize, end: usize) -> &'a [u8]
    requires ordered { at ≤ end }
    requires inside { end ≤ length octets.now }
    ensures contents { result.now ≡ slice_range octets.now at end }
    ensures part { IsPart result octets.entry }
{
    &octets[at..end]
}

/// The view of an ASDU of this svID whose other fields fill the octets from `at` to `end`, where they are the usual ones.
#[inline(always)]
pub fn usual_fields<'a>(
    octets: &'a [u8],
    at: usize,
    end: usize,
    sv_id: &'a [u8],
) -> Option<AsduView<'a>>
    requires ordered { at ≤ end }
    requires inside { end ≤ length octets.now }
    ensures named { IfSome result (λ v. v.sv_id ≡ sv_id.entry) }
    ensures exact { IfSome result (λ v. behind_first (Some (a_text sv_id.now)) octets.now at end ≡ Ok (asdu_items (asdu_of {A = Unit {0}} v))) }
    ensures parts { IfSome result (λ v. IsPart sv_id.entry octets.entry → AsduIsPart v octets.entry) }
    ensures written { IfSome result (λ v. slice_range octets.now at end ≡ written_fields (drop 1 asdu_fields) (drop 1 (asdu_items (asdu_of {A = Unit {0}} v)))) }
{
    let Some((numbers, rest)) = octets[at..end].split_first_chunk::<15>() else {
        return None;
    };
    // An identifier and a length are compared at once.
    let smp_cnt = BigEndian::read_u16(&numbers[..2]);
    let conf_rev = BigEndian::read_u16(&numbers[4..6]);
    let smp_synch = BigEndian::read_u16(&numbers[10..12]);
    if smp_cnt != 0x8202 || conf_rev != 0x8304 || smp_synch != 0x8501 || numbers[13] != 0x87 {
        return None;
    }
    if 0x80 <= numbers[14] || numbers[14] as usize != rest.len() {
        return None;
    }
    Some(AsduView {
        sv_id,
        dat_set: None,
        smp_cnt: BigEndian::read_u16(&numbers[2..4]),
        conf_rev: BigEndian::read_u32(&numbers[6..10]),
        refr_tm: None,
        smp_synch: numbers[12],
        smp_rate: None,
        sample: part(octets, at + 15, end),
        smp_mod: None,
        field_89: None,
    })
}

/// The ASDU that stands at `at`, in a region that ends at `end`, and the place behind it, where it has the usual fields.
#[inline(always)]
pub fn usual_asdu<'a>(octets: &'a [u8], at: usize, end: usize) -> Option<(AsduView<'a>, usize)>
    requires ordered { at ≤ end }
    requires inside { end ≤ length octets.now }
    ensures exact { IfSome result (λ x. asdu_at octets.now at end ≡ Ok (asdu_items (asdu_of {A = Unit {0}} x.0), x.1)) }
    ensures next { IfSome result (λ x. (at < x.1) × (x.1 ≤ end)) }
    ensures parts { IfSome result (λ x. AsduIsPart x.0 octets.entry) }
    ensures written { IfSome result (λ x. slice_range octets.now at x.1 ≡ written_asdu (asdu_of {A = Unit {0}} x.0)) }
{
    let (_, to) = short_element(octets, at, end, 0x30)?;
    let from = at + 2;
    let (sv_id, place) = short_element(octets, from, to, 0x80)?;
    // Last, since an ASDU of other fields is judged again.
    let view = usual_fields(octets, place, to, sv_id)?;
    match check_visible(sv_id, from + 2) {
        Ok(()) => Some((view, to)),
        Err(_) => None,
    }
}
