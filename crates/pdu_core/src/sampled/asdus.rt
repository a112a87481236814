//! ASDUs of Sampled Values, judged where they stand. They are seen again by `known`.

ghost use Rattle.std.specs.Prelude.{◌≡◌, ◌<◌, ◌≤◌, List, length, slice_range, true, Ok, Err, IfOk, IfErr};
ghost use Rattle.ber_core.specs.computed.Reading.{Gives};
ghost use Rattle.pdu_core.specs.Asdu.{asdu_items};
ghost use Rattle.pdu_core.specs.Sampled.{items_of_each};
ghost use Rattle.pdu_core.specs.computed.SampledReading.{asdu_at, asdus_at};
ghost use Rattle.pdu_core.specs.SampledViews.{asdu_of, AsduIsPart};
ghost use Rattle.pdu_core.specs.SampledWritten.{written_asdu, written_asdus};
ghost use Rattle.pdu_core.specs.declared.sampled.asdu.Asdu.{Asdu};

use crate::fields::{text_field, text_if_there};
use crate::sampled::fields::{
    few_if_there, fixed_field, raw_field, time_if_there, two_octets_if_there,
};
use crate::sampled::usual::usual_asdu;
use crate::sampled::view::AsduView;
use ber_core::Fault;
use ber_core::fields::{check_end, required};
use byteorder::{BigEndian, ByteOrder};
use mms_data::standing::has_short_length;

// The ASDU that stands at `at`, in a region that ends at `end`, the place behind it, and where `NOTES` is true, whether it is
// known to stand in its written form.
#[inline(always)]
#[tactic(auto, unfolding(crate::specs::computed::SampledReading::asdu_at))]
fn asdu<'a, const NOTES: bool>(
    octets: &'a [u8],
    at: usize,
    end: usize,
) -> Result<(AsduView<'a>, usize, bool), Fault>
    requires ordered { at ≤ end }
    requires inside { end ≤ length octets.now }
    ensures exact { Gives (λ x. (asdu_items (asdu_of {A = Unit {0}} x.0), x.1)) result (asdu_at octets.now at end) }
    ensures next { IfOk result (λ x. (at < x.1) × (x.1 ≤ end)) }
    ensures parts { IfOk result (λ x. AsduIsPart x.0 octets.entry) }
    ensures written { IfOk result (λ x. x.2 ≡ true → slice_range octets.now at x.1 ≡ written_asdu (asdu_of {A = Unit {0}} x.0)) }
{
    let header = required(octets, at, end, 0x30)?;
    let to = header.contents_to;
    let written = NOTES & has_short_length(&header);
    let (sv_id, place, written) = text_field(octets, header.contents_from, to, 0x80, written)?;
    let (dat_set, place, written) = text_if_there(octets, place, to, 0x81, written)?;
    let (smp_cnt, place, written) = fixed_field::<2>(octets, place, to, 0x82, written)?;
    let (conf_rev, place, written) = fixed_field::<4>(octets, place, to, 0x83, written)?;
    let (refr_tm, place, written) = time_if_there(octets, place, to, 0x84, written)?;
    let (smp_synch, place, written) = fixed_field::<1>(octets, place, to, 0x85, written)?;
    let (smp_rate, place, written) = two_octets_if_there(octets, place, to, 0x86, written)?;
    let (sample, place, written) = raw_field(octets, place, to, 0x87, written)?;
    let (smp_mod, place, written) = few_if_there(octets, place, to, 0x88, written)?;
    let (field_89, place, written) = few_if_there(octets, place, to, 0x89, written)?;
    check_end(place, to)?;
    let view = AsduView {
        sv_id,
        dat_set,
        smp_cnt: BigEndian::read_u16(smp_cnt),
        conf_rev: BigEndian::read_u32(conf_rev),
        refr_tm,
        smp_synch: smp_synch[0],
        smp_rate,
        sample,
        smp_mod,
        field_89,
    };
    Ok((view, to, written))
}

// The place behind the ASDU that stands at `at`, and what is known of its written form. Never inlined, as few ASDUs have other
// fields than the usual ones.
#[inline(never)]
fn judge_any<const NOTES: bool>(
    octets: &[u8],
    at: usize,
    end: usize,
) -> Result<(usize, bool), Fault>
    requires ordered { at ≤ end }
    requires inside { end ≤ length octets.now }
    ensures found { IfOk result (λ x. (a : Asdu (Unit {0})) × (asdu_at octets.now at end ≡ Ok (asdu_items a, x.0)) × (x.1 ≡ true → slice_range octets.now at x.0 ≡ written_asdu a)) }
    ensures next { IfOk result (λ x. (at < x.0) × (x.0 ≤ end)) }
    ensures fault { IfErr result (λ f. asdu_at octets.now at end ≡ Err f) }
{
    let (_, next, written) = asdu::<NOTES>(octets, at, end)?;
    Ok((next, written))
}

// The same: where an ASDU of the usual fields is looked for, without a call for one.
#[inline(always)]
fn judge_asdu<const NOTES: bool>(
    octets: &[u8],
    at: usize,
    end: usize,
    usual: bool,
) -> Result<(usize, bool), Fault>
    requires ordered { at ≤ end }
    requires inside { end ≤ length octets.now }
    ensures found { IfOk result (λ x. (a : Asdu (Unit {0})) × (asdu_at octets.now at end ≡ Ok (asdu_items a, x.0)) × (x.1 ≡ true → slice_range octets.now at x.0 ≡ written_asdu a)) }
    ensures next { IfOk result (λ x. (at < x.0) × (x.0 ≤ end)) }
    ensures fault { IfErr result (λ f. asdu_at octets.now at end ≡ Err f) }
{
    if !usual {
        return judge_any::<NOTES>(octets, at, end);
    }
    match usual_asdu(octets, at, end) {
        Some((_, next)) => Ok((next, NOTES)),
        None => judge_any::<NOTES>(octets, at, end),
    }
}

/// How many ASDUs fill the octets from `at` to `end`, and where `NOTES` is true, whether they are known to stand in their
/// written form.
#[inline(always)]
pub fn check_asdus<const NOTES: bool>(
    octets: &[u8],
    at: usize,
    end: usize,
) -> Result<(usize, bool), Fault>
    requires ordered { at ≤ end }
    requires inside { end ≤ length octets.now }
    ensures found { IfOk result (λ n. (xs : List (Asdu (Unit {0}))) × (asdus_at octets.now at end ≡ Ok (items_of_each xs)) × (length xs ≡ n.0) × (n.1 ≡ true → slice_range octets.now at end ≡ written_asdus xs)) }
    ensures fault { IfErr result (λ f. asdus_at octets.now at end ≡ Err f) }
{
    // The ASDUs of a frame have the same fields: where the first has others, the usual ones are not looked for again.
    let usual = usual_asdu(octets, at, end).is_some();
    let mut count = 0;
    let mut written = NOTES;
    let mut place = at;
    'asdus: while place < end {
        let (next, stands) = judge_asdu::<NOTES>(octets, place, end, usual)?;
        place = next;
        written &= stands;
        count += 1;
    }
    Ok((count, written))
}
