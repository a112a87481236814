//! Appending the elements of a savPdu: one ASDU, and the savPdu that holds ASDUs.

ghost use Rattle.std.specs.Prelude.{◌≡◌, ◌≤◌, ◌<◌, ◌+◌, ◌^◌, ◌↔◌, ◌++◌, drop, length, pos, IsOk, OnOk, OnErr};
ghost use Rattle.arrayvec.specs.ArrayVec.{array_vec_len};
ghost use Rattle.ber_core.specs.Written.{short_integer, written_element};
ghost use Rattle.pdu_core.specs.Asdu.{asdu_fields, asdu_items};
ghost use Rattle.pdu_core.specs.SampledViews.{asdu_of};
ghost use Rattle.pdu_core.specs.SampledWritten.{asdu_contents, written_asdu};
ghost use Rattle.pdu_core.specs.Written.{written_fields};

use crate::putting::{put_number, put_octets, put_text_there};
use crate::sampled::putting::{put_octets_if, put_time_if, put_u16_if};
use crate::sampled::view::AsduView;
use arrayvec::ArrayVec;
use ber_core::Full;
use mms_data::put_element;

// Appends the fields from svID on.
fn put_fields<const N: usize>(out: &mut ArrayVec<u8, N>, asdu: &AsduView<'_>) -> Result<(), Full>
    ensures enough { length (asdu_contents (asdu_of {A = Unit {0}} asdu.now)) < 2 ^ 32 → array_vec_len out.old + length (asdu_contents (asdu_of {A = Unit {0}} asdu.now)) ≤ N → IsOk result }
    ensures written { OnOk result (out.new.items ≡ out.old.items ++ asdu_contents (asdu_of {A = Unit {0}} asdu.now)) }
{
    put_octets(out, 0x80, asdu.sv_id)?;
    put_text_there(out, 0x81, asdu.dat_set)?;
    put_octets(out, 0x82, &asdu.smp_cnt.to_be_bytes())?;
    put_octets(out, 0x83, &asdu.conf_rev.to_be_bytes())?;
    put_time_if(out, 0x84, asdu.refr_tm)?;
    put_samples(out, asdu)
}

// Appends the fields from smpSynch on.
fn put_samples<const N: usize>(out: &mut ArrayVec<u8, N>, asdu: &AsduView<'_>) -> Result<(), Full>
    ensures enough { length (written_fields (drop 5 asdu_fields) (drop 5 (asdu_items (asdu_of {A = Unit {0}} asdu.now)))) < 2 ^ 32
        → array_vec_len out.old + length (written_fields (drop 5 asdu_fields) (drop 5 (asdu_items (asdu_of {A = Unit {0}} asdu.now)))) ≤ N → IsOk result }
    ensures written { OnOk result (out.new.items ≡ out.old.items ++ written_fields (drop 5 asdu_fields) (drop 5 (asdu_items (asdu_of {A = Unit {0}} asdu.now)))) }
{
    put_octets(out, 0x85, &asdu.smp_synch.to_be_bytes())?;
    put_u16_if(out, 0x86, asdu.smp_rate)?;
    put_octets(out, 0x87, asdu.sample)?;
    put_octets_if(out, 0x88, asdu.smp_mod)?;
    put_octets_if(out, 0x89, asdu.field_89)
}

// Appends an ASDU.
#[tactic(auto, using(mms_data::proofs::Sizes::element_size))]
pub fn put_asdu<const N: usize>(out: &mut ArrayVec<u8, N>, asdu: &AsduView<'_>) -> Result<(), Full>
    ensures enough { length (written_asdu (asdu_of {A = Unit {0}} asdu.now)) < 2 ^ 32 → array_vec_len out.old + length (written_asdu (asdu_of {A = Unit {0}} asdu.now)) ≤ N → IsOk result }
    ensures written { OnOk result (out.new.items ≡ out.old.items ++ written_asdu (asdu_of {A = Unit {0}} asdu.now)) }
{
    let mut contents = ArrayVec::<u8, N>::new();
    put_fields(&mut contents, asdu)?;
    put_element(out, 0x30, contents.as_slice())
}

// Appends the count of the ASDUs, and the ASDUs, which stand in their written form.
fn put_contents<const N: usize>(
    out: &mut ArrayVec<u8, N>,
    count: usize,
    asdus: &[u8],
) -> Result<(), Full>
    ensures enough { length (written_element 0x80 (short_integer (pos count)) ++ written_element 0xa2 asdus.now) < 2 ^ 32
        → array_vec_len out.old + length (written_element 0x80 (short_integer (pos count)) ++ written_element 0xa2 asdus.now) ≤ N → IsOk result }
    ensures written { OnOk result (out.new.items ≡ out.old.items ++ (written_element 0x80 (short_integer (pos count)) ++ written_element 0xa2 asdus.now)) }
{
    put_number(out, 0x80, count as u64)?;
    put_octets(out, 0xa2, asdus)
}

// Appends the savPdu of so many ASDUs, which stand in their written form, where it fits; else `out` is unchanged.
#[tactic(auto, using(mms_data::proofs::Sizes::element_size))]
pub fn put_sampled_apdu<const N: usize>(
    out: &mut ArrayVec<u8, N>,
    count: usize,
    asdus: &[u8],
) -> Result<(), Full>
    ensures fits { IsOk result ↔ ((length (written_element 0x80 (short_integer (pos count)) ++ written_element 0xa2 asdus.now) < 2 ^ 32)
        × (array_vec_len out.old + length (written_element 0x60 (written_element 0x80 (short_integer (pos count)) ++ written_element 0xa2 asdus.now)) ≤ N)) }
    ensures written { OnOk result (out.new.items ≡ out.old.items ++ written_element 0x60 (written_element 0x80 (short_integer (pos count)) ++ written_element 0xa2 asdus.now)) }
    ensures unchanged { OnErr result (out.new ≡ out.old) }
{
    let mut contents = ArrayVec::<u8, N>::new();
    if put_contents(&mut contents, count, asdus).is_err() {
        return Err(Full);
    }
    put_element(out, 0x60, contents.as_slice())
}
