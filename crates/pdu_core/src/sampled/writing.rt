//! Appending an APDU of Sampled Values in its written form.

ghost use Rattle.std.specs.Prelude.{◌≡◌, ◌≤◌, ◌<◌, ◌+◌, ◌^◌, ◌↔◌, ◌++◌, length, IsOk, OnOk, OnErr, Err};
ghost use Rattle.arrayvec.specs.ArrayVec.{array_vec_len};
ghost use Rattle.pdu_core.specs.SampledSpellable.{IsSpellableSv};
ghost use Rattle.pdu_core.specs.SampledWritten.{HasWrittenSv, written_asdus, written_sv};

use crate::sampled::asdu::{AsduList, SvPdu};
use crate::sampled::elements::{put_asdu, put_sampled_apdu};
use crate::sampled::spellable::is_spellable_sv;
use arrayvec::ArrayVec;
use ber_core::Full;
use mms_data::PutFault;
use std::alloc::Allocator;

// Appends the ASDUs, one after the other.
fn put_asdus<A: Allocator, const N: usize>(
    out: &mut ArrayVec<u8, N>,
    asdus: &AsduList<A>,
) -> Result<(), Full>
    ensures enough { length (written_asdus asdus.now) < 2 ^ 32 → array_vec_len out.old + length (written_asdus asdus.now) ≤ N → IsOk result }
    ensures written { OnOk result (out.new.items ≡ out.old.items ++ written_asdus asdus.now) }
{
    let asdus = asdus.as_slice();
    for asdu in asdus {
        put_asdu(out, &asdu.as_view())?;
    }
    Ok(())
}

// Appends the savPdu of the ASDUs, where it fits; else `out` is unchanged.
#[tactic(auto, using(crate::proofs::ApduSizes::asdus_within, crate::proofs::ApduSizes::asdus_fit))]
fn put_pdu<A: Allocator, const N: usize>(
    out: &mut ArrayVec<u8, N>,
    pdu: &SvPdu<A>,
) -> Result<(), Full>
    ensures fits { IsOk result ↔ (HasWrittenSv pdu.now × (array_vec_len out.old + length (written_sv pdu.now) ≤ N)) }
    ensures written { OnOk result (out.new.items ≡ out.old.items ++ written_sv pdu.now) }
    ensures unchanged { OnErr result (out.new ≡ out.old) }
{
    let mut contents = ArrayVec::<u8, N>::new();
    put_asdus(&mut contents, &pdu.asdus)?;
    let asdus = pdu.asdus.as_slice();
    put_sampled_apdu(out, asdus.len(), contents.as_slice())
}

/// Appends the written form of the APDU, each length and noASDU in the fewest octets, where it is spellable and fits;
/// else `out` is unchanged.
///
/// # Errors
///
/// `NotSpellable` where there is no ASDU or there are more than 65535, a text has an octet outside 20 to 7E,
/// the fraction of a `refr_tm` is not below 2^24, or a `smp_mod` or `field_89` has no octet or more than
/// sixteen. Otherwise `Full`, where the contents have more than 4294967295 octets, or the written form does not
/// fit in what is left.
pub fn put_sv<A: Allocator, const N: usize>(
    out: &mut ArrayVec<u8, N>,
    pdu: &SvPdu<A>,
) -> Result<(), PutFault>
    ensures not_spellable { (result ≡ Err PutFault.NotSpellable) ↔ (¬ IsSpellableSv pdu.now) }
    ensures fits { IsOk result ↔ (IsSpellableSv pdu.now × HasWrittenSv pdu.now × (array_vec_len out.old + length (written_sv pdu.now) ≤ N)) }
    ensures written { OnOk result (out.new.items ≡ out.old.items ++ written_sv pdu.now) }
    ensures unchanged { OnErr result (out.new ≡ out.old) }
{
    if !is_spellable_sv(pdu) {
        return Err(PutFault::NotSpellable);
    }
    if put_pdu(out, pdu).is_err() {
        return Err(PutFault::Full);
    }
    Ok(())
}
