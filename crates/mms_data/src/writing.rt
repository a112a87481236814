//! Values, appended in their written form.

ghost use Rattle.std.specs.Prelude.{◌≡◌, ◌≤◌, ◌<◌, ◌+◌, ◌^◌, ◌++◌, ◌↔◌, length, Err, SomeIff, IsOk, OnOk, OnErr};
ghost use Rattle.arrayvec.specs.ArrayVec.{array_vec_len};
ghost use Rattle.mms_data.specs.Spellable.{AllAreSpellable, IsSpellableAt};
ghost use Rattle.mms_data.specs.Value.{data_of};
ghost use Rattle.mms_data.specs.Written.{HasWritten, written, written_all};

use crate::fault::PutFault;
use crate::measuring::{contents_length, element_length, value_length, values_length};
use crate::putting::{put, put_each};
use crate::spellable::{are_spellable, is_spellable};
use crate::value::{Value, ValueList};
use arrayvec::ArrayVec;
use std::alloc::Allocator;

/// How many octets the written form of the value has, where the value has a spelling at level 1 and they are
/// at most 65535.
pub fn spelled_length<A: Allocator>(value: &Value<A>) -> Option<usize>
    ensures { SomeIff result (IsSpellableAt (data_of value.now) 1 × (length (written (data_of value.now)) ≤ 65535)) (length (written (data_of value.now))) }
{
    if !is_spellable(value, 1) {
        return None;
    }
    value_length(value, 0xffff)
}

/// Appends the written form of the value: each length and number in the fewest octets, FF for true (profile).
///
/// # Errors
///
/// `NotSpellable` where the value has no spelling at level 1; else `Full` where its contents have over
/// 4294967295 octets, or the written form does not fit in what is left of `out`. Then `out` is unchanged.
#[tactic(auto, using(crate::proofs::WrittenSizes::written_size))]
pub fn put_value<A: Allocator, const N: usize>(
    out: &mut ArrayVec<u8, N>,
    value: &Value<A>,
) -> Result<(), PutFault>
    ensures not_spellable { (result ≡ Err PutFault.NotSpellable) ↔ (¬ IsSpellableAt (data_of value.now) 1) }
    ensures fits { IsOk result ↔ (IsSpellableAt (data_of value.now) 1 × HasWritten (data_of value.now) × (array_vec_len out.old + length (written (data_of value.now)) ≤ N)) }
    ensures written { OnOk result (out.new.items ≡ out.old.items ++ written (data_of value.now)) }
    ensures unchanged { OnErr result (out.new ≡ out.old) }
{
    if !is_spellable(value, 1) {
        return Err(PutFault::NotSpellable);
    }
    let room = out.remaining_capacity();
    let Some(size) = contents_length(value, room.min(0xffff_ffff)) else {
        return Err(PutFault::Full);
    };
    if element_length(size, room).is_none() {
        return Err(PutFault::Full);
    }
    put(out, value);
    Ok(())
}

/// Appends the written forms of the values, one after the other: contents of at most 4294967295 octets.
///
/// # Errors
///
/// `NotSpellable` where one of the values has no spelling at level 1; else `Full` where they have more octets,
/// or do not fit in what is left of `out`. Then `out` is unchanged.
pub fn put_values<A: Allocator, const N: usize>(
    out: &mut ArrayVec<u8, N>,
    values: &ValueList<A>,
) -> Result<(), PutFault>
    ensures not_spellable { (result ≡ Err PutFault.NotSpellable) ↔ (¬ AllAreSpellable values.now 1) }
    ensures fits { IsOk result ↔ (AllAreSpellable values.now 1 × (length (written_all values.now) < 2 ^ 32) × (array_vec_len out.old + length (written_all values.now) ≤ N)) }
    ensures written { OnOk result (out.new.items ≡ out.old.items ++ written_all values.now) }
    ensures unchanged { OnErr result (out.new ≡ out.old) }
{
    if !are_spellable(values, 1) {
        return Err(PutFault::NotSpellable);
    }
    if values_length(values, out.remaining_capacity().min(0xffff_ffff)).is_none() {
        return Err(PutFault::Full);
    }
    put_each(out, values);
    Ok(())
}
