//! Appending an APDU in its written form.

ghost use Rattle.std.specs.Prelude.{◌≡◌, ◌≤◌, ◌<◌, ◌+◌, ◌^◌, ◌↔◌, ◌++◌, drop, length, IsOk, OnOk, OnErr, Err};
ghost use Rattle.arrayvec.specs.ArrayVec.{array_vec_len};
ghost use Rattle.pdu_core.specs.Goose.{goose_fields, goose_items};
ghost use Rattle.pdu_core.specs.Parts.{pdu_of_parts};
ghost use Rattle.pdu_core.specs.Spellable.{IsSpellableGoose};
ghost use Rattle.pdu_core.specs.Written.{HasWrittenGoose, goose_contents, written_fields, written_goose};

use crate::goose::GoosePdu;
use crate::parts::GooseParts;
use crate::putting::{put_flag, put_members_field, put_number, put_octets, put_text_there};
use crate::spellable::are_spellable_parts;
use arrayvec::ArrayVec;
use ber_core::Full;
use mms_data::{PutFault, put_element};
use std::alloc::Allocator;

// Appends the fields from gocbRef on.
fn put_fields<A: Allocator, const N: usize>(
    out: &mut ArrayVec<u8, N>,
    parts: &GooseParts<'_, A>,
) -> Result<(), Full>
    requires spellable { IsSpellableGoose (pdu_of_parts parts.now) }
    ensures enough { length (goose_contents (pdu_of_parts parts.now)) < 2 ^ 32 → array_vec_len out.old + length (goose_contents (pdu_of_parts parts.now)) ≤ N → IsOk result }
    ensures written { OnOk result (out.new.items ≡ out.old.items ++ goose_contents (pdu_of_parts parts.now)) }
{
    put_octets(out, 0x80, parts.gocb_ref)?;
    put_number(out, 0x81, u64::from(parts.live))?;
    put_octets(out, 0x82, parts.dat_set)?;
    put_text_there(out, 0x83, parts.go_id)?;
    put_octets(out, 0x84, &parts.t.to_octets())?;
    put_numbers(out, parts)
}

// Appends the fields from stNum on.
fn put_numbers<A: Allocator, const N: usize>(
    out: &mut ArrayVec<u8, N>,
    parts: &GooseParts<'_, A>,
) -> Result<(), Full>
    requires spellable { IsSpellableGoose (pdu_of_parts parts.now) }
    ensures enough { length (written_fields (drop 5 goose_fields) (drop 5 (goose_items (pdu_of_parts parts.now)))) < 2 ^ 32
        → array_vec_len out.old + length (written_fields (drop 5 goose_fields) (drop 5 (goose_items (pdu_of_parts parts.now)))) ≤ N → IsOk result }
    ensures written { OnOk result (out.new.items ≡ out.old.items ++ written_fields (drop 5 goose_fields) (drop 5 (goose_items (pdu_of_parts parts.now)))) }
{
    put_number(out, 0x85, u64::from(parts.st_num))?;
    put_number(out, 0x86, u64::from(parts.sq_num))?;
    put_flag(out, 0x87, parts.simulation)?;
    put_number(out, 0x88, u64::from(parts.conf_rev))?;
    put_flag(out, 0x89, parts.nds_com)?;
    put_entries(out, parts)
}

// Appends the count of entries, and the entries.
fn put_entries<A: Allocator, const N: usize>(
    out: &mut ArrayVec<u8, N>,
    parts: &GooseParts<'_, A>,
) -> Result<(), Full>
    requires spellable { IsSpellableGoose (pdu_of_parts parts.now) }
    ensures enough { length (written_fields (drop 10 goose_fields) (drop 10 (goose_items (pdu_of_parts parts.now)))) < 2 ^ 32
        → array_vec_len out.old + length (written_fields (drop 10 goose_fields) (drop 10 (goose_items (pdu_of_parts parts.now)))) ≤ N → IsOk result }
    ensures written { OnOk result (out.new.items ≡ out.old.items ++ written_fields (drop 10 goose_fields) (drop 10 (goose_items (pdu_of_parts parts.now)))) }
{
    let entries = parts.members.as_slice();
    put_number(out, 0x8a, entries.len() as u64)?;
    put_members_field(out, 0xab, parts.members)
}

/// Appends the written form of the APDU, each length and number in the fewest octets and both booleans there, where it
/// is spellable and fits; else `out` is unchanged.
///
/// # Errors
///
/// `NotSpellable` where a text has an octet outside 20 to 7E, the fraction of `t` is not below 2^24, a member
/// has no spelling, or there are more than 4294967295 members. Otherwise `Full`, where the contents have more
/// than 4294967295 octets, or the written form does not fit in what is left.
pub fn put_goose<A: Allocator, const N: usize>(
    out: &mut ArrayVec<u8, N>,
    pdu: &GoosePdu<A>,
) -> Result<(), PutFault>
    ensures not_spellable { (result ≡ Err PutFault.NotSpellable) ↔ (¬ IsSpellableGoose pdu.now) }
    ensures fits { IsOk result ↔ (IsSpellableGoose pdu.now × HasWrittenGoose pdu.now × (array_vec_len out.old + length (written_goose pdu.now) ≤ N)) }
    ensures written { OnOk result (out.new.items ≡ out.old.items ++ written_goose pdu.now) }
    ensures unchanged { OnErr result (out.new ≡ out.old) }
{
    put_goose_parts(out, &pdu.parts())
}

/// Appends the written form of the APDU that has these fields, as `put_goose` does.
///
/// # Errors
///
/// Those of `put_goose`.
#[tactic(auto, using(mms_data::proofs::Sizes::element_size))]
pub fn put_goose_parts<A: Allocator, const N: usize>(
    out: &mut ArrayVec<u8, N>,
    parts: &GooseParts<'_, A>,
) -> Result<(), PutFault>
    ensures not_spellable { (result ≡ Err PutFault.NotSpellable) ↔ (¬ IsSpellableGoose (pdu_of_parts parts.now)) }
    ensures fits { IsOk result ↔ (IsSpellableGoose (pdu_of_parts parts.now) × HasWrittenGoose (pdu_of_parts parts.now) × (array_vec_len out.old + length (written_goose (pdu_of_parts parts.now)) ≤ N)) }
    ensures written { OnOk result (out.new.items ≡ out.old.items ++ written_goose (pdu_of_parts parts.now)) }
    ensures unchanged { OnErr result (out.new ≡ out.old) }
{
    if !are_spellable_parts(parts) {
        return Err(PutFault::NotSpellable);
    }
    let mut contents = ArrayVec::<u8, N>::new();
    if put_fields(&mut contents, parts).is_err() {
        return Err(PutFault::Full);
    }
    if put_element(out, 0x61, contents.as_slice()).is_err() {
        return Err(PutFault::Full);
    }
    Ok(())
}
