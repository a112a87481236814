//! Members of Data, seen where they stand, and in memory of their own.

ghost use Rattle.std.specs.Prelude.{◌≡◌, ◌≤◌, ◌-◌, List, Err, length, slice_range, true, IfOk, IsOk};
ghost use Rattle.ber_core.specs.computed.Reading.{Gives};
ghost use Rattle.ber_core.specs.declared.fault.Fault.{Fault};
ghost use Rattle.mms_data.specs.Answers.{IfRefused, ReadsAs};
ghost use Rattle.mms_data.specs.Data.{Data};
ghost use Rattle.mms_data.specs.Meaning.{left};
ghost use Rattle.mms_data.specs.Place.{IsPart, source_of};
ghost use Rattle.mms_data.specs.computed.Reading.{members_at};
ghost use Rattle.mms_data.specs.Spelling.{FaultIn, SpellSome, SpellsAll};
ghost use Rattle.mms_data.specs.Value.{datas};
ghost use Rattle.mms_data.specs.Written.{written_all};

use crate::checking::{check_members, count_noting};
use crate::fault::ReadFault;
use crate::value::Value;
use crate::view::{self, CountedMembers};
use ber_core::Fault;
use std::alloc::Allocator;

/// The members that the octets from `at` to `end` spell, the first at the level, seen where they stand:
/// octets that `check_members` accepts there.
pub fn members<'a>(octets: &'a [u8], at: usize, end: usize, level: u8) -> view::Members<'a>
    requires order { at ≤ end }
    requires inside { end ≤ length octets.now }
    requires first { 1 ≤ level }
    requires last { level ≤ 17 }
    requires accepted { SpellSome level (slice_range octets.now at end) }

    // The views to come stand for the members that are spelled, and their octets are a part of the source.
    ensures spelled { SpellsAll (left result) level (slice_range octets.now at end) }
    ensures part { IsPart (source_of result) octets.entry }
{
    view::Members::new(octets, at, end, level, false)
}

/// The members that the octets from `at` to `end` spell, the first at the level, seen where they stand and counted (ISO
/// 9506-2): `check_members` and `members` in one pass, which where `notes` is true also tells members that stand in their
/// written form. No memory is taken.
///
/// # Errors
///
/// The first fault, at its place.
#[inline(always)]
pub fn counted_members<'a>(
    octets: &'a [u8],
    at: usize,
    end: usize,
    level: u8,
    notes: bool,
) -> Result<CountedMembers<'a>, Fault>
    requires order { at ≤ end }
    requires inside { end ≤ length octets.now }
    requires first { 1 ≤ level }
    requires last { level ≤ 17 }

    // The views to come stand for the members that are spelled, which are counted, and their octets are a part of the source.
    ensures found { IfOk result (λ m. SpellsAll (left m.members) level (slice_range octets.now at end)) }
    ensures count { IfOk result (λ m. m.count ≡ length (left m.members)) }
    ensures part { IfOk result (λ m. IsPart (source_of m.members) octets.entry) }

    // The octets are the written forms of the members, one after the other, where this is told.
    ensures written { IfOk result (λ m. m.written ≡ true → slice_range octets.now at end ≡ written_all (left m.members)) }

    // For callers: the function on octets that it computes.
    ensures exact { Gives (λ m. left m.members) result (members_at (17 - level) at (slice_range octets.now at end)) }
{
    let (count, written) = count_noting(octets, at, end, 17 - level, notes)?;
    Ok(CountedMembers {
        count,
        written,
        members: view::Members::new(octets, at, end, level, written),
    })
}

/// The values that the octets from `at` to `end` spell, the first at the level, from 1 to 17 (ISO 9506-2).
///
/// # Errors
///
/// The first fault, at its place, or `Memory` where memory is refused.
pub fn read_members<A: Allocator + Copy>(
    alloc: A,
    octets: &[u8],
    at: usize,
    end: usize,
    level: u8,
) -> Result<Vec<Value<A>, A>, ReadFault>
    requires order { at ≤ end }
    requires inside { end ≤ length octets.now }
    requires first { 1 ≤ level }
    requires last { level ≤ 17 }

    // What is read is spelled so, and what is spelled so is read, unless memory runs out.
    ensures found { IfOk result (λ v. SpellsAll (datas v.items) level (slice_range octets.now at end)) }
    ensures only { (ds : List Data) → SpellsAll ds level (slice_range octets.now at end) → ReadsAs (λ v. datas v.items) result ds }

    // The fault that is answered is there, and the fault that is there is answered, whatever memory there is.
    ensures fault { IfRefused result (λ f. FaultIn f level at (slice_range octets.now at end)) }
    ensures fault_only { (f : Fault) → FaultIn f level at (slice_range octets.now at end) → result ≡ Err (ReadFault.Fault f) }

    // No members need no memory.
    ensures none { at ≡ end → IsOk result }
{
    check_members(octets, at, end, level)?;
    Ok(members(octets, at, end, level).to_values(alloc)?)
}
