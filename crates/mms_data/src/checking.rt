//! Whether octets spell members, with no memory.

ghost use Rattle.std.specs.Prelude.{◌≡◌, ◌<◌, ◌≤◌, ◌+◌, ◌++◌, ◌-◌, ◌∷◌, ◌⊎◌, [], ℕ, List, length, slice_range, true, Ok, Err, IfOk, IfErr, IfSome};
ghost use Rattle.ber_core.specs.declared.fault.Fault.{Fault};
ghost use Rattle.mms_data.specs.Contents.{SpellsSimple};
ghost use Rattle.mms_data.specs.Data.{Data, Simple};
ghost use Rattle.mms_data.specs.Kinds.{simple_kind};
ghost use Rattle.mms_data.specs.computed.Left.{less};
ghost use Rattle.mms_data.specs.computed.Plain.{AnnouncesPlain, IsPlainMember};
ghost use Rattle.mms_data.specs.computed.Reading.{contents_at, member_at, members_at};
ghost use Rattle.mms_data.specs.Spelling.{SpellsAll, FaultIn};
ghost use Rattle.mms_data.specs.Written.{simple_contents, written, written_all, written_contents};

use crate::contents::simple;
use crate::kinds::{Kind, SimpleKind, member_kind};
use crate::standing::{has_short_length, is_short, is_simple_written};
use ber_core::{Cause, Fault, Header, header};

/// How many members the octets from `at` to `end` spell, the first at the level (ISO 9506-2). Nothing but those
/// octets is read, and no memory is taken.
///
/// # Errors
///
/// The first fault, at its place.
pub fn check_members(octets: &[u8], at: usize, end: usize, level: u8) -> Result<usize, Fault>
    requires order { at ≤ end }
    requires inside { end ≤ length octets.now }
    requires first { 1 ≤ level }
    requires last { level ≤ 17 }

    // A count that is answered is of members that are spelled there, and members that are spelled there are counted.
    ensures found { IfOk result (λ n. (ds : List Data) × SpellsAll ds level (slice_range octets.now at end) × (length ds ≡ n)) }
    ensures only { (ds : List Data) → SpellsAll ds level (slice_range octets.now at end) → result ≡ Ok (length ds) }

    // The fault that is answered is there, and the fault that is there is answered.
    ensures fault { IfErr result (λ f. FaultIn f level at (slice_range octets.now at end)) }
    ensures fault_only { (f : Fault) → FaultIn f level at (slice_range octets.now at end) → result ≡ Err f }

    // For callers: the function on octets that it computes.
    ensures exact { result ≡ less length (members_at (17 - level) at (slice_range octets.now at end)) }
{
    count_alone(octets, at, end, 17 - level)
}

// The count of the members, of which `depth` levels may stand inside one another.
fn count_alone(octets: &[u8], at: usize, end: usize, depth: u8) -> Result<usize, Fault>
    requires order { at ≤ end }
    requires inside { end ≤ length octets.now }
    ensures { result ≡ less length (members_at depth at (slice_range octets.now at end)) }
{
    match count_members::<false>(octets, at, end, depth) {
        Ok((count, _)) => Ok(count),
        Err(fault) => Err(fault),
    }
}

// The count of the members, and whether they are known to stand in their written form, which is judged where `notes` is
// true. Inlined, so that a caller who never asks for it takes the pass that does not judge it.
#[inline(always)]
pub(crate) fn count_noting(
    octets: &[u8],
    at: usize,
    end: usize,
    depth: u8,
    notes: bool,
) -> Result<(usize, bool), Fault>
    requires order { at ≤ end }
    requires inside { end ≤ length octets.now }
    ensures exact { less (λ x. x.0) result ≡ less length (members_at depth at (slice_range octets.now at end)) }
    ensures written { IfOk result (λ x. x.1 ≡ true → (ds : List Data) → members_at depth at (slice_range octets.now at end) ≡ Ok ds → slice_range octets.now at end ≡ written_all ds) }
{
    if notes {
        count_members::<true>(octets, at, end, depth)
    } else {
        count_members::<false>(octets, at, end, depth)
    }
}

// The same, judged where `NOTES` is true.
#[cycle(checking)]
fn count_members<const NOTES: bool>(
    octets: &[u8],
    at: usize,
    end: usize,
    depth: u8,
) -> Result<(usize, bool), Fault>
    requires order { at ≤ end }
    requires inside { end ≤ length octets.now }
    ensures exact { less (λ x. x.0) result ≡ less length (members_at depth at (slice_range octets.now at end)) }
    ensures written { IfOk result (λ x. x.1 ≡ true → (ds : List Data) → members_at depth at (slice_range octets.now at end) ≡ Ok ds → slice_range octets.now at end ≡ written_all ds) }
{
    let last = end.saturating_sub(2);
    let mut count = 0;
    let mut written = NOTES;
    let mut place = at;
    'members: while place < end {
        if depth == 0 {
            return Err(Cause::TooDeep.at(place));
        }
        // Members of which little has to be looked at stand mostly one after the other, and are passed in a loop of
        // their own.
        'plain: while place < last {
            let Some((next, stands)) = pass_plain::<NOTES>(octets, place, end) else {
                break;
            };
            place = next;
            written &= stands;
            count += 1;
        }
        if place == end {
            break;
        }
        let (next, stands) = pass_other::<NOTES>(octets, place, end, depth)?;
        place = next;
        written &= stands;
        count += 1;
    }
    Ok((count, written))
}

// The contents of the boolean at `at`, where that has three octets.
#[inline(always)]
fn short_boolean(octets: &[u8], at: usize) -> Option<u8>
    requires three { at + 3 ≤ length octets.now }
    ensures { IfSome result (λ n. slice_range octets.now at (at + 3) ≡ 0x83 ∷ 1 ∷ n ∷ []) }
{
    match &octets[at..at + 3] {
        [0x83, 1, octet] => Some(*octet),
        _ => None,
    }
}

// Whether an octet is the one that is written for false, or the one for true.
#[inline(always)]
fn is_written_truth(octet: u8) -> bool
    ensures { result ≡ true → (octet ≡ 0) ⊎ (octet ≡ 0xff) }
{
    matches!(octet, 0 | 0xff)
}

// What an identifier tells of contents that a look at their count and at their first octet finds good: the kind, the least
// count of octets, how many counts from that one on are good, and the greatest first octet.
type Row = (SimpleKind, u8, u8, u8);

// No contents are found good so.
const NOT_PLAIN: Row = (SimpleKind::VisibleString, 0, 0, 0);

// The rows by their identifiers, from that of bit strings on. A table, since a choice by cases would be a jump to a place
// that the processor cannot guess where the kinds vary.
static PLAIN: [Row; 14] = [
    (SimpleKind::BitString, 2, 0x7e, 7),
    (SimpleKind::Integer, 1, 8, 0xff),
    (SimpleKind::Unsigned, 1, 8, 0x7f),
    (SimpleKind::FloatingPoint, 1, 16, 0xff),
    NOT_PLAIN,
    (SimpleKind::OctetString, 1, 0x7f, 0xff),
    NOT_PLAIN,
    NOT_PLAIN,
    NOT_PLAIN,
    NOT_PLAIN,
    NOT_PLAIN,
    NOT_PLAIN,
    (SimpleKind::MmsString, 1, 0x7f, 0xff),
    (SimpleKind::UtcTime, 8, 1, 0xff),
];

// The row of an identifier.
#[inline(always)]
fn plain_of(identifier: u8) -> Option<&'static Row>
    ensures fits { IfSome result (λ r. r.now.1 + r.now.2 ≤ 256) }
    ensures announces { IfSome result (λ r. (n first : ℕ) → r.now.1 ≤ n → n < r.now.1 + r.now.2 → first ≤ r.now.3 → (a : AnnouncesPlain identifier n first) × (a.kind ≡ r.now.0)) }
{
    let place = identifier as usize;
    match place {
        0x84..=0x91 => Some(&PLAIN[place - 0x84]),
        _ => None,
    }
}

// The place after the simple value at `at`, where its first three octets tell that it is good, and its kind.
#[inline(always)]
fn plain_end(octets: &[u8], at: usize, end: usize) -> Option<(usize, SimpleKind)>
    requires three { at + 3 ≤ end }
    requires inside { end ≤ length octets.now }
    ensures next { IfSome result (λ x. (at + 3 ≤ x.0) × (x.0 ≤ end)) }
    ensures plain { IfSome result (λ x. (m : IsPlainMember (slice_range octets.now at x.0)) × (m.announced.kind ≡ x.1)) }
{
    let (kind, least, counts, greatest) = plain_of(octets[at])?;
    let (size, first) = (octets[at + 1], octets[at + 2]);
    let next = at + 2 + size as usize;
    if size.wrapping_sub(*least) < *counts && first <= *greatest && next <= end {
        Some((next, *kind))
    } else {
        None
    }
}

// Whether the contents of a simple value are known to be those of its written form. Booleans are told before: here they
// stand beside another kind, so that three cases are left, and three need no jump by a table.
#[inline(always)]
fn is_plain_written(kind: SimpleKind, contents: &[u8]) -> bool
    ensures { result ≡ true → (v : Simple) → simple_kind v ≡ kind → SpellsSimple v contents.now → contents.now ≡ simple_contents v }
{
    match kind {
        SimpleKind::Boolean | SimpleKind::BitString => match contents {
            [_, _, ..] => is_simple_written(SimpleKind::BitString, contents),
            _ => false,
        },
        SimpleKind::Integer | SimpleKind::Unsigned => is_short(contents),
        _ => is_simple_written(kind, contents),
    }
}

// The place after the simple value at `at`, and whether that is known to stand in its written form, where its first three
// octets tell that it is good.
#[inline(always)]
fn pass_plain<const NOTES: bool>(octets: &[u8], at: usize, end: usize) -> Option<(usize, bool)>
    requires three { at + 3 ≤ end }
    requires inside { end ≤ length octets.now }
    ensures exact { IfSome result (λ x. (depth : ℕ) → 0 < depth → Ok x.0 ≡ less (λ y. y.1) (member_at depth at (slice_range octets.now at end))) }
    ensures next { IfSome result (λ x. (at < x.0) × (x.0 ≤ end)) }
    ensures written { IfSome result (λ x. x.1 ≡ true → (depth : ℕ) → 0 < depth → (d : Data) → member_at depth at (slice_range octets.now at end) ≡ Ok (d, x.0) → slice_range octets.now at x.0 ≡ written d) }
{
    if let Some(octet) = short_boolean(octets, at) {
        return Some((at + 3, NOTES & is_written_truth(octet)));
    }
    let (next, kind) = plain_end(octets, at, end)?;
    Some((next, NOTES & is_plain_written(kind, &octets[at + 2..next])))
}

// The place after the member at `at`, whatever its kind, and whether that is known to stand in its written form.
#[inline(always)]
#[cycle(checking)]
#[tactic(auto, unfolding(crate::specs::computed::Reading::member_with, crate::specs::computed::Reading::member_at))]
fn pass_other<const NOTES: bool>(
    octets: &[u8],
    at: usize,
    end: usize,
    depth: u8,
) -> Result<(usize, bool), Fault>
    requires some { 0 < depth }
    requires order { at < end }
    requires inside { end ≤ length octets.now }
    ensures exact { less (λ x. x.0) result ≡ less (λ x. x.1) (member_at depth at (slice_range octets.now at end)) }
    ensures next { IfOk result (λ x. (at < x.0) × (x.0 ≤ end)) }
    ensures written { IfOk result (λ x. x.1 ≡ true → (d : Data) → member_at depth at (slice_range octets.now at end) ≡ Ok (d, x.0) → slice_range octets.now at x.0 ≡ written d) }
{
    // The header is read first, so that the contents are judged where the kind is told; but a fault of the kind comes
    // before one of the header.
    match header(octets, at, end) {
        Ok(header) => {
            let kind = member_kind(&octets[at..end], at)?;
            let written = check_contents::<NOTES>(octets, &header, kind, depth - 1)?;
            Ok((
                header.contents_to,
                NOTES & has_short_length(&header) & written,
            ))
        }
        Err(fault) => {
            let _kind = member_kind(&octets[at..end], at)?;
            Err(fault)
        }
    }
}

// The contents behind the header have to be those of a value of the kind: whether they are known to be its written ones.
#[inline(always)]
#[cycle(checking)]
fn check_contents<const NOTES: bool>(
    octets: &[u8],
    header: &Header,
    kind: Kind,
    depth: u8,
) -> Result<bool, Fault>
    requires begins { header.now.at < header.now.contents_from }
    requires order { header.now.contents_from ≤ header.now.contents_to }
    requires inside { header.now.contents_to ≤ length octets.now }
    ensures exact { less (λ _. tt {0}) result ≡ less (λ _. tt {0}) (contents_at (members_at depth) kind header.now (slice_range octets.now header.now.contents_from header.now.contents_to)) }
    ensures written { IfOk result (λ w. w ≡ true → (d : Data) → contents_at (members_at depth) kind header.now (slice_range octets.now header.now.contents_from header.now.contents_to) ≡ Ok d
        → slice_range octets.now header.now.contents_from header.now.contents_to ≡ written_contents d) }
{
    let (from, to) = (header.contents_from, header.contents_to);
    match kind {
        Kind::Array | Kind::Structure => {
            let (_count, written) = count_members::<NOTES>(octets, from, to, depth)?;
            Ok(written)
        }
        Kind::Simple(kind) => {
            let contents = &octets[from..to];
            let _view = simple(kind, contents, header.at, from)?;
            Ok(NOTES & is_simple_written(kind, contents))
        }
    }
}
