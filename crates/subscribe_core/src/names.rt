//! The names of the blocks in order, by which a frame's block is found, and a block that is given twice.

ghost use Rattle.std.specs.Prelude.{◌≡◌, ◌<◌, ◌↔◌, [], List, IfOk, IfSome, IsOk, IsTrue, MatchOption, length};
ghost use Rattle.std.specs.List.{All};
ghost use Rattle.block_core.specs.declared.block.Block.{Block as SpecBlock};
ghost use Rattle.subscribe_core.specs.Apart.{AreApart, IsFirstTwice};
ghost use Rattle.subscribe_core.specs.computed.Names.{key_cmp, key_of, place_cmp, place_of, lesser_of, AreSorted, ArePlaced, IsLeastAgain, HasName, AreNamesOf};

use crate::guesses::Guesses;
use block_core::Block;
use mms_data::Octets;
use std::alloc::{AllocError, Allocator};
use std::cmp::Ordering;

/// A block's name and its position.
#[derive(Drop)]
pub struct Name<A: Allocator> {
    app_id: u16,
    gocb_ref: Octets<A>,
    position: usize,
}

// How a name stands to an APPID and a gocbRef.
fn compare<A: Allocator>(name: &Name<A>, app_id: u16, gocb_ref: &[u8]) -> Ordering
    ensures { result ≡ key_cmp (key_of name.now) (app_id, gocb_ref.now) }
{
    match name.app_id.cmp(&app_id) {
        Ordering::Equal => name.gocb_ref.as_slice().cmp(gocb_ref),
        other => other,
    }
}

// How two names stand: those of one APPID and gocbRef by their positions.
fn compare_places<A: Allocator>(a: &Name<A>, b: &Name<A>) -> Ordering
    ensures { result ≡ place_cmp (place_of a.now) (place_of b.now) }
{
    match compare(a, b.app_id, b.gocb_ref.as_slice()) {
        Ordering::Equal => a.position.cmp(&b.position),
        other => other,
    }
}

// The names as the blocks stand.
fn listed<A: Allocator + Copy>(alloc: A, blocks: &[Block<A>]) -> Result<Vec<Name<A>, A>, AllocError>
    ensures named { IfOk result (λ names. AreNamesOf names.items blocks.now) }
    ensures quiet { blocks.now ≡ [] → IsOk result }
{
    let mut names = Vec::new(alloc);
    for (position, block) in blocks.iter().enumerate() {
        names.push(Name {
            app_id: block.app_id,
            gocb_ref: block.gocb_ref.try_copy(alloc)?,
            position,
        })?;
    }
    Ok(names)
}

// The names of the blocks, in order. Those that are the same are in the order of their blocks.
pub(crate) fn sorted<A: Allocator + Copy>(
    alloc: A,
    blocks: &[Block<A>],
) -> Result<Vec<Name<A>, A>, AllocError>
    ensures order { IfOk result (λ names. AreSorted names.items) }
    ensures placed { IfOk result (λ names. ArePlaced names.items) }
    ensures named { IfOk result (λ names. AreNamesOf names.items blocks.now) }
    ensures quiet { blocks.now ≡ [] → IsOk result }
{
    let mut names = listed(alloc, blocks)?;
    names.sort_unstable_by(|a, b| compare_places(a, b));
    Ok(names)
}

// Whether two names are the same, the first for an earlier block.
fn is_again<A: Allocator>(a: &Name<A>, b: &Name<A>) -> bool
    ensures { IsTrue result ↔ (key_of a.now ≡ key_of b.now) × (a.now.position < b.now.position) }
{
    a.position < b.position
        && a.app_id == b.app_id
        && a.gocb_ref.as_slice() == b.gocb_ref.as_slice()
}

// The lesser of a position and one that may be there.
fn lesser(least: Option<usize>, at: usize) -> Option<usize>
    ensures { result ≡ lesser_of least at }
{
    match least {
        None => Some(at),
        Some(least) => Some(least.min(at)),
    }
}

// The least position of a name that stands behind the same name.
fn least_again<A: Allocator>(names: &[Name<A>]) -> Option<usize>
    ensures { IsLeastAgain names.now (length names.now) result }
{
    let mut least = None;
    for k in 1..names.len() {
        if is_again(&names[k - 1], &names[k]) {
            least = lesser(least, names[k].position);
        }
    }
    least
}

// The first block that has the name of an earlier one, by the names of all.
pub(crate) fn first_twice<A: Allocator>(names: &[Name<A>]) -> Option<usize>
    requires { ArePlaced names.now }
    ensures { (blocks : List (SpecBlock A)) → AreNamesOf names.now blocks → MatchOption result (AreApart blocks) (λ i. IsFirstTwice blocks i) }
{
    least_again(names)
}

// Whether a name has an APPID and a gocbRef.
#[inline(always)]
fn is_named<A: Allocator>(name: &Name<A>, app_id: u16, gocb_ref: &[u8]) -> bool
    ensures { IsTrue result ↔ (key_of name.now ≡ (app_id, gocb_ref.now)) }
{
    name.app_id == app_id && name.gocb_ref.as_slice() == gocb_ref
}

// The position of the block with this name, if the name stands at a place.
#[inline(always)]
fn position_at<A: Allocator>(
    names: &[Name<A>],
    place: usize,
    app_id: u16,
    gocb_ref: &[u8],
) -> Option<usize>
    ensures { IfSome result (HasName names.now (app_id, gocb_ref.now)) }
{
    let name = names.get(place)?;
    if is_named(name, app_id, gocb_ref) {
        Some(name.position)
    } else {
        None
    }
}

// The position of the block with this name. Where the name stands is guessed first.
#[inline(always)]
pub(crate) fn position_named<A: Allocator>(
    names: &[Name<A>],
    guesses: &mut Guesses,
    app_id: u16,
    gocb_ref: &[u8],
) -> Option<usize>
    requires { AreSorted names.now }
    ensures { MatchOption result
        (All (λ n. key_of n ≡ (app_id, gocb_ref.now) → ⊥) names.now)
        (HasName names.now (app_id, gocb_ref.now)) }
{
    if let Some(position) = position_at(names, guesses.place(app_id), app_id, gocb_ref) {
        return Some(position);
    }
    match names.binary_search_by(|name| compare(name, app_id, gocb_ref)) {
        Ok(i) => {
            guesses.note(app_id, i);
            Some(names[i].position)
        }
        Err(_) => None,
    }
}
