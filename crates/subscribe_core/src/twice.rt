//! Blocks that are given twice, found without memory: each block is compared with those before it, n (n - 1) / 2 times for n
//! blocks. So are the first few; of more blocks their names in order tell it, and this serves only where memory was refused.

ghost use Rattle.std.specs.Prelude.{◌≡◌, ℕ, ◌*◌, ◌<◌, ◌≤◌, [], None, IsTrue, ◌↔◌, IfSome, MatchOption, length};
ghost use Rattle.subscribe_core.specs.Apart.{HasNameOf, IsTwice, IsFirstTwice};
ghost use Rattle.subscribe_core.specs.Faults.{IsFaultOf};

use crate::fault::SubscribeFault;
use block_core::Block;
use std::alloc::{AllocError, Allocator};

// Whether two blocks have one name.
fn have_one_name<A: Allocator>(a: &Block<A>, b: &Block<A>) -> bool
    ensures { IsTrue result ↔ HasNameOf a.now b.now }
{
    a.app_id == b.app_id && a.gocb_ref.as_slice() == b.gocb_ref.as_slice()
}

// Whether the block at `i` has the name of an earlier one.
fn is_twice<A: Allocator>(blocks: &[Block<A>], i: usize) -> bool
    requires { i < length blocks.now }
    ensures { IsTrue result ↔ IsTwice blocks.now i }
{
    let block = &blocks[i];
    for j in 0..i {
        if have_one_name(&blocks[j], block) {
            return true;
        }
    }
    false
}

// The first of so many blocks that has the name of an earlier one.
fn first_twice<A: Allocator>(blocks: &[Block<A>], count: usize) -> Option<usize>
    requires { count ≤ length blocks.now }
    ensures { MatchOption result ((i : ℕ) → i < count → ¬ IsTwice blocks.now i) (λ i. IsFirstTwice blocks.now i) }
{
    for i in 0..count {
        if is_twice(blocks, i) {
            return Some(i);
        }
    }
    None
}

// The first block that has the name of an earlier one, if it is among the first few: all of at most 64, and of more eight times
// the root of their count, all pairs of which take about as long as putting all names in order. So one that is given twice early
// is told before work grows with those behind it.
pub(crate) fn first_twice_of_few<A: Allocator>(blocks: &[Block<A>]) -> Option<usize>
    ensures found { IfSome result (λ i. IsFirstTwice blocks.now i) }
    ensures none { result ≡ None → (i : ℕ) → i < length blocks.now → i * i < 64 * length blocks.now → ¬ IsTwice blocks.now i }
{
    let count = blocks.len();
    let few = 8 * (count.isqrt() + 1);
    first_twice(blocks, count.min(few))
}

// Why there is no subscriber of these blocks where memory was refused: a block that is given twice comes first.
pub(crate) fn fault_of<A: Allocator>(blocks: &[Block<A>], refused: AllocError) -> SubscribeFault
    requires { blocks.now ≡ [] → ⊥ }
    ensures { IsFaultOf blocks.now result }
{
    match first_twice(blocks, blocks.len()) {
        Some(i) => SubscribeFault::SameBlockTwice(i),
        None => SubscribeFault::Memory(refused),
    }
}
