//! Which growth an allocator refuses.

ghost use Rattle.std.specs.Prelude.{◌≡◌};

use std::cell::Cell;
use std::marker::Model;

/// Hands out memory from another allocator, and refuses every growth once a number of them was granted.
///
/// A growth is one call of `allocate`: a collection's first block, each larger one, and each smaller
/// one to which it shrinks. To give a block back is no growth, and is never refused.
/// It counts both. A `&` to it is an allocator that is `Copy`.
#[derive(Drop)]
pub struct RefusingAlloc<A> {
    inner: A,
    // How many growths are still granted; with `None` every one is.
    left: Cell<Option<usize>>,
    refused: Cell<bool>,
    granted: Cell<usize>,
    // How often the allocator behind was asked: once for each granted growth, and once for each block that is given back.
    asked: Cell<usize>,
}

// Its value is the allocator behind it.
impl<A> Model for RefusingAlloc<A> {
    ghost Value = { A };

    ghost view = { λ it. it.inner };
}

impl<A> RefusingAlloc<A> {
    /// Grants the growths before number `first_refused`, counted from 0, out of `inner`, and refuses that one
    /// and all after it, until `allow` or `refuse_from`.
    pub fn new(inner: A, first_refused: usize) -> RefusingAlloc<A>
        ensures { result ≡ inner }
    {
        RefusingAlloc {
            inner,
            left: Cell::new(Some(first_refused)),
            refused: Cell::new(false),
            granted: Cell::new(0),
            asked: Cell::new(0),
        }
    }

    /// Counts anew: grants the next growths up to number `first_refused`, counted from 0 at this call, and refuses
    /// that one and all after it, until `allow`. What was refused before is forgotten.
    pub fn refuse_from(&self, first_refused: usize) {
        self.left.set(Some(first_refused));
        self.refused.set(false);
    }

    /// Whether a growth was refused since it was made, or since `refuse_from` was last called.
    pub fn has_refused(&self) -> bool {
        self.refused.get()
    }

    /// From now on refuses no growth: each is asked of the allocator behind it, until `refuse_from`.
    pub fn allow(&self) {
        self.left.set(None);
    }

    /// How many growths were granted since it was made.
    pub fn growths(&self) -> usize {
        self.granted.get()
    }

    /// How many blocks are out: granted, and not given back.
    pub fn blocks_out(&self) -> usize {
        let given_back = self.asked.get().saturating_sub(self.granted.get());
        self.granted.get().saturating_sub(given_back)
    }

    // Counts one growth, and says whether it is granted.
    pub(crate) fn grants(&self) -> bool {
        match self.left.get() {
            None => {}
            Some(0) => {
                self.refused.set(true);
                return false;
            }
            Some(left) => self.left.set(Some(left - 1)),
        }
        self.granted.set(self.granted.get().saturating_add(1));
        true
    }

    // The allocator behind, which is asked once for each call of this.
    pub(crate) fn behind(&self) -> &A
        ensures { self.now ≡ result.now }
    {
        self.asked.set(self.asked.get().saturating_add(1));
        &self.inner
    }
}
