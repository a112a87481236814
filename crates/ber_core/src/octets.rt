//! Octets in memory of their own.

ghost use Rattle.std.specs.Prelude.{◌≡◌, [], IfOk, IsOk};

use std::alloc::{AllocError, Allocator};
use std::marker::Model;

/// Octets in memory of their own, made from a `Vec` and given back as one. A contract sees the list of them.
#[derive(Drop)]
pub struct Octets<A: Allocator> {
    octets: Vec<u8, A>,
}

impl<A: Allocator> Model for Octets<A> {
    ghost use Rattle.std.specs.Prelude.{List, ℕ};

    ghost Value = { List ℕ };

    ghost view = { λ o. o.octets.items };
}

impl<A: Allocator> Octets<A> {
    ghost use Rattle.std.specs.Prelude.{◌≡◌, [], IfOk, IsOk};

    /// The octets.
    pub fn as_slice(&self) -> &[u8]
        ensures { result.now ≡ self.now }
    {
        self.octets.as_slice()
    }

    /// The vector that holds the octets.
    pub fn into_vec(self) -> Vec<u8, A>
        ensures { result.items ≡ self }
    {
        let Octets { octets } = self;
        octets
    }

    /// The octets of a slice, in memory of their own.
    ///
    /// # Errors
    ///
    /// `AllocError` where memory is refused.
    pub fn try_from_slice(alloc: A, octets: &[u8]) -> Result<Octets<A>, AllocError>
        ensures value { IfOk result (λ o. o ≡ octets.now) }

        // No octets need no memory.
        ensures none { octets.now ≡ [] → IsOk result }
    {
        let mut copy = Vec::with_capacity(alloc, octets.len())?;
        copy.extend_from_slice(octets)?;
        Ok(Octets { octets: copy })
    }

    /// The same octets in further memory.
    ///
    /// # Errors
    ///
    /// `AllocError` where memory is refused.
    pub fn try_copy(&self, alloc: A) -> Result<Octets<A>, AllocError>
        ensures value { IfOk result (λ o. o ≡ self.now) }

        // No octets need no memory.
        ensures none { self.now ≡ [] → IsOk result }
    {
        Octets::try_from_slice(alloc, self.octets.as_slice())
    }
}

impl<A: Allocator> From<Vec<u8, A>> for Octets<A> {
    ghost use Rattle.std.specs.Prelude.{◌≡◌};

    ghost from_gives = { λ v o. o ≡ v.items };

    fn from(octets: Vec<u8, A>) -> Octets<A> {
        Octets { octets }
    }
}
