//! The control blocks and streams that were seen, in order, each with the text that was written of it last.

ghost use Rattle.std.specs.Prelude.{◌≡◌, IfOk, true};
ghost use Rattle.std.specs.List.{flat_map};
ghost use Rattle.inventory_engine.specs.computed.KnownTexts.{key_cmp, known_key, known_name, known_text};
ghost use Rattle.inventory_engine.specs.computed.PieceText.{piece_text};

use crate::pieces::{Piece, put_pieces};
use ber_core::Octets;
use known_core::rank;
use std::alloc::{AllocError, Allocator};
use std::cmp::Ordering;

/// A control block by its APPID and its gocbRef, or a stream, which has no APPID, by its svID; and its text. The text stands
/// behind the name, in one piece of memory for both.
#[derive(Drop)]
pub struct Known<A: Allocator> {
    pub(crate) app_id: Option<u16>,
    octets: Octets<A>,
    text_at: usize,
}

impl<A: Allocator> Known<A> {
    /// One of this name, with the text of these pieces. Its memory is asked for at once where the text has this size.
    pub fn new(
        alloc: A,
        app_id: Option<u16>,
        name: &[u8],
        pieces: &[Piece<'_>],
        size: usize,
    ) -> Result<Known<A>, AllocError>
        ensures key { IfOk result (λ one. known_key one ≡ (app_id, name.now)) }
        ensures text { IfOk result (λ one. known_text one ≡ flat_map piece_text pieces.now) }
    {
        let text_at = name.len();
        let mut octets = Vec::with_capacity(alloc, text_at.saturating_add(size))?;
        octets.extend_from_slice(name)?;
        put_pieces(&mut octets, pieces)?;
        Ok(Known {
            app_id,
            octets: Octets::from(octets),
            text_at,
        })
    }

    /// The same one, with the text of these pieces.
    pub fn with_text(
        &self,
        alloc: A,
        pieces: &[Piece<'_>],
        size: usize,
    ) -> Result<Known<A>, AllocError>
        ensures key { IfOk result (λ one. known_key one ≡ known_key self.now) }
        ensures text { IfOk result (λ one. known_text one ≡ flat_map piece_text pieces.now) }
    {
        Known::new(alloc, self.app_id, self.name(), pieces, size)
    }

    // The gocbRef or the svID, and the text. The text never begins past the end, which the lesser of the two says.
    fn parts(&self) -> (&[u8], &[u8])
        ensures name { result.0.now ≡ known_name self.now }
        ensures text { result.1.now ≡ known_text self.now }
    {
        let octets = self.octets.as_slice();
        octets.split_at(self.text_at.min(octets.len()))
    }

    /// The gocbRef or the svID.
    pub fn name(&self) -> &[u8]
        ensures { result.now ≡ known_name self.now }
    {
        self.parts().0
    }

    /// Whether another is known to be the same one with the same text.
    #[inline(always)]
    pub fn is_same(&self, other: &Known<A>) -> bool
        ensures key { result ≡ true → known_key self.now ≡ known_key other.now }
        ensures text { result ≡ true → known_text self.now ≡ known_text other.now }
    {
        rank(self.app_id) == rank(other.app_id)
            && self.text_at == other.text_at
            && self.octets.as_slice() == other.octets.as_slice()
    }

    /// The text.
    pub fn text(&self) -> &[u8]
        ensures { result.now ≡ known_text self.now }
    {
        self.parts().1
    }
}

/// How one that is known stands to another: streams before control blocks, which stand by their APPIDs.
pub fn compare<A: Allocator>(known: &Known<A>, app_id: Option<u16>, name: &[u8]) -> Ordering
    ensures { result ≡ key_cmp (known_key known.now) (app_id, name.now) }
{
    match rank(known.app_id).cmp(&rank(app_id)) {
        Ordering::Equal => known.name().cmp(name),
        other => other,
    }
}
