//! What is known, in the order of keys.

ghost use Rattle.std.specs.Prelude.{OnErr, OnOk};
ghost use Rattle.std.specs.List.{flat_map};
ghost use Rattle.known_core.specs.computed.Held.{HoldsSame, IsPlace};
ghost use Rattle.inventory_engine.specs.computed.KnownTexts.{WritesText, by_key};
ghost use Rattle.inventory_engine.specs.computed.PieceText.{piece_text};

use crate::known::{Known, compare};
use crate::pieces::Piece;
use known_core::{Place, Probe, Runs};
use std::alloc::{AllocError, Allocator};
use std::cmp::Ordering;

/// What is known of control blocks and streams, by their keys.
pub type Inventory<A> = Runs<Known<A>, A>;

/// The key of one that is looked for.
#[derive(Clone, Copy)]
pub struct Sought<'a> {
    /// Its APPID, or none for a stream.
    pub app_id: Option<u16>,
    /// Its gocbRef or svID.
    pub name: &'a [u8],
}

impl<A: Allocator> Probe<Known<A>> for Sought<'_> {
    ghost cmp = { λ sought. by_key (sought.app_id, sought.name.now) };

    #[inline(always)]
    fn compare(&self, one: &Known<A>) -> Ordering {
        compare(one, self.app_id, self.name)
    }
}

/// Gives the one at a place the text of these pieces, which has this size.
pub fn set_text<A: Allocator + Copy>(
    alloc: A,
    known: &mut Inventory<A>,
    place: Place,
    pieces: &[Piece<'_>],
    size: usize,
) -> Result<(), AllocError>
    requires { IsPlace known.old place }
    ensures written { OnOk result (WritesText known.old known.new place (flat_map piece_text pieces.now)) }
    ensures kept { OnErr result (HoldsSame known.old known.new) }
{
    let one = known.get(place).with_text(alloc, pieces, size)?;
    known.set(place, one);
    Ok(())
}
