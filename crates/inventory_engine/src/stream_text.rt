//! The text that tells how a stream is configured.

ghost use Rattle.std.specs.Prelude.{◌≡◌};
ghost use Rattle.std.specs.List.{concat, flat_map};
ghost use Rattle.std.specs.Str.{bytes_eq};
ghost use Rattle.text_core.specs.Afters.{IsAfter};
ghost use Rattle.inventory_engine.specs.computed.PieceText.{piece_text};
ghost use Rattle.inventory_engine.specs.Sightings.{stream_parts};

use crate::pieces::{Piece, after_decimal};
use text_core::following::{after, after_quoted};

/// The text of a stream.
pub fn stream_pieces<'a>(conf_rev: u32, sv_id: &'a [u8]) -> [Piece<'a>; 4]
    ensures { flat_map piece_text result ≡ concat (stream_parts conf_rev sv_id.now) }
{
    [
        Piece::Octets(b"id="),
        Piece::Quoted(sv_id),
        Piece::Octets(b" rev="),
        Piece::Decimal(u64::from(conf_rev)),
    ]
}

// What follows the text of a stream.
fn after_stream<'a>(text: &'a [u8], conf_rev: u32, sv_id: &[u8]) -> Option<&'a [u8]>
    ensures { IsAfter text.now (concat (stream_parts conf_rev sv_id.now)) result }
{
    let id = after(text, b"id=")?;
    let behind_id = after_quoted(id, sv_id)?;
    let rev = after(behind_id, b" rev=")?;
    after_decimal(rev, u64::from(conf_rev))
}

/// Whether a text is that of a stream with this confRev and svID. It is compared field by field, as that of a block.
pub fn is_stream_text(text: &[u8], conf_rev: u32, sv_id: &[u8]) -> bool
    ensures { result ≡ bytes_eq text.now (concat (stream_parts conf_rev sv_id.now)) }
{
    match after_stream(text, conf_rev, sv_id) {
        Some(rest) => rest.is_empty(),
        None => false,
    }
}
