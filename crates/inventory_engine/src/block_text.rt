//! The text that tells how a control block is configured.

ghost use Rattle.std.specs.Prelude.{◌≡◌, ◌++◌, codes};
ghost use Rattle.std.specs.List.{concat, flat_map};
ghost use Rattle.std.specs.Str.{bytes_eq};
ghost use Rattle.std.specs.Fmt.{decimal};
ghost use Rattle.pdu_core.specs.Views.{octets_if, pdu_of};
ghost use Rattle.text_core.specs.Afters.{IsAfter};
ghost use Rattle.text_core.specs.Pieces.{AppendsText};
ghost use Rattle.inventory_engine.specs.computed.PieceText.{piece_text};
ghost use Rattle.inventory_engine.specs.computed.ShownFields.{configuration_shown};
ghost use Rattle.inventory_engine.specs.Configuration.{configuration_of};
ghost use Rattle.inventory_engine.specs.Sightings.{block_parts, block_text, has_fields as fields_are, named_parts, text_or_none};

use crate::pieces::{Piece, after_decimal, after_digits, is_text, put_pieces};
use block_core::commas::is_field;
use pdu_core::GooseView;
use std::alloc::{AllocError, Allocator};
use text_core::following::{after, after_one};

/// What a frame says of its control block: not its view, so that of this no more is kept at hand.
#[derive(Clone, Copy)]
pub struct ShownBlock<'a> {
    /// The APPID.
    pub app_id: u16,
    /// The gocbRef.
    pub gocb_ref: &'a [u8],
    /// The datSet.
    pub dat_set: &'a [u8],
    /// The goID, which may be absent.
    pub go_id: Option<&'a [u8]>,
    /// The confRev.
    pub conf_rev: u32,
    /// How many members there are.
    pub entries: usize,
}

/// What a frame with this APPID and APDU says of its control block.
pub fn block_shown<'a>(app_id: u16, goose: &GooseView<'a>) -> ShownBlock<'a>
    ensures { configuration_shown result ≡ configuration_of app_id (pdu_of {A = Unit {0}} goose.now) }
{
    ShownBlock {
        app_id,
        gocb_ref: goose.gocb_ref,
        dat_set: goose.dat_set,
        go_id: goose.go_id,
        conf_rev: goose.conf_rev,
        entries: goose.entries,
    }
}

/// A text, which is empty where it is absent.
pub fn present(text: Option<&[u8]>) -> &[u8]
    ensures { result.now ≡ text_or_none (octets_if text.entry) }
{
    match text {
        Some(text) => text,
        None => b"",
    }
}

/// Whether the three texts of a control block can stand in a BLOCK.
pub fn has_fields(block: &ShownBlock<'_>) -> bool
    ensures { result ≡ fields_are (configuration_shown block.now) }
{
    is_field(block.gocb_ref) && is_field(block.dat_set) && is_field(present(block.go_id))
}

/// The text of a BLOCK.
pub fn block_pieces<'a>(block: &ShownBlock<'a>) -> [Piece<'a>; 11]
    ensures { flat_map piece_text result ≡ concat (block_parts (configuration_shown block.now)) }
{
    [
        Piece::Digits(block.app_id),
        Piece::Octet(b','),
        Piece::Octets(block.gocb_ref),
        Piece::Octet(b','),
        Piece::Octets(block.dat_set),
        Piece::Octet(b','),
        Piece::Octets(present(block.go_id)),
        Piece::Octet(b','),
        Piece::Decimal(u64::from(block.conf_rev)),
        Piece::Octet(b','),
        Piece::Decimal(block.entries as u64),
    ]
}

/// The same fields by their names.
pub fn named_pieces<'a>(block: &ShownBlock<'a>) -> [Piece<'a>; 12]
    ensures { flat_map piece_text result ≡ concat (named_parts (configuration_shown block.now)) }
{
    [
        Piece::Octets(b"appid="),
        Piece::Digits(block.app_id),
        Piece::Octets(b" ref="),
        Piece::Quoted(block.gocb_ref),
        Piece::Octets(b" set="),
        Piece::Quoted(block.dat_set),
        Piece::Octets(b" id="),
        Piece::Optional(block.go_id),
        Piece::Octets(b" rev="),
        Piece::Decimal(u64::from(block.conf_rev)),
        Piece::Octets(b" entries="),
        Piece::Decimal(block.entries as u64),
    ]
}

/// Appends the text of a control block.
pub fn put_block_text<A: Allocator>(
    out: &mut Vec<u8, A>,
    block: &ShownBlock<'_>,
) -> Result<(), AllocError>
    ensures { AppendsText result out.old.items out.new.items (block_text (configuration_shown block.now)) }
{
    if has_fields(block) {
        put_pieces(out, &block_pieces(block))
    } else {
        put_pieces(out, &named_pieces(block))
    }
}

// What follows a comma and a text.
fn after_field<'a>(text: &'a [u8], field: &[u8]) -> Option<&'a [u8]>
    ensures { IsAfter text.now (codes "," ++ field.now) result }
{
    let behind = after_one(text, b',')?;
    after(behind, field)
}

// What follows a comma and a number in decimal.
fn after_number(text: &[u8], number: u64) -> Option<&[u8]>
    ensures { IsAfter text.now (codes "," ++ decimal number) result }
{
    let behind = after_one(text, b',')?;
    after_decimal(behind, number)
}

// What follows the text of a BLOCK.
fn after_block<'a>(text: &'a [u8], block: &ShownBlock<'_>) -> Option<&'a [u8]>
    ensures { IsAfter text.now (concat (block_parts (configuration_shown block.now))) result }
{
    let behind_app_id = after_digits(text, block.app_id)?;
    let behind_ref = after_field(behind_app_id, block.gocb_ref)?;
    let behind_set = after_field(behind_ref, block.dat_set)?;
    let behind_go_id = after_field(behind_set, present(block.go_id))?;
    let behind_rev = after_number(behind_go_id, u64::from(block.conf_rev))?;
    after_number(behind_rev, block.entries as u64)
}

// Whether a text is that of a BLOCK. It is compared field by field, and no pieces are put together: nearly every frame shows
// what is known.
fn is_fields_text(text: &[u8], block: &ShownBlock<'_>) -> bool
    ensures { result ≡ bytes_eq text.now (concat (block_parts (configuration_shown block.now))) }
{
    match after_block(text, block) {
        Some(rest) => rest.is_empty(),
        None => false,
    }
}

// Whether a text is that of the fields by their names. It takes what is shown by value: few frames have such a text, and of
// all others nothing has to stand in memory.
#[inline(never)]
fn is_named_text(text: &[u8], block: ShownBlock<'_>) -> bool
    ensures { result ≡ bytes_eq text.now (concat (named_parts (configuration_shown block.entry))) }
{
    is_text(text, &named_pieces(&block))
}

/// Whether a text is that of the control block of a frame.
pub fn is_block_text(text: &[u8], block: &ShownBlock<'_>) -> bool
    ensures { result ≡ bytes_eq text.now (block_text (configuration_shown block.now)) }
{
    if has_fields(block) {
        is_fields_text(text, block)
    } else {
        is_named_text(text, *block)
    }
}
