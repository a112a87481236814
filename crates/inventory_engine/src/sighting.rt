//! The lines of sightings.

ghost use Rattle.std.specs.Prelude.{◌≡◌, ◌∷◌, ◌++◌, ℕ, List, [], IfOk, OnErr, OnOk, Some, length, take};
ghost use Rattle.std.specs.List.{flat_map};
ghost use Rattle.std.specs.Fmt.{decimal};
ghost use Rattle.pdu_core.specs.SampledViews.{asdu_of, asdus_left};
ghost use Rattle.pdu_core.specs.Views.{pdu_of};
ghost use Rattle.list_core.specs.declared.event.EventKind.{EventKind as SpecKind};
ghost use Rattle.text_core.specs.Pieces.{AppendsText};
ghost use Rattle.object_core.specs.Onward.{onward};
ghost use Rattle.inventory_engine.specs.Configuration.{configuration_of};
ghost use Rattle.inventory_engine.specs.SightingObject.{block_fields, name_fields, sighting_object, stream_fields};
ghost use Rattle.inventory_engine.specs.computed.ShownFields.{configuration_shown, shown_fields, sighting_by};
ghost use Rattle.inventory_engine.specs.computed.PieceText.{piece_text};
ghost use Rattle.inventory_engine.specs.Sightings.{block_sighting, sightings_of, stream_by, stream_sighting, stream_sightings};
ghost use Rattle.inventory_engine.specs.BlocksText.{changed_kind, first_kind, sighting_line, spaced_word, told_by};
ghost use Rattle.inventory_engine.specs.computed.BlocksStep.{AppendsLines, HasLines, telling_at};
ghost use Rattle.inventory_engine.specs.computed.KnownTexts.{by_key};
ghost use Rattle.known_core.specs.computed.Held.{AnswersPlace};

use crate::block_text::{
    ShownBlock, block_pieces, block_shown, has_fields, is_block_text, named_pieces,
};
use crate::inventory::{Inventory, Sought, set_text};
use crate::kept_block::{KeptBlock, keep_block};
use crate::known::Known;
use crate::pieces::{Piece, is_text, put_pieces, put_quoted_pieces, text_size};
use crate::stream_text::{is_stream_text, stream_pieces};
use frame_core::ApduView;
use known_core::Place;
use list_core::EventKind;
use object_core::event::put_event_head;
use object_core::fields::put_field_octets;
use object_core::{Counted, Form, Heading};
use pdu_core::{AsduView, GooseView, SvView};
use repeat_core::FrameMemory;
use std::alloc::{AllocError, Allocator};
use text_core::fields::{put_number, put_text, put_text_or};
use text_core::pieces::put_decimal;

// The kind of a control block or a stream that was not seen before.
fn first(app_id: Option<u16>) -> &'static [u8]
    ensures { result.now ≡ first_kind app_id }
{
    match app_id {
        Some(_) => b"block",
        None => b"stream",
    }
}

// The kind of one whose configuration changes.
fn changed(app_id: Option<u16>) -> &'static [u8]
    ensures { result.now ≡ changed_kind app_id }
{
    match app_id {
        Some(_) => b"block-changed",
        None => b"stream-changed",
    }
}

// Appends the number of a line, and a kind between spaces.
fn put_start<A: Allocator>(
    line: &mut Vec<u8, A>,
    number: u64,
    kind: &[u8],
) -> Result<(), AllocError>
    ensures { AppendsText result line.old.items line.new.items (decimal number ++ spaced_word kind.now) }
{
    put_decimal(line, number)?;
    line.extend_from_slice(b" ")?;
    line.extend_from_slice(kind)?;
    line.extend_from_slice(b" ")
}

// Appends the line of a sighting of a kind, and gives the size of its text.
fn put_line<A: Allocator>(
    line: &mut Vec<u8, A>,
    number: u64,
    kind: &[u8],
    pieces: &[Piece<'_>],
) -> Result<usize, AllocError>
    ensures text { AppendsText result line.old.items line.new.items (sighting_line number (spaced_word kind.now) (flat_map piece_text pieces.now)) }
    ensures size { IfOk result (λ size. size ≡ length (flat_map piece_text pieces.now)) }
{
    put_start(line, number, kind)?;
    let start = line.len();
    put_pieces(line, pieces)?;
    let size = line.len().saturating_sub(start);
    line.extend_from_slice(b"\n")?;
    Ok(size)
}

/// What a sighting is of.
#[derive(Clone, Copy)]
pub enum Shown<'a> {
    /// A control block.
    Block(ShownBlock<'a>),
    /// The stream with this confRev and svID: not its ASDU, so that of this no more is read.
    Stream(u32, &'a [u8]),
}

// Appends the first fields of a control block, behind its text: its names.
fn put_names<A: Allocator>(line: &mut Vec<u8, A>, block: &ShownBlock<'_>) -> Result<(), AllocError>
    ensures { AppendsText result line.old.items line.new.items (onward (take 4 (name_fields (configuration_shown block.now)))) }
{
    let octets = [(block.app_id / 256) as u8, (block.app_id % 256) as u8];
    put_field_octets(line, b",\"appid\":", &octets)?;
    put_text(line, b",\"gocbRef\":", block.gocb_ref)?;
    put_text(line, b",\"datSet\":", block.dat_set)?;
    put_text_or(line, b",\"goID\":", block.go_id, b"null")
}

/// Appends the fields of a control block, behind its text.
pub fn put_name_fields<A: Allocator>(
    line: &mut Vec<u8, A>,
    block: &ShownBlock<'_>,
) -> Result<(), AllocError>
    ensures { AppendsText result line.old.items line.new.items (onward (name_fields (configuration_shown block.now))) }
{
    put_names(line, block)?;
    put_number(line, b",\"confRev\":", block.conf_rev)?;
    line.extend_from_slice(b",\"entries\":")?;
    put_decimal(line, block.entries as u64)
}

// Appends the fields of a control block, of which the text is of these pieces.
fn put_block_fields<A: Allocator>(
    line: &mut Vec<u8, A>,
    block: &ShownBlock<'_>,
    pieces: &[Piece<'_>],
) -> Result<(), AllocError>
    ensures { AppendsText result line.old.items line.new.items (onward (block_fields (flat_map piece_text pieces.now) (configuration_shown block.now))) }
{
    line.extend_from_slice(b",\"text\":")?;
    put_quoted_pieces(line, pieces)?;
    put_name_fields(line, block)
}

// Appends the fields of a stream.
fn put_stream_fields<A: Allocator>(
    line: &mut Vec<u8, A>,
    conf_rev: u32,
    sv_id: &[u8],
) -> Result<(), AllocError>
    ensures { AppendsText result line.old.items line.new.items (onward (stream_fields conf_rev sv_id.now)) }
{
    put_number(line, b",\"confRev\":", conf_rev)?;
    put_text(line, b",\"svID\":", sv_id)
}

// Appends the fields of what a sighting is of.
fn put_fields<A: Allocator>(
    line: &mut Vec<u8, A>,
    shown: Shown<'_>,
    pieces: &[Piece<'_>],
) -> Result<(), AllocError>
    ensures { AppendsText result line.old.items line.new.items (onward (shown_fields shown.entry (flat_map piece_text pieces.now))) }
{
    match shown {
        Shown::Block(block) => put_block_fields(line, &block, pieces),
        Shown::Stream(conf_rev, sv_id) => put_stream_fields(line, conf_rev, sv_id),
    }
}

// Appends the object of a sighting of a kind.
fn put_object_line<A: Allocator>(
    line: &mut Vec<u8, A>,
    counted: Counted,
    number: u64,
    moment: u64,
    kind: &[u8],
    shown: Shown<'_>,
    pieces: &[Piece<'_>],
) -> Result<(), AllocError>
    ensures { AppendsText result line.old.items line.new.items (sighting_object counted number moment kind.now (shown_fields shown.entry (flat_map piece_text pieces.now))) }
{
    put_event_head(line, counted, number, moment, kind)?;
    put_fields(line, shown, pieces)?;
    line.extend_from_slice(b"}\n")
}

// Appends the object of a sighting of a kind, and gives the size of its text.
fn put_object<A: Allocator>(
    line: &mut Vec<u8, A>,
    counted: Counted,
    number: u64,
    moment: u64,
    kind: &[u8],
    shown: Shown<'_>,
    pieces: &[Piece<'_>],
) -> Result<usize, AllocError>
    ensures text { AppendsText result line.old.items line.new.items (sighting_object counted number moment kind.now (shown_fields shown.entry (flat_map piece_text pieces.now))) }
    ensures size { IfOk result (λ size. size ≡ length (flat_map piece_text pieces.now)) }
{
    let size = text_size(line, pieces)?;
    put_object_line(line, counted, number, moment, kind, shown, pieces)?;
    Ok(size)
}

// Appends what is told of a sighting of a kind, and gives the size of its text. A call of its own, since nearly every frame
// shows what is known.
#[inline(never)]
fn put_told<A: Allocator>(
    line: &mut Vec<u8, A>,
    heading: Heading,
    kind: &[u8],
    shown: Shown<'_>,
    pieces: &[Piece<'_>],
) -> Result<usize, AllocError>
    ensures text { AppendsText result line.old.items line.new.items (told_by heading.form heading.number heading.moment kind.now (flat_map piece_text pieces.now) (shown_fields shown.entry (flat_map piece_text pieces.now))) }
    ensures size { IfOk result (λ size. size ≡ length (flat_map piece_text pieces.now)) }
{
    let Heading {
        form,
        number,
        moment,
    } = heading;
    match form {
        Form::Text => put_line(line, number, kind, pieces),
        Form::Object(counted) => put_object(line, counted, number, moment, kind, shown, pieces),
    }
}

// Appends what is written of a sighting, and keeps its text. It was looked for, and this is where it is or would be.
fn put_sighting<A: Allocator + Copy>(
    alloc: A,
    known: &mut Inventory<A>,
    found: Result<Place, Place>,
    line: &mut Vec<u8, A>,
    heading: Heading,
    app_id: Option<u16>,
    name: &[u8],
    pieces: &[Piece<'_>],
    shown: Shown<'_>,
) -> Result<(), AllocError>
    requires found { AnswersPlace (by_key (app_id, name.now)) known.old found }
    ensures written { OnOk result (AppendsLines (telling_at heading) (sighting_by app_id name.now shown.entry (flat_map piece_text pieces.now) ∷ []) known.old known.new line.old.items line.new.items) }
    ensures wants { OnErr result (HasLines (telling_at heading) (sighting_by app_id name.now shown.entry (flat_map piece_text pieces.now) ∷ []) known.old) }
    ensures kept { take (length line.old.items) line.new.items ≡ line.old.items }
{
    match found {
        Ok(place) => {
            if is_text(known.get(place).text(), pieces) {
                return Ok(());
            }
            let size = put_told(line, heading, changed(app_id), shown, pieces)?;
            set_text(alloc, known, place, pieces, size)
        }
        Err(place) => {
            let size = put_told(line, heading, first(app_id), shown, pieces)?;
            let one = Known::new(alloc, app_id, name, pieces, size)?;
            known.insert(alloc, place, one)
        }
    }
}

// Appends what is written of a control block that is not known as a frame shows it. A call of its own, since nearly every
// frame shows what is known: what a line is made of is put together here alone. It takes what is shown by value, so that of a
// frame whose block is known nothing has to stand in memory.
#[inline(never)]
fn put_other_block<A: Allocator + Copy>(
    alloc: A,
    known: &mut Inventory<A>,
    found: Result<Place, Place>,
    line: &mut Vec<u8, A>,
    heading: Heading,
    block: ShownBlock<'_>,
) -> Result<(), AllocError>
    requires found { AnswersPlace (by_key (Some block.app_id, block.gocb_ref.now)) known.old found }
    ensures written { OnOk result (AppendsLines (telling_at heading) (block_sighting (configuration_shown block.entry) ∷ []) known.old known.new line.old.items line.new.items) }
    ensures wants { OnErr result (HasLines (telling_at heading) (block_sighting (configuration_shown block.entry) ∷ []) known.old) }
    ensures kept { take (length line.old.items) line.new.items ≡ line.old.items }
{
    let app_id = Some(block.app_id);
    let name = block.gocb_ref;
    let shown = Shown::Block(block);
    if has_fields(&block) {
        let pieces = block_pieces(&block);
        put_sighting(
            alloc, known, found, line, heading, app_id, name, &pieces, shown,
        )
    } else {
        let pieces = named_pieces(&block);
        put_sighting(
            alloc, known, found, line, heading, app_id, name, &pieces, shown,
        )
    }
}

// Appends what is written of the control block of a frame.
fn put_block<A: Allocator + Copy>(
    alloc: A,
    known: &mut Inventory<A>,
    line: &mut Vec<u8, A>,
    heading: Heading,
    app_id: u16,
    goose: &GooseView<'_>,
) -> Result<(), AllocError>
    ensures written { OnOk result (AppendsLines (telling_at heading) (block_sighting (configuration_of app_id (pdu_of {A = Unit {0}} goose.now)) ∷ []) known.old known.new line.old.items line.new.items) }
    ensures wants { OnErr result (HasLines (telling_at heading) (block_sighting (configuration_of app_id (pdu_of {A = Unit {0}} goose.now)) ∷ []) known.old) }
    ensures kept { take (length line.old.items) line.new.items ≡ line.old.items }
{
    let found = known.place_of(&Sought {
        app_id: Some(app_id),
        name: goose.gocb_ref,
    });
    let block = block_shown(app_id, goose);
    match found {
        Ok(place) if is_block_text(known.get(place).text(), &block) => Ok(()),
        _ => put_other_block(alloc, known, found, line, heading, block),
    }
}

// Appends what is written of the stream of an ASDU that is not known as it shows it: a call of its own, as that of a block.
#[inline(never)]
fn put_other_stream<A: Allocator + Copy>(
    alloc: A,
    known: &mut Inventory<A>,
    found: Result<Place, Place>,
    line: &mut Vec<u8, A>,
    heading: Heading,
    conf_rev: u32,
    sv_id: &[u8],
) -> Result<(), AllocError>
    requires found { AnswersPlace (by_key (None, sv_id.now)) known.old found }
    ensures written { OnOk result (AppendsLines (telling_at heading) (stream_by conf_rev sv_id.now ∷ []) known.old known.new line.old.items line.new.items) }
    ensures wants { OnErr result (HasLines (telling_at heading) (stream_by conf_rev sv_id.now ∷ []) known.old) }
    ensures kept { take (length line.old.items) line.new.items ≡ line.old.items }
{
    let pieces = stream_pieces(conf_rev, sv_id);
    let shown = Shown::Stream(conf_rev, sv_id);
    put_sighting(
        alloc, known, found, line, heading, None, sv_id, &pieces, shown,
    )
}

// Appends what is written of the stream of an ASDU.
fn put_stream<A: Allocator + Copy>(
    alloc: A,
    known: &mut Inventory<A>,
    line: &mut Vec<u8, A>,
    heading: Heading,
    asdu: &AsduView<'_>,
) -> Result<(), AllocError>
    ensures written { OnOk result (AppendsLines (telling_at heading) (stream_sighting (asdu_of {A = Unit {0}} asdu.now) ∷ []) known.old known.new line.old.items line.new.items) }
    ensures wants { OnErr result (HasLines (telling_at heading) (stream_sighting (asdu_of {A = Unit {0}} asdu.now) ∷ []) known.old) }
    ensures kept { take (length line.old.items) line.new.items ≡ line.old.items }
{
    let found = known.place_of(&Sought {
        app_id: None,
        name: asdu.sv_id,
    });
    match found {
        Ok(place) if is_stream_text(known.get(place).text(), asdu.conf_rev, asdu.sv_id) => Ok(()),
        _ => put_other_stream(
            alloc,
            known,
            found,
            line,
            heading,
            asdu.conf_rev,
            asdu.sv_id,
        ),
    }
}

// Appends what is written of the streams of a frame's ASDUs.
fn put_streams<A: Allocator + Copy>(
    alloc: A,
    known: &mut Inventory<A>,
    line: &mut Vec<u8, A>,
    heading: Heading,
    sampled: &SvView<'_>,
) -> Result<(), AllocError>
    ensures written { OnOk result (AppendsLines (telling_at heading) (stream_sightings (asdus_left {A = Unit {0}} sampled.now.asdus)) known.old known.new line.old.items line.new.items) }
    ensures wants { OnErr result (HasLines (telling_at heading) (stream_sightings (asdus_left {A = Unit {0}} sampled.now.asdus)) known.old) }
    ensures kept { take (length line.old.items) line.new.items ≡ line.old.items }
{
    for asdu in sampled.asdus {
        put_stream(alloc, known, line, heading, &asdu)?;
    }
    Ok(())
}

/// Appends what is written of an event, whose frame is viewed through a memory of frames.
pub fn put_event<A: Allocator + Copy>(
    alloc: A,
    memory: &mut FrameMemory<A, KeptBlock<A>>,
    known: &mut Inventory<A>,
    line: &mut Vec<u8, A>,
    heading: Heading,
    kind: &EventKind<A>,
) -> Result<(), AllocError>
    ensures written { OnOk result (AppendsLines (telling_at heading) (sightings_of kind.now) known.old known.new line.old.items line.new.items) }
    ensures wants { OnErr result (HasLines (telling_at heading) (sightings_of kind.now) known.old) }
    ensures kept { take (length line.old.items) line.new.items ≡ line.old.items }
{
    let EventKind::Frame(octets) = kind else {
        return Ok(());
    };
    let octets = octets.as_slice();
    if let Some(again) = memory.alike(octets) {
        if let Some(kept) = again.beside {
            if kept.is_known(known) {
                return Ok(());
            }
        } else {
            keep_block(alloc, memory, known, octets);
        }
    }
    match memory.view(octets) {
        Err(_) => Ok(()),
        Ok(view) => match &view.apdu {
            ApduView::Goose(goose) => put_block(alloc, known, line, heading, view.app_id, goose),
            ApduView::Sampled(sampled) => put_streams(alloc, known, line, heading, sampled),
        },
    }
}
