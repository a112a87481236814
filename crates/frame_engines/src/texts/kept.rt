//! What is kept of the line of a frame of GOOSE, so that its repetitions are written from it.
ghost use Rattle.std.specs.Prelude.{◌≡◌, ◌≤◌, ◌++◌, codes, false, length, true, IfOk, IfSome};
ghost use Rattle.std.specs.Fmt.{decimal};
ghost use Rattle.mms_data.specs.Meaning.{left};
ghost use Rattle.pdu_core.specs.Views.{pdu_of};
ghost use Rattle.frame_core.specs.FrameViews.{apdu_of, frame_of};
ghost use Rattle.frame_core.specs.declared.frame.Apdu.TheVariants as apdu;
ghost use Rattle.text_core.specs.Pieces.{AppendsText};
ghost use Rattle.object_core.specs.EventObject.{event_fields};
ghost use Rattle.object_core.specs.Objects.{AppendsSome, opened};
ghost use Rattle.frame_engines.specs.FrameObject.{IsFrameObject};
ghost use Rattle.frame_engines.specs.computed.KeptLine.{KeepsLine, with_live, with_numbers};
ghost use Rattle.frame_engines.specs.computed.KeptOnce.{kept_once};
ghost use Rattle.frame_engines.specs.computed.KeptPieces.{line_back, line_front, line_middle, object_back, object_front, object_middle, object_tail};
ghost use Rattle.frame_engines.specs.computed.SettledMembers.{are_settled};

use crate::texts::frame::{prepend_envelope_text, put_frame_end};
use crate::texts::frame_object::{put_envelope_fields, put_frame_object_end};
use crate::texts::settled::are_members_settled;
use frame_core::{ApduView, FrameView};
use object_core::Counted;
use object_core::event::put_event_head;
use object_core::fields::put_field_boolean;
use object_core::members::put_members_object;
use object_core::times::put_time_fields;
use pdu_core::GooseView;
use repeat_core::Beside;
use std::alloc::{AllocError, Allocator};
use text_core::fields::{put_number, put_text, put_text_or, put_time};
use text_core::pieces::put_decimal;
use text_core::short::ShortText;
use text_core::value::put_members_text;

/// The text of a frame's line, without the two numbers that change while a state is repeated: of a line of text what stands
/// behind the number of the line, of an object what stands behind its head, up to its members where a float stands in them.
#[derive(Drop)]
pub struct KeptLine<A: Allocator> {
    text: Vec<u8, A>,
    /// Where timeAllowedtoLive stands.
    live: usize,
    /// Where sqNum stands.
    sq_num: usize,
    /// The timeAllowedtoLive of the frame that was read, which its sender seldom changes.
    usual_live: u32,
    /// The text up to sqNum, with that at its place.
    with_usual: Vec<u8, A>,
    /// Whether it is of an object.
    pub in_object: bool,
    /// Whether that of an object goes on to its end.
    pub whole: bool,
    ghost ordered: { live ≤ sq_num },
    ghost inside: { sq_num ≤ length text.items },
    ghost usual: { with_usual.items ≡ with_live text.items live sq_num usual_live },
}

impl<A: Allocator> Beside for KeptLine<A> {
    ghost suits = { λ k f. KeepsLine k.in_object k.whole k.text.items k.live k.sq_num f };

    ghost suits_once = { λ k f. kept_once k.in_object k.whole k.text.items k.live k.sq_num f };
}

// Appends what stands in the line of a frame of GOOSE between the number of the line and timeAllowedtoLive.
fn put_line_front<A: Allocator>(
    out: &mut Vec<u8, A>,
    frame: &FrameView<'_>,
    goose: &GooseView<'_>,
) -> Result<(), AllocError>
    ensures { AppendsText result out.old.items out.new.items (line_front (frame_of {A = Unit {0}} frame.now) (pdu_of {A = Unit {0}} goose.now)) }
{
    let mut envelope = ShortText::new();
    prepend_envelope_text(&mut envelope, frame);
    out.extend_from_slice(b" goose ")?;
    envelope.append_to(out)?;
    put_text(out, b" ref=", goose.gocb_ref)?;
    out.extend_from_slice(b" live=")?;
    Ok(())
}

// Appends what stands there between timeAllowedtoLive and sqNum.
fn put_line_middle<A: Allocator>(
    out: &mut Vec<u8, A>,
    goose: &GooseView<'_>,
) -> Result<(), AllocError>
    ensures { AppendsText result out.old.items out.new.items (line_middle (pdu_of {A = Unit {0}} goose.now)) }
{
    put_text(out, b" set=", goose.dat_set)?;
    put_text_or(out, b" id=", goose.go_id, b"-")?;
    put_time(out, b" t=", goose.t)?;
    put_number(out, b" st=", goose.st_num)?;
    out.extend_from_slice(b" sq=")?;
    Ok(())
}

// Appends what stands there behind sqNum.
fn put_line_back<A: Allocator>(
    out: &mut Vec<u8, A>,
    frame: &FrameView<'_>,
    goose: &GooseView<'_>,
) -> Result<(), AllocError>
    ensures { AppendsText result out.old.items out.new.items (line_back (frame_of {A = Unit {0}} frame.now) (pdu_of {A = Unit {0}} goose.now)) }
{
    put_field_boolean(out, b" sim=", goose.simulation)?;
    put_number(out, b" rev=", goose.conf_rev)?;
    put_field_boolean(out, b" com=", goose.nds_com)?;
    out.extend_from_slice(b" ")?;
    put_members_text(out, goose.members)?;
    put_frame_end(out, frame.trailer)?;
    Ok(())
}

// Appends what stands in the object of a frame of GOOSE between its head and timeAllowedtoLive.
fn put_object_front<A: Allocator>(
    out: &mut Vec<u8, A>,
    frame: &FrameView<'_>,
    goose: &GooseView<'_>,
) -> Result<(), AllocError>
    ensures { AppendsText result out.old.items out.new.items (object_front (frame_of {A = Unit {0}} frame.now) (pdu_of {A = Unit {0}} goose.now)) }
{
    put_envelope_fields(out, frame)?;
    put_text(out, b",\"gocbRef\":", goose.gocb_ref)?;
    out.extend_from_slice(b",\"timeAllowedtoLive\":")?;
    Ok(())
}

// Appends what stands there between timeAllowedtoLive and sqNum.
fn put_object_middle<A: Allocator>(
    out: &mut Vec<u8, A>,
    goose: &GooseView<'_>,
) -> Result<(), AllocError>
    ensures { AppendsText result out.old.items out.new.items (object_middle (pdu_of {A = Unit {0}} goose.now)) }
{
    put_text(out, b",\"datSet\":", goose.dat_set)?;
    put_text_or(out, b",\"goID\":", goose.go_id, b"null")?;
    put_time_fields(out, b",\"t\":", b",\"tTime\":", b",\"tQuality\":", goose.t)?;
    put_number(out, b",\"stNum\":", goose.st_num)?;
    out.extend_from_slice(b",\"sqNum\":")?;
    Ok(())
}

// Appends what stands there between sqNum and the members.
fn put_object_back<A: Allocator>(
    out: &mut Vec<u8, A>,
    goose: &GooseView<'_>,
) -> Result<(), AllocError>
    ensures { AppendsText result out.old.items out.new.items (object_back (pdu_of {A = Unit {0}} goose.now)) }
{
    put_field_boolean(out, b",\"simulation\":", goose.simulation)?;
    put_number(out, b",\"confRev\":", goose.conf_rev)?;
    put_field_boolean(out, b",\"ndsCom\":", goose.nds_com)?;
    out.extend_from_slice(b",\"members\":")?;
    Ok(())
}

// Appends what stands there from the members on, where no float stands in these. Tells whether it did.
fn put_object_tail<A: Allocator>(
    out: &mut Vec<u8, A>,
    frame: &FrameView<'_>,
    goose: &GooseView<'_>,
) -> Result<bool, AllocError>
    ensures settled { IfOk result (λ whole. whole ≡ are_settled (left goose.now.members)) }
    ensures text { IfOk result (λ whole. out.new.items ≡ out.old.items ++ object_tail whole (frame_of {A = Unit {0}} frame.now) (pdu_of {A = Unit {0}} goose.now)) }
{
    if !are_members_settled(goose.members) {
        return Ok(false);
    }
    put_members_object(out, goose.members)?;
    put_frame_object_end(out, frame.trailer)?;
    Ok(true)
}

// The text up to sqNum, with this timeAllowedtoLive at its place.
fn usual_front<A: Allocator>(
    alloc: A,
    text: &[u8],
    live: usize,
    sq_num: usize,
    usual_live: u32,
) -> Result<Vec<u8, A>, AllocError>
    requires ordered { live ≤ sq_num }
    requires inside { sq_num ≤ length text.now }
    ensures { IfOk result (λ front. front.items ≡ with_live text.now live sq_num usual_live) }
{
    let mut front = Vec::new(alloc);
    front.extend_from_slice(&text[..live])?;
    put_decimal(&mut front, usual_live as u64)?;
    front.extend_from_slice(&text[live..sq_num])?;
    Ok(front)
}

// What is kept of the line of a frame of GOOSE.
fn kept_of_line<A: Allocator + Copy>(
    alloc: A,
    frame: &FrameView<'_>,
    goose: &GooseView<'_>,
) -> Result<KeptLine<A>, AllocError>
    requires { apdu_of {A = Unit {0}} frame.now.apdu ≡ apdu.Goose (pdu_of goose.now) }
    ensures { IfOk result (λ k. KeepsLine k.in_object k.whole k.text.items k.live k.sq_num (frame_of {A = Unit {0}} frame.now)) }
{
    let mut text = Vec::new(alloc);
    put_line_front(&mut text, frame, goose)?;
    let live = text.len();
    put_line_middle(&mut text, goose)?;
    let sq_num = text.len();
    put_line_back(&mut text, frame, goose)?;
    let with_usual = usual_front(alloc, text.as_slice(), live, sq_num, goose.live)?;
    Ok(KeptLine {
        text,
        live,
        sq_num,
        usual_live: goose.live,
        with_usual,
        in_object: false,
        whole: true,
    })
}

// What is kept of the object of a frame of GOOSE.
fn kept_of_object<A: Allocator + Copy>(
    alloc: A,
    frame: &FrameView<'_>,
    goose: &GooseView<'_>,
) -> Result<KeptLine<A>, AllocError>
    requires { apdu_of {A = Unit {0}} frame.now.apdu ≡ apdu.Goose (pdu_of goose.now) }
    ensures { IfOk result (λ k. KeepsLine k.in_object k.whole k.text.items k.live k.sq_num (frame_of {A = Unit {0}} frame.now)) }
{
    let mut text = Vec::new(alloc);
    put_object_front(&mut text, frame, goose)?;
    let live = text.len();
    put_object_middle(&mut text, goose)?;
    let sq_num = text.len();
    put_object_back(&mut text, goose)?;
    let whole = put_object_tail(&mut text, frame, goose)?;
    let with_usual = usual_front(alloc, text.as_slice(), live, sq_num, goose.live)?;
    Ok(KeptLine {
        text,
        live,
        sq_num,
        usual_live: goose.live,
        with_usual,
        in_object: true,
        whole,
    })
}

/// What is kept of the line of a frame, where it is one of GOOSE and there is memory for it.
#[cold]
#[inline(never)]
pub fn kept_line<A: Allocator + Copy>(
    alloc: A,
    in_object: bool,
    frame: &FrameView<'_>,
) -> Option<KeptLine<A>>
    ensures { IfSome result (λ k. KeepsLine k.in_object k.whole k.text.items k.live k.sq_num (frame_of {A = Unit {0}} frame.now)) }
{
    let ApduView::Goose(goose) = &frame.apdu else {
        return None;
    };
    if in_object {
        kept_of_object(alloc, frame, goose).ok()
    } else {
        kept_of_line(alloc, frame, goose).ok()
    }
}

// Appends the text that is kept up to sqNum, with this timeAllowedtoLive at its place.
#[inline(always)]
fn put_with_live<A: Allocator, B: Allocator>(
    out: &mut Vec<u8, A>,
    kept: &KeptLine<B>,
    live: u32,
) -> Result<(), AllocError>
    ensures { AppendsText result out.old.items out.new.items (with_live kept.now.text.items kept.now.live kept.now.sq_num live) }
{
    if live == kept.usual_live {
        return out.extend_from_slice(kept.with_usual.as_slice());
    }
    let text = kept.text.as_slice();
    out.extend_from_slice(&text[..kept.live])?;
    put_decimal(out, live as u64)?;
    out.extend_from_slice(&text[kept.live..kept.sq_num])?;
    Ok(())
}

// Appends the text that is kept, with these numbers at their places.
#[inline(always)]
fn put_with_numbers<A: Allocator, B: Allocator>(
    out: &mut Vec<u8, A>,
    kept: &KeptLine<B>,
    live: u32,
    sq_num: u32,
) -> Result<(), AllocError>
    ensures { AppendsText result out.old.items out.new.items (with_numbers kept.now.text.items kept.now.live kept.now.sq_num live sq_num) }
{
    put_with_live(out, kept, live)?;
    put_decimal(out, sq_num as u64)?;
    out.extend_from_slice(&kept.text[kept.sq_num..])?;
    Ok(())
}

/// Appends the line of a frame of GOOSE of which this is kept, with the number of the line, timeAllowedtoLive and sqNum.
#[inline(always)]
pub fn put_kept_line<A: Allocator, B: Allocator>(
    out: &mut Vec<u8, A>,
    number: u64,
    kept: &KeptLine<B>,
    live: u32,
    sq_num: u32,
) -> Result<(), AllocError>
    ensures { AppendsText result out.old.items out.new.items (decimal number ++ with_numbers kept.now.text.items kept.now.live kept.now.sq_num live sq_num) }
{
    put_decimal(out, number)?;
    put_with_numbers(out, kept, live, sq_num)?;
    Ok(())
}

/// Appends the object of a frame of GOOSE that is kept whole, as a line, with its number and its moment, timeAllowedtoLive and sqNum.
#[inline(always)]
pub(crate) fn put_whole_object<A: Allocator, B: Allocator>(
    out: &mut Vec<u8, A>,
    counted: Counted,
    number: u64,
    moment: u64,
    kept: &KeptLine<B>,
    live: u32,
    sq_num: u32,
) -> Result<(), AllocError>
    ensures { AppendsText result out.old.items out.new.items (opened (event_fields counted number moment (codes "goose")) ++ with_numbers kept.now.text.items kept.now.live kept.now.sq_num live sq_num) }
{
    put_event_head(out, counted, number, moment, b"goose")?;
    put_with_numbers(out, kept, live, sq_num)
}

/// Appends the object of a frame of GOOSE of which what stands before its members is kept, as a line: its members and its trailer are
/// written as they stand in the frame.
#[inline(always)]
pub fn put_kept_object<A: Allocator, B: Allocator>(
    out: &mut Vec<u8, A>,
    counted: Counted,
    number: u64,
    moment: u64,
    kept: &KeptLine<B>,
    frame: &FrameView<'_>,
    goose: &GooseView<'_>,
) -> Result<(), AllocError>
    requires goose { apdu_of {A = Unit {0}} frame.now.apdu ≡ apdu.Goose (pdu_of goose.now) }
    requires kept { KeepsLine {A = Unit {0}} true false kept.now.text.items kept.now.live kept.now.sq_num (frame_of frame.now) }
    ensures { AppendsSome result out.old.items out.new.items (IsFrameObject counted number moment (frame_of {A = Unit {0}} frame.now)) }
{
    put_event_head(out, counted, number, moment, b"goose")?;
    put_with_numbers(out, kept, goose.live, goose.sq_num)?;
    put_members_object(out, goose.members)?;
    put_frame_object_end(out, frame.trailer)
}
