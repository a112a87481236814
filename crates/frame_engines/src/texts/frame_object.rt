//! The object of a frame, from the octets in which it stands.
ghost use Rattle.std.specs.Prelude.{◌≡◌, ◌+◌, ◌≤◌, ◌∷◌, [], ◌++◌, length, codes};
ghost use Rattle.std.specs.List.{concat};
ghost use Rattle.std.specs.Fmt.{decimal};
ghost use Rattle.pdu_core.specs.Views.{pdu_of};
ghost use Rattle.frame_core.specs.FrameViews.{apdu_of, frame_of};
ghost use Rattle.text_core.specs.Pieces.{AppendsText, boolean_text};
ghost use Rattle.object_core.specs.EventObject.{event_fields};
ghost use Rattle.object_core.specs.Objects.{AppendsSome, opened};
ghost use Rattle.frame_engines.specs.FrameObject.{IsFrameObject, apdu_kind, envelope_fields, tag_value, trailer_value};
ghost use Rattle.frame_engines.specs.computed.ObjectFields.{AreApduTexts, AreGooseTexts, next_fields};

use crate::texts::sampled_object::put_sampled_fields;
use frame_core::{ApduView, FrameView, VlanTag};
use object_core::Counted;
use object_core::event::put_event_head;
use object_core::members::put_members_object;
use object_core::times::put_time_fields;
use pdu_core::GooseView;
use std::alloc::{AllocError, Allocator};
use text_core::fields::{put_number, put_octets, put_text, put_text_or};
use text_core::short::ShortText;

// Puts the control of a tag in front, or null.
#[inline(always)]
fn prepend_tag_value(text: &mut ShortText, tag: Option<VlanTag>)
    requires { length text.old + 6 ≤ 160 }
    ensures text { text.new ≡ tag_value tag ++ text.old }
    ensures size { length text.new ≤ length text.old + 6 }
{
    match tag {
        Some(tag) => {
            text.put(b"\"");
            text.put_four_digits(tag.control);
            text.put(b"\"");
        }
        None => text.put(b"null"),
    }
}

// Appends the fields of the envelope.
#[inline(always)]
pub(crate) fn put_envelope_fields<A: Allocator>(
    out: &mut Vec<u8, A>,
    frame: &FrameView<'_>,
) -> Result<(), AllocError>
    ensures { AppendsText result out.old.items out.new.items (next_fields (envelope_fields (frame_of {A = Unit {0}} frame.now))) }
{
    let mut text = ShortText::new();
    text.put(b"\"");
    text.put_four_digits(frame.reserved2);
    text.put(b"\",\"reserved2\":\"");
    text.put_four_digits(frame.reserved1);
    text.put(b"\",\"reserved1\":\"");
    text.put_four_digits(frame.app_id);
    text.put(b",\"appid\":\"");
    prepend_tag_value(&mut text, frame.tag);
    text.put(b"\",\"tag\":");
    text.put_hexadecimal(&frame.source);
    text.put(b"\",\"source\":\"");
    text.put_hexadecimal(&frame.destination);
    text.put(b",\"destination\":\"");
    text.append_to(out)
}

// Appends the fields of a GOOSE APDU from its status number up to ndsCom, and the name of its members.
fn put_goose_state_fields<A: Allocator>(
    out: &mut Vec<u8, A>,
    goose: &GooseView<'_>,
) -> Result<(), AllocError>
    ensures { AppendsText result out.old.items out.new.items (concat ((codes ",\"stNum\":" ++ decimal goose.now.st_num) ∷ (codes ",\"sqNum\":" ++ decimal goose.now.sq_num)
        ∷ (codes ",\"simulation\":" ++ boolean_text goose.now.simulation) ∷ (codes ",\"confRev\":" ++ decimal goose.now.conf_rev)
        ∷ (codes ",\"ndsCom\":" ++ boolean_text goose.now.nds_com) ∷ codes ",\"members\":" ∷ [])) }
{
    let mut text = ShortText::new();
    text.put(b",\"members\":");
    text.put_boolean(goose.nds_com);
    text.put(b",\"ndsCom\":");
    text.put_decimal(goose.conf_rev as u64);
    text.put(b",\"confRev\":");
    text.put_boolean(goose.simulation);
    text.put(b",\"simulation\":");
    text.put_decimal(goose.sq_num as u64);
    text.put(b",\"sqNum\":");
    text.put_decimal(goose.st_num as u64);
    text.put(b",\"stNum\":");
    text.append_to(out)
}

// Appends the fields of a GOOSE APDU.
fn put_goose_fields<A: Allocator>(
    out: &mut Vec<u8, A>,
    goose: &GooseView<'_>,
) -> Result<(), AllocError>
    ensures { AppendsSome result out.old.items out.new.items (AreGooseTexts (pdu_of {A = Unit {0}} goose.now)) }
{
    put_text(out, b",\"gocbRef\":", goose.gocb_ref)?;
    put_number(out, b",\"timeAllowedtoLive\":", goose.live)?;
    put_text(out, b",\"datSet\":", goose.dat_set)?;
    put_text_or(out, b",\"goID\":", goose.go_id, b"null")?;
    put_time_fields(out, b",\"t\":", b",\"tTime\":", b",\"tQuality\":", goose.t)?;
    put_goose_state_fields(out, goose)?;
    put_members_object(out, goose.members)
}

// Appends the fields of the APDU.
fn put_apdu_fields<A: Allocator>(
    out: &mut Vec<u8, A>,
    apdu: &ApduView<'_>,
) -> Result<(), AllocError>
    ensures { AppendsSome result out.old.items out.new.items (AreApduTexts (apdu_of {A = Unit {0}} apdu.now)) }
{
    match apdu {
        ApduView::Goose(goose) => put_goose_fields(out, goose),
        ApduView::Sampled(sampled) => put_sampled_fields(out, sampled),
    }
}

// Appends what the object of a frame begins with.
#[inline(always)]
fn put_frame_object_head<A: Allocator>(
    out: &mut Vec<u8, A>,
    counted: Counted,
    number: u64,
    moment: u64,
    apdu: &ApduView<'_>,
) -> Result<(), AllocError>
    ensures { AppendsText result out.old.items out.new.items (opened (event_fields counted number moment (apdu_kind (apdu_of {A = Unit {0}} apdu.now)))) }
{
    match apdu {
        ApduView::Goose(_) => put_event_head(out, counted, number, moment, b"goose"),
        ApduView::Sampled(_) => put_event_head(out, counted, number, moment, b"sv"),
    }
}

// Appends the octets behind the APDU, and the end of the object and of its line.
#[inline(always)]
pub(crate) fn put_frame_object_end<A: Allocator>(
    out: &mut Vec<u8, A>,
    trailer: &[u8],
) -> Result<(), AllocError>
    ensures { AppendsText result out.old.items out.new.items (codes ",\"trailer\":" ++ trailer_value trailer.now ++ codes "}\n") }
{
    match trailer {
        [] => out.extend_from_slice(b",\"trailer\":null}\n"),
        octets => {
            put_octets(out, b",\"trailer\":\"", octets)?;
            out.extend_from_slice(b"\"}\n")
        }
    }
}

/// Appends the object of a frame, with its number and its moment in microseconds, as a line. Never inlined, so that lines of
/// text keep their registers.
#[inline(never)]
pub fn put_frame_object<A: Allocator>(
    out: &mut Vec<u8, A>,
    counted: Counted,
    number: u64,
    moment: u64,
    frame: &FrameView<'_>,
) -> Result<(), AllocError>
    ensures { AppendsSome result out.old.items out.new.items (IsFrameObject counted number moment (frame_of {A = Unit {0}} frame.now)) }
{
    put_frame_object_head(out, counted, number, moment, &frame.apdu)?;
    put_envelope_fields(out, frame)?;
    put_apdu_fields(out, &frame.apdu)?;
    put_frame_object_end(out, frame.trailer)
}
