//! The line of a frame, from the octets in which it stands.
ghost use Rattle.std.specs.Prelude.{◌≡◌, ◌+◌, ◌≤◌, ◌∷◌, [], ◌++◌, length, codes};
ghost use Rattle.std.specs.List.{concat};
ghost use Rattle.std.specs.Fmt.{decimal};
ghost use Rattle.pdu_core.specs.Views.{pdu_of};
ghost use Rattle.frame_core.specs.FrameViews.{apdu_of, frame_of};
ghost use Rattle.text_core.specs.Pieces.{AppendsText, boolean_text};
ghost use Rattle.text_core.specs.ValueText.{time_text};
ghost use Rattle.frame_engines.specs.FrameText.{tag_text, trailer_text, envelope_text, goose_text, apdu_word, apdu_text, frame_line};

use crate::texts::sampled::put_sampled_text;
use frame_core::{ApduView, FrameView, VlanTag};
use pdu_core::GooseView;
use std::alloc::{AllocError, Allocator};
use text_core::fields::{put_number, put_octets, put_text, put_text_or};
use text_core::short::ShortText;
use text_core::value::put_members_text;

// Puts the control of a tag in front, or a dash.
#[inline(always)]
fn prepend_tag_text(text: &mut ShortText, tag: Option<VlanTag>)
    requires { length text.old + 4 ≤ 160 }
    ensures text { text.new ≡ tag_text tag ++ text.old }
    ensures size { length text.new ≤ length text.old + 4 }
{
    match tag {
        Some(tag) => text.put_four_digits(tag.control),
        None => text.put(b"-"),
    }
}

// Puts the word for the kind of APDU in front.
#[inline(always)]
fn prepend_apdu_word(text: &mut ShortText, apdu: &ApduView<'_>)
    requires { length text.old + 7 ≤ 160 }
    ensures text { text.new ≡ apdu_word (apdu_of {A = Unit {0}} apdu.now) ++ text.old }
    ensures size { length text.new ≤ length text.old + 7 }
{
    match apdu {
        ApduView::Goose(_) => text.put(b" goose "),
        ApduView::Sampled(_) => text.put(b" sv "),
    }
}

// Puts the envelope into a text of no octets, which stays where it is: to hand out one would copy it.
#[inline(always)]
pub(crate) fn prepend_envelope_text(text: &mut ShortText, frame: &FrameView<'_>)
    requires { text.old ≡ [] }
    ensures text { text.new ≡ envelope_text (frame_of {A = Unit {0}} frame.now) }
    ensures size { length text.new ≤ 100 }
{
    text.put_four_digits(frame.reserved2);
    text.put(b" r2=");
    text.put_four_digits(frame.reserved1);
    text.put(b" r1=");
    text.put_four_digits(frame.app_id);
    text.put(b" appid=");
    prepend_tag_text(text, frame.tag);
    text.put(b" tag=");
    text.put_hexadecimal(&frame.source);
    text.put(b" ");
    text.put_hexadecimal(&frame.destination);
}

// Appends what stands before the APDU: the number of the line, the kind of APDU, and the envelope.
fn put_frame_head<A: Allocator>(
    out: &mut Vec<u8, A>,
    number: u64,
    frame: &FrameView<'_>,
) -> Result<(), AllocError>
    ensures { AppendsText result out.old.items out.new.items
        (decimal number ++ (apdu_word (apdu_of {A = Unit {0}} frame.now.apdu) ++ envelope_text (frame_of {A = Unit {0}} frame.now))) }
{
    let mut text = ShortText::new();
    prepend_envelope_text(&mut text, frame);
    prepend_apdu_word(&mut text, &frame.apdu);
    text.put_decimal(number);
    text.append_to(out)
}

// Appends the fields of a GOOSE APDU from its time up to ndsCom, and the space before its members.
fn put_goose_state_text<A: Allocator>(
    out: &mut Vec<u8, A>,
    goose: &GooseView<'_>,
) -> Result<(), AllocError>
    ensures { AppendsText result out.old.items out.new.items (concat (codes " t=" ∷ time_text goose.now.t
        ∷ (codes " st=" ++ decimal goose.now.st_num) ∷ (codes " sq=" ++ decimal goose.now.sq_num)
        ∷ (codes " sim=" ++ boolean_text goose.now.simulation) ∷ (codes " rev=" ++ decimal goose.now.conf_rev)
        ∷ (codes " com=" ++ boolean_text goose.now.nds_com) ∷ codes " " ∷ [])) }
{
    let mut text = ShortText::new();
    text.put(b" ");
    text.put_boolean(goose.nds_com);
    text.put(b" com=");
    text.put_decimal(goose.conf_rev as u64);
    text.put(b" rev=");
    text.put_boolean(goose.simulation);
    text.put(b" sim=");
    text.put_decimal(goose.sq_num as u64);
    text.put(b" sq=");
    text.put_decimal(goose.st_num as u64);
    text.put(b" st=");
    text.put_utc(goose.t);
    text.put(b" t=");
    text.append_to(out)
}

// Appends the fields of a GOOSE APDU.
fn put_goose_text<A: Allocator>(
    out: &mut Vec<u8, A>,
    goose: &GooseView<'_>,
) -> Result<(), AllocError>
    ensures { AppendsText result out.old.items out.new.items (goose_text (pdu_of {A = Unit {0}} goose.now)) }
{
    put_text(out, b" ref=", goose.gocb_ref)?;
    put_number(out, b" live=", goose.live)?;
    put_text(out, b" set=", goose.dat_set)?;
    put_text_or(out, b" id=", goose.go_id, b"-")?;
    put_goose_state_text(out, goose)?;
    put_members_text(out, goose.members)
}

// Appends the APDU.
fn put_apdu_text<A: Allocator>(out: &mut Vec<u8, A>, apdu: &ApduView<'_>) -> Result<(), AllocError>
    ensures { AppendsText result out.old.items out.new.items (apdu_text (apdu_of {A = Unit {0}} apdu.now)) }
{
    match apdu {
        ApduView::Goose(goose) => put_goose_text(out, goose),
        ApduView::Sampled(sampled) => put_sampled_text(out, sampled),
    }
}

// Appends the octets behind the APDU, and the end of the line.
#[inline(always)]
pub(crate) fn put_frame_end<A: Allocator>(
    out: &mut Vec<u8, A>,
    trailer: &[u8],
) -> Result<(), AllocError>
    ensures { AppendsText result out.old.items out.new.items (codes " trailer=" ++ trailer_text trailer.now ++ codes "\n") }
{
    match trailer {
        [] => out.extend_from_slice(b" trailer=-\n"),
        octets => {
            put_octets(out, b" trailer=", octets)?;
            out.extend_from_slice(b"\n")
        }
    }
}

/// Appends the line of a frame.
pub fn put_frame_line<A: Allocator>(
    out: &mut Vec<u8, A>,
    number: u64,
    frame: &FrameView<'_>,
) -> Result<(), AllocError>
    ensures { AppendsText result out.old.items out.new.items (frame_line number (frame_of {A = Unit {0}} frame.now)) }
{
    put_frame_head(out, number, frame)?;
    put_apdu_text(out, &frame.apdu)?;
    put_frame_end(out, frame.trailer)
}
