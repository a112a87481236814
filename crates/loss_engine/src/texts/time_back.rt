//! That time goes back at an event: a line, or an object.
ghost use Rattle.std.specs.Prelude.{Some};
ghost use Rattle.text_core.specs.Pieces.{AppendsText};
ghost use Rattle.loss_engine.specs.LossLine.{time_back_line};
ghost use Rattle.loss_engine.specs.LossObject.{time_back_object};
ghost use Rattle.loss_engine.specs.LossText.{back_lines};

use crate::texts::number::{Number, put_number, put_numbers};
use object_core::event::put_event_head;
use object_core::{Counted, Form, Heading};
use std::alloc::{AllocError, Allocator};
use text_core::pieces::put_decimal;

// Appends the line of a time that goes back by so many microseconds, behind the number of the event's line or packet.
fn put_back_line<A: Allocator>(out: &mut Vec<u8, A>, number: u64, by: u64) -> Result<(), AllocError>
    ensures { AppendsText result out.old.items out.new.items (time_back_line number by) }
{
    put_decimal(out, number)?;
    put_number(out, b" time-back by=", by)?;
    out.extend_from_slice(b"\n")
}

// Appends its object, as a line.
fn put_back_object<A: Allocator>(
    out: &mut Vec<u8, A>,
    counted: Counted,
    number: u64,
    moment: u64,
    by: u64,
) -> Result<(), AllocError>
    ensures { AppendsText result out.old.items out.new.items (time_back_object counted number moment by) }
{
    put_event_head(out, counted, number, moment, b"time-back")?;
    put_numbers(out, &[Number(b",\"by\":", by)])?;
    out.extend_from_slice(b"}\n")
}

/// Appends that time goes back at an event by so many microseconds, as a line or as an object. A call of its own, since hardly an
/// event does so.
#[inline(never)]
pub fn put_time_back<A: Allocator>(
    out: &mut Vec<u8, A>,
    heading: Heading,
    by: u64,
) -> Result<(), AllocError>
    ensures { AppendsText result out.old.items out.new.items (back_lines heading.form heading.number heading.moment (Some by)) }
{
    let Heading {
        form,
        number,
        moment,
    } = heading;
    match form {
        Form::Text => put_back_line(out, number, by),
        Form::Object(counted) => put_back_object(out, counted, number, moment, by),
    }
}
