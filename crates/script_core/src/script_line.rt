//! One line of a script: what it says.
ghost use Rattle.std.specs.Prelude.{◌≡◌, ◌≤◌, Some, IfSome, length};
ghost use Rattle.list_core.specs.Cuts.{parts_after};
ghost use Rattle.list_core.specs.EventLine.{moment_of};
ghost use Rattle.block_core.specs.Commas.{comma_fields};
ghost use Rattle.script_core.specs.computed.LineReading.{AnswersScriptLine, all_keep, all_said, part_keeps, fields_said, line_keeps, line_said};
ghost use Rattle.script_core.specs.computed.CallLine.{change_keeps, members_keep, octets_keep, change_said_by, change_said, poll_said, too_early};
ghost use Rattle.script_core.specs.ScriptFields.{all_octets_in, time_in};

use crate::script::{ScriptCause, ScriptItem, ScriptPart};
use crate::script_control::{control_line, step_line};
use block_core::commas::fields_of;
use byteorder::{BigEndian, ByteOrder};
use list_core::{MomentUnit, ReadError, cut_first, moment_in};
use mms_data::{ReadFault, UtcTime, ValueList, read_members};
use std::alloc::Allocator;

// Why no change or poll may stand here.
fn early(part: ScriptPart) -> Option<ScriptCause>
    ensures { result ≡ too_early part }
{
    match part {
        ScriptPart::Control => Some(ScriptCause::ScriptForm),
        ScriptPart::Steps(0) => Some(ScriptCause::StepCount),
        ScriptPart::Steps(_) => None,
        ScriptPart::Calls => None,
    }
}

// The poll whose fields behind its name are these.
pub fn poll_line<A: Allocator>(
    unit: MomentUnit,
    part: ScriptPart,
    fields: Option<&[u8]>,
) -> Result<(Option<ScriptItem<A>>, ScriptPart), ScriptCause>
    ensures { result ≡ poll_said unit part (parts_after 44 fields.entry) }
{
    let Some(fields) = fields else {
        return Err(ScriptCause::ScriptForm);
    };
    let Some(fields) = fields_of(fields) else {
        return Err(ScriptCause::ScriptForm);
    };
    let [moment] = fields.as_slice() else {
        return Err(ScriptCause::ScriptForm);
    };
    if let Some(cause) = early(part) {
        return Err(cause);
    }
    match moment_in(unit, moment) {
        Some(moment) => Ok((Some(ScriptItem::Poll(moment)), ScriptPart::Calls)),
        None => Err(ScriptCause::Moment),
    }
}

// A time of change by 16 hexadecimal digits.
fn time_in(digits: &[u8]) -> Option<UtcTime>
    ensures { result ≡ time_in digits.now }
{
    let mut octets = [0; 8];
    match hex::decode_to_slice(digits, &mut octets) {
        Ok(()) => Some(UtcTime {
            seconds: BigEndian::read_u32(&octets),
            fraction: BigEndian::read_u24(&octets[4..]),
            quality: octets[7],
        }),
        Err(_) => None,
    }
}

// The most octets of a change's members: a line has two digits for each, and at most 4,096 octets.
const MOST_OCTETS_OF_MEMBERS: usize = 2048;

// The values that octets spell, as a change at these moments.
fn values_in<A: Allocator + Copy>(
    alloc: A,
    moment: u64,
    t: UtcTime,
    octets: &[u8],
) -> Result<ScriptItem<A>, ReadError<ScriptCause>>
    ensures { AnswersScriptLine result (change_said_by (Some moment) (Some t) (Some octets.now)) (octets_keep octets.now) }
{
    match read_members(alloc, octets, 0, octets.len(), 1) {
        Ok(values) => Ok(ScriptItem::Change(moment, t, ValueList::from(values))),
        Err(ReadFault::Fault(fault)) => Err(ReadError::Fault(ScriptCause::Members(fault))),
        Err(ReadFault::Memory(error)) => Err(ReadError::Memory(error)),
    }
}

// The change of these three fields.
fn change_of_fields<A: Allocator + Copy>(
    alloc: A,
    unit: MomentUnit,
    moment: &[u8],
    t: &[u8],
    members: &[u8],
) -> Result<ScriptItem<A>, ReadError<ScriptCause>>
    requires { length members.now ≤ 4096 }
    ensures { AnswersScriptLine result (change_said_by (moment_of unit moment.now) (time_in t.now) (all_octets_in members.now)) (members_keep (moment_of unit moment.now) (time_in t.now) (all_octets_in members.now)) }
{
    let Some(moment) = moment_in(unit, moment) else {
        return Err(ReadError::Fault(ScriptCause::Moment));
    };
    let Some(t) = time_in(t) else {
        return Err(ReadError::Fault(ScriptCause::Hex));
    };
    let mut room = [0; MOST_OCTETS_OF_MEMBERS];
    let octets = &mut room[..members.len() / 2];
    match hex::decode_to_slice(members, octets) {
        Ok(()) => values_in(alloc, moment, t, octets),
        Err(_) => Err(ReadError::Fault(ScriptCause::Hex)),
    }
}

// The change whose fields behind its name are these.
pub fn change_line<A: Allocator + Copy>(
    alloc: A,
    unit: MomentUnit,
    part: ScriptPart,
    fields: Option<&[u8]>,
) -> Result<(Option<ScriptItem<A>>, ScriptPart), ReadError<ScriptCause>>
    requires { IfSome fields (λ fields. length fields.now ≤ 4096) }
    ensures { AnswersScriptLine result (change_said unit part (parts_after 44 fields.entry)) (change_keeps unit part (parts_after 44 fields.entry)) }
{
    let Some(fields) = fields else {
        return Err(ReadError::Fault(ScriptCause::ScriptForm));
    };
    let (moment, fields) = cut_first(fields, b',');
    let Some(fields) = fields else {
        return Err(ReadError::Fault(ScriptCause::ScriptForm));
    };
    let (t, fields) = cut_first(fields, b',');
    let Some(fields) = fields else {
        return Err(ReadError::Fault(ScriptCause::ScriptForm));
    };
    let (members, more) = cut_first(fields, b',');
    if more.is_some() {
        return Err(ReadError::Fault(ScriptCause::ScriptForm));
    }
    if let Some(cause) = early(part) {
        return Err(ReadError::Fault(cause));
    }
    match change_of_fields(alloc, unit, moment, t, members) {
        Ok(change) => Ok((Some(change), ScriptPart::Calls)),
        Err(error) => Err(error),
    }
}

// What the fields of a line say, of which the first is its name.
fn fields_in<A: Allocator + Copy>(
    alloc: A,
    unit: MomentUnit,
    part: ScriptPart,
    name: &[u8],
    fields: Option<&[u8]>,
) -> Result<(Option<ScriptItem<A>>, ScriptPart), ReadError<ScriptCause>>
    requires { IfSome fields (λ fields. length fields.now ≤ 4096) }
    ensures { AnswersScriptLine result (fields_said unit part name.now (parts_after 44 fields.entry)) (part_keeps unit part name.now (parts_after 44 fields.entry)) }
{
    if name == b"control".as_slice() {
        control_line(alloc, part, fields)
    } else if name == b"step".as_slice() {
        match step_line(part, fields) {
            Ok(said) => Ok(said),
            Err(cause) => Err(ReadError::Fault(cause)),
        }
    } else if name == b"change".as_slice() {
        change_line(alloc, unit, part, fields)
    } else if name == b"poll".as_slice() {
        match poll_line(unit, part, fields) {
            Ok(said) => Ok(said),
            Err(cause) => Err(ReadError::Fault(cause)),
        }
    } else {
        Err(ReadError::Fault(ScriptCause::ScriptForm))
    }
}

// What the fields of a line say that has an octet.
fn all_in<A: Allocator + Copy>(
    alloc: A,
    unit: MomentUnit,
    part: ScriptPart,
    line: &[u8],
) -> Result<(Option<ScriptItem<A>>, ScriptPart), ReadError<ScriptCause>>
    requires { length line.now ≤ 4096 }
    ensures { AnswersScriptLine result (all_said unit part (comma_fields line.now)) (all_keep unit part (comma_fields line.now)) }
{
    let (name, fields) = cut_first(line, b',');
    fields_in(alloc, unit, part, name, fields)
}

/// What a line of at most 4,096 octets says, and which lines may stand behind it: nothing where it is empty or a comment.
pub fn line_in<A: Allocator + Copy>(
    alloc: A,
    unit: MomentUnit,
    part: ScriptPart,
    line: &[u8],
) -> Result<(Option<ScriptItem<A>>, ScriptPart), ReadError<ScriptCause>>
    requires { length line.now ≤ 4096 }
    ensures { AnswersScriptLine result (line_said unit part line.now) (line_keeps unit part line.now) }
{
    match line {
        [] | [b'#', ..] => Ok((None, part)),
        _ => all_in(alloc, unit, part, line),
    }
}
