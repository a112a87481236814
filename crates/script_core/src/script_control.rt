//! The control line of a script, and the lines of its steps.
ghost use Rattle.std.specs.Prelude.{◌≡◌, true, option_map, IfOk, IfErr};
ghost use Rattle.list_core.specs.Cuts.{parts_after};
ghost use Rattle.block_core.specs.Commas.{number_by, octets_in, text_in, word_in};
ghost use Rattle.script_core.specs.computed.LineReading.{AnswersScriptLine};
ghost use Rattle.script_core.specs.computed.ControlLine.{block_of_line, control_keeps, control_of, control_said, control_with, numbers_in, numbers_with};
ghost use Rattle.script_core.specs.ScriptFields.{flag_in, tag_in};
ghost use Rattle.script_core.specs.computed.StepLine.{step_said_by, step_said};
ghost use Rattle.script_core.specs.computed.ControlView.{control_seen, view_keeps};

use crate::script::{ScriptCause, ScriptItem, ScriptPart};
use block_core::commas::{fields_of, number_by, text_in, word_in};
use frame_core::VlanTag;
use list_core::{ReadError, cut_first};
use mms_data::Octets;
use publish_core::{Control, MOST_STEPS, Step};
use std::alloc::{AllocError, Allocator};

/// The numbers of a control line: confRev, the count of entries, the two flags, and the first status number.
#[derive(Clone, Copy)]
pub struct ControlEnd {
    pub conf_rev: u32,
    pub entries: u32,
    pub simulation: bool,
    pub nds_com: bool,
    pub first: u32,
}

/// The fields of a control line where they stand.
#[derive(Clone, Copy)]
pub struct ControlView<'a> {
    pub destination: [u8; 6],
    pub source: [u8; 6],
    pub tag: Option<VlanTag>,
    pub app_id: u16,
    pub gocb_ref: &'a [u8],
    pub dat_set: &'a [u8],
    pub go_id: Option<&'a [u8]>,
    pub numbers: ControlEnd,
}

// An address by twelve hexadecimal digits.
fn address_of(digits: &[u8]) -> Option<[u8; 6]>
    ensures { result ≡ octets_in 6 digits.now }
{
    let mut octets = [0; 6];
    match hex::decode_to_slice(digits, &mut octets) {
        Ok(()) => Some(octets),
        Err(_) => None,
    }
}

// A tag by four hexadecimal digits, or none by an empty field.
fn tag_of(digits: &[u8]) -> Option<Option<VlanTag>>
    ensures { result ≡ tag_in digits.now }
{
    match digits {
        [] => Some(None),
        _ => match word_in(digits) {
            Some(control) => Some(Some(VlanTag { control })),
            None => None,
        },
    }
}

// A flag by the digit 0 or 1.
fn flag_in(digits: &[u8]) -> Option<bool>
    ensures { result ≡ flag_in digits.now }
{
    match digits {
        [b'0'] => Some(false),
        [b'1'] => Some(true),
        _ => None,
    }
}

// The numbers that five fields say.
fn numbers_of(
    conf_rev: &[u8],
    entries: &[u8],
    simulation: &[u8],
    nds_com: &[u8],
    first: &[u8],
) -> Option<ControlEnd>
    ensures { result ≡ numbers_with (number_by conf_rev.now) (number_by entries.now) (flag_in simulation.now) (flag_in nds_com.now) (number_by first.now) }
{
    let conf_rev = number_by(conf_rev)?;
    let entries = number_by(entries)?;
    let simulation = flag_in(simulation)?;
    let nds_com = flag_in(nds_com)?;
    let first = number_by(first)?;
    Some(ControlEnd {
        conf_rev,
        entries,
        simulation,
        nds_com,
        first,
    })
}

// The control block that twelve fields say, where they stand.
fn view_control_fields<'a>(
    destination: &[u8],
    source: &[u8],
    tag: &[u8],
    app_id: &[u8],
    gocb_ref: &'a [u8],
    dat_set: &'a [u8],
    go_id: &'a [u8],
    numbers: Option<ControlEnd>,
) -> Option<ControlView<'a>>
    ensures { option_map control_seen result ≡ control_with (octets_in 6 destination.now) (octets_in 6 source.now) (tag_in tag.now) (word_in app_id.now) (text_in gocb_ref.now) (text_in dat_set.now) (text_in go_id.now) numbers }
{
    let destination = address_of(destination)?;
    let source = address_of(source)?;
    let tag = tag_of(tag)?;
    let app_id = word_in(app_id)?;
    let gocb_ref = text_in(gocb_ref)?;
    let dat_set = text_in(dat_set)?;
    let go_id = text_in(go_id)?;
    let numbers = numbers?;
    Some(ControlView {
        destination,
        source,
        tag,
        app_id,
        gocb_ref,
        dat_set,
        go_id: if go_id.is_empty() { None } else { Some(go_id) },
        numbers,
    })
}

// The control block that a view stands for, in memory of its own.
fn owned<A: Allocator + Copy>(alloc: A, view: ControlView<'_>) -> Result<Control<A>, AllocError>
    ensures control { IfOk result (λ control. control ≡ block_of_line (control_seen view.entry)) }
    ensures keeps { IfErr result (λ _. view_keeps view.entry ≡ true) }
{
    let gocb_ref = Octets::try_from_slice(alloc, view.gocb_ref)?;
    let dat_set = Octets::try_from_slice(alloc, view.dat_set)?;
    let go_id = match view.go_id {
        Some(go_id) => Some(Octets::try_from_slice(alloc, go_id)?),
        None => None,
    };
    Ok(Control {
        destination: view.destination,
        source: view.source,
        tag: view.tag,
        app_id: view.app_id,
        gocb_ref,
        dat_set,
        go_id,
        conf_rev: view.numbers.conf_rev,
        entries: view.numbers.entries,
        simulation: view.numbers.simulation,
        nds_com: view.numbers.nds_com,
    })
}

// The numbers that the last fields of a control line say.
fn view_numbers(fields: Option<&[u8]>) -> Option<ControlEnd>
    ensures { result ≡ numbers_in (parts_after 44 fields.entry) }
{
    let fields = fields_of(fields?)?;
    match fields.as_slice() {
        [conf_rev, entries, simulation, nds_com, first] => {
            numbers_of(conf_rev, entries, simulation, nds_com, first)
        }
        _ => None,
    }
}

// The control block that the fields behind the name of the line say, where they stand.
#[tactic(auto, using(crate::proofs::ControlLemmas::by_numbers))]
fn view_control<'a>(fields: Option<&'a [u8]>) -> Option<ControlView<'a>>
    ensures { option_map control_seen result ≡ control_of (parts_after 44 fields.entry) }
{
    let (destination, fields) = cut_first(fields?, b',');
    let (source, fields) = cut_first(fields?, b',');
    let (tag, fields) = cut_first(fields?, b',');
    let (app_id, fields) = cut_first(fields?, b',');
    let (gocb_ref, fields) = cut_first(fields?, b',');
    let (dat_set, fields) = cut_first(fields?, b',');
    let (go_id, fields) = cut_first(fields?, b',');
    let numbers = view_numbers(fields);
    view_control_fields(
        destination,
        source,
        tag,
        app_id,
        gocb_ref,
        dat_set,
        go_id,
        numbers,
    )
}

/// The control line whose fields behind its name are these.
pub fn control_line<A: Allocator + Copy>(
    alloc: A,
    part: ScriptPart,
    fields: Option<&[u8]>,
) -> Result<(Option<ScriptItem<A>>, ScriptPart), ReadError<ScriptCause>>
    ensures { AnswersScriptLine result (control_said part (control_of (parts_after 44 fields.entry))) (control_keeps part (control_of (parts_after 44 fields.entry))) }
{
    let ScriptPart::Control = part else {
        return Err(ReadError::Fault(ScriptCause::ScriptForm));
    };
    let Some(view) = view_control(fields) else {
        return Err(ReadError::Fault(ScriptCause::ScriptForm));
    };
    let first = view.numbers.first;
    if first == 0 {
        return Err(ReadError::Fault(ScriptCause::FirstState));
    }
    match owned(alloc, view) {
        Ok(control) => Ok((
            Some(ScriptItem::Control(control, first)),
            ScriptPart::Steps(0),
        )),
        Err(error) => Err(ReadError::Memory(error)),
    }
}

// The step that the fields behind the name of the line say.
fn view_step(fields: Option<&[u8]>) -> Option<Step>
    ensures { result ≡ step_said_by (parts_after 44 fields.entry) }
{
    let fields = fields_of(fields?)?;
    match fields.as_slice() {
        [wait, live] => {
            let wait_ms = number_by(wait)?;
            let live_ms = number_by(live)?;
            Some(Step { wait_ms, live_ms })
        }
        _ => None,
    }
}

/// The line of a step whose fields behind its name are these.
pub fn step_line<A: Allocator>(
    part: ScriptPart,
    fields: Option<&[u8]>,
) -> Result<(Option<ScriptItem<A>>, ScriptPart), ScriptCause>
    ensures { result ≡ step_said part (step_said_by (parts_after 44 fields.entry)) }
{
    let ScriptPart::Steps(steps) = part else {
        return Err(ScriptCause::ScriptForm);
    };
    let Some(step) = view_step(fields) else {
        return Err(ScriptCause::ScriptForm);
    };
    if !(0 < step.wait_ms && step.wait_ms < step.live_ms) {
        return Err(ScriptCause::StepTimes);
    }
    if MOST_STEPS <= usize::from(steps) {
        return Err(ScriptCause::StepCount);
    }
    Ok((Some(ScriptItem::Step(step)), ScriptPart::Steps(steps + 1)))
}
