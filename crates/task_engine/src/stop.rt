//! Why an input ended a run, as a sentence.

use capture_core::CaptureFault;
use exchange_engines::texts::names::script_cause_name;
use list_core::{ItemFault, ListFault};
use script_core::ScriptCause;
use std::{fmt, str};
use subscribe_core::SubscribeFault;
use text_core::names::{capture_cause_name, cause_name, list_cause_name};

/// Why an input, or the control blocks of a replay, ended a run.
#[derive(Drop)]
pub enum Stop {
    /// The list has this fault.
    List(ListFault),
    /// The script has this fault, or a line of it is refused.
    Script(ItemFault<ScriptCause>),
    /// The capture has this fault.
    Capture(CaptureFault),
    /// The capture that stands in place of a list has this fault.
    Packet(CaptureFault),
    /// The control block at this position, from 0, has the APPID and the gocbRef of an earlier one.
    SameBlockTwice(usize),
}

// The name of a cause as text.
fn text(name: &[u8]) -> &str {
    str::from_utf8(name).unwrap_or("")
}

// Writes the sentence on a fault of the lines of a list or a script.
fn write_lines<W: fmt::Write>(f: &mut fmt::Formatter<W>, fault: &ListFault) -> fmt::Result {
    let name = text(list_cause_name(fault.cause));
    write!(f, "line {}: {name}: {}", fault.line, fault.cause)
}

// Writes the sentence on a line of a script that is refused.
fn write_script<W: fmt::Write>(
    f: &mut fmt::Formatter<W>,
    line: u64,
    cause: ScriptCause,
) -> fmt::Result {
    let name = text(script_cause_name(cause));
    match cause {
        ScriptCause::Members(fault) => {
            let member = text(cause_name(fault.cause));
            write!(
                f,
                "line {line}: {name}: the members: {member} at offset {}",
                fault.place
            )
        }
        _ => write!(f, "line {line}: {name}: {cause}"),
    }
}

// Writes the sentence on a fault of a capture, whose packets have this name.
fn write_capture<W: fmt::Write>(
    f: &mut fmt::Formatter<W>,
    fault: &CaptureFault,
    packet: &str,
) -> fmt::Result {
    let name = text(capture_cause_name(fault.cause));
    match fault.number {
        0 => write!(f, "header: {name}: {}", fault.cause),
        number => write!(f, "{packet} {number}: {name}: {}", fault.cause),
    }
}

impl fmt::Display for Stop {
    fn fmt<W: fmt::Write>(&self, f: &mut fmt::Formatter<W>) -> fmt::Result {
        match self {
            Stop::List(fault) => write_lines(f, fault),
            Stop::Script(ItemFault::Lines(fault)) => write_lines(f, fault),
            Stop::Script(ItemFault::Line(line, cause)) => write_script(f, *line, *cause),
            Stop::Capture(fault) => write_capture(f, fault, "record"),
            Stop::Packet(fault) => write_capture(f, fault, "packet"),
            Stop::SameBlockTwice(position) => {
                write!(
                    f,
                    "SameBlockTwice: {}",
                    SubscribeFault::SameBlockTwice(*position)
                )
            }
        }
    }
}
