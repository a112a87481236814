//! What to do about an input that ended a run, where the octets at the fault tell.

use crate::stop::Stop;
use capture_core::CaptureCause;
use list_core::{ItemFault, ListCause, cut_first};
use script_core::ScriptCause;

/// What to do about an input that ended a run.
#[derive(Clone, Copy, Debug)]
pub enum Advice {
    /// The input is compressed by gzip.
    Gzip,
    /// The input is compressed by xz.
    Xz,
    /// The input is compressed by zstd.
    Zstd,
    /// The input is compressed by bzip2.
    Bzip2,
    /// The input is a pcapng capture.
    Pcapng,
    /// The input is a libpcap capture, and the command reads something else.
    Capture,
    /// The input is a capture, and the command reads one where it is told to.
    AddCapture,
    /// The input is a list, and the command was told that it is a capture.
    LeaveCapture,
    /// The link type of the capture is this one, and not Ethernet.
    LinkType(u16),
    /// The input begins with the byte order mark of UTF-8.
    ByteOrderMark,
    /// The input begins with a byte order mark of UTF-16.
    Utf16,
    /// The line has a CR inside.
    CarriageReturns,
    /// The line of a list has a tab.
    Tabs,
    /// The line ends with a space.
    Blanks,
    /// The line is `V2`, and not the first.
    SecondVersion,
    /// The octets of a frame have something between them.
    Apart,
    /// The line is of a script, in a list.
    ScriptAsList,
    /// The line is of a list, in a script.
    ListAsScript,
    /// The line is not recognised, in a list.
    ListForms,
    /// The line is not recognised, in a script.
    ScriptForms,
    /// The capture has too many records.
    Split,
}

/// How many octets of a line are looked at: one more than a line may have.
const LOOKED_AT: usize = 4097;

// Whether the line of a frame has a time, and something between its octets.
fn is_apart(line: &[u8]) -> bool {
    let (mark, fields) = cut_first(line, b' ');
    let (time, octets) = cut_first(fields.unwrap_or(b""), b' ');
    let octets = octets.unwrap_or(b"");
    let is_time = !time.is_empty() && time.iter().all(|octet| octet.is_ascii_digit());
    mark == b"F".as_slice()
        && is_time
        && octets
            .first()
            .is_some_and(|octet| octet.is_ascii_hexdigit())
        && octets
            .iter()
            .any(|octet| matches!(*octet, b' ' | b':' | b'-'))
}

// Whether a line begins as that of an event does.
fn is_of_list(line: &[u8]) -> bool {
    line.starts_with(b"F ") || line.starts_with(b"C ") || line.starts_with(b"M ")
}

// What the octets of a line tell, of a list or of a script.
fn by_octets(is_list: bool, line: &[u8]) -> Option<Advice> {
    if line.contains(&b'\r') {
        return Some(Advice::CarriageReturns);
    }
    if is_list && line.contains(&b'\t') {
        return Some(Advice::Tabs);
    }
    if line.ends_with(b" ") {
        return Some(Advice::Blanks);
    }
    if line == b"V2".as_slice() {
        return Some(Advice::SecondVersion);
    }
    if is_list && is_apart(line) {
        return Some(Advice::Apart);
    }
    None
}

// What to do about a line of a list or of a script, which is not recognised or has another fault.
fn on_line(is_list: bool, is_unknown: bool, line: &[u8]) -> Option<Advice> {
    match by_octets(is_list, line) {
        Some(advice) => Some(advice),
        None if !is_unknown => None,
        None if is_list && line.starts_with(b"control,") => Some(Advice::ScriptAsList),
        None if is_list => Some(Advice::ListForms),
        None if is_of_list(line) => Some(Advice::ListAsScript),
        None => Some(Advice::ScriptForms),
    }
}

// What to do about a line that is too long, or one line too many.
fn on_length(cause: ListCause, line: &[u8]) -> Option<Advice> {
    match cause {
        ListCause::LineTooLong if line.contains(&b'\r') => Some(Advice::CarriageReturns),
        _ => None,
    }
}

// The line with which these octets begin, without its CR, or the front of one that is too long.
fn line_in(octets: &[u8]) -> &[u8] {
    let (line, _) = cut_first(octets, b'\n');
    let line = &line[..line.len().min(LOOKED_AT)];
    line.strip_suffix(b"\r").unwrap_or(line)
}

/// What to do about what stands where the input ended the run, if that tells. The octets are those that are held from the
/// start of its line on, or none.
pub fn advice_by_line(stop: &Stop, octets: &[u8]) -> Option<Advice> {
    let line = line_in(octets);
    match stop {
        Stop::List(fault) => match fault.cause {
            ListCause::LineTooLong | ListCause::ListTooLong => on_length(fault.cause, line),
            cause => on_line(true, cause == ListCause::LineForm, line),
        },
        Stop::Script(ItemFault::Lines(fault)) => on_length(fault.cause, line),
        Stop::Script(ItemFault::Line(_, cause)) => {
            on_line(false, *cause == ScriptCause::ScriptForm, line)
        }
        Stop::Capture(fault) if fault.cause == CaptureCause::TooManyRecords => Some(Advice::Split),
        Stop::Capture(_) | Stop::Packet(_) | Stop::SameBlockTwice(_) => None,
    }
}
