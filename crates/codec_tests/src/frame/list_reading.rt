//! Events, one at a time.

use crate::frame::sentences::says;
use list_core::{Event, FromRead, InputEnd, ListError, ListReader, Source, write_event};
use std::alloc::{Allocator, Global};
use std::process::Abort;
use test_support::{Endless, NEVER, sink_of, source_of};

/// Whether the event's line is this one.
pub fn is_listed_as<A: Allocator>(texts: Global, event: &Event<A>, line: &[u8]) -> bool {
    let mut sink = sink_of(texts, 4096, NEVER);
    write_event(&mut sink, event) == Ok(())
        && sink.octets.as_slice().strip_suffix(b"\n") == Some(line)
}

/// Whether the next answer is this one: an event's line, `end`, or what the fault says. None where the second allocator
/// refuses memory.
pub fn is_next<A: Allocator + Copy, R: Source>(
    texts: Global,
    alloc: A,
    list: &mut ListReader<R>,
    answer: &str,
) -> Option<bool> {
    match list.next(alloc) {
        Ok(Some(event)) => Some(is_listed_as(texts, &event, answer.as_bytes())),
        Ok(None) => Some(answer == "end"),
        Err(ListError::Fault(fault)) => Some(says(texts, fault, answer)),
        Err(ListError::Memory(_)) => None,
    }
}

/// Whether the list gives these answers, each beside its line's number.
fn tells<R: Source>(alloc: Global, list: &mut ListReader<R>, answers: &[(&str, u64)]) -> bool {
    for (answer, line) in answers {
        if is_next(alloc, alloc, list, answer) != Some(true) || list.line_number() != *line {
            return false;
        }
    }
    true
}

/// Whether the list of this text tells this first, in this line.
fn is_first(alloc: Global, text: &[u8], answer: &str, line: u64) -> bool {
    let mut list = ListReader::new(source_of(text, 4, NEVER));
    is_next(alloc, alloc, &mut list, answer) == Some(true) && list.line_number() == line
}

/// A list of each kind of event.
const LIST: &[u8; 54] = b"# first\nF 5 0AfF\r\n\nC 007\nF 999999999999999 00\nM 8 off\n";

/// What it tells.
const TOLD: [(&str, u64); 6] = [
    ("F 5000 0aff", 2),
    ("C 7000", 4),
    ("F 999999999999999000 00", 5),
    ("M 8000 off", 6),
    ("end", 6),
    ("end", 6),
];

#[test]
fn events_come_however_the_octets_are_cut(rt: HostRuntime) {
    for at_most in 1..=60usize {
        let mut list = ListReader::new(source_of(LIST, at_most, NEVER));
        assert!(rt;
            tells(rt.alloc(), &mut list, &TOLD),
            "{at_most} octets a read"
        );
        assert!(rt; list.into_reader().ending() == InputEnd::End);
    }
}

/// Whether a list of one line tells a frame whose line is the same.
fn is_told_as_it_stands(alloc: Global, line: &[u8]) -> bool {
    let mut list = ListReader::new(source_of(line, 4096, NEVER));
    match list.next(alloc) {
        Ok(Some(event)) => is_listed_as(alloc, &event, line),
        _ => false,
    }
}

#[test]
fn a_frame_of_each_size_is_told(rt: HostRuntime) {
    let mut line = [b'0'; 4004];
    line[..4].copy_from_slice(b"F 0 ");
    for size in 1..=2000usize {
        assert!(rt;
            is_told_as_it_stands(rt.alloc(), &line[..4 + 2 * size]),
            "{size} octets"
        );
    }
}

#[test]
fn a_first_line_may_say_the_unit(rt: HostRuntime) {
    for (text, answer, line) in [
        (b"V2".as_slice(), "end", 0u64),
        (b"V2\nC 7", "C 7", 2),
        (
            b"V2\r\nF 999999999999999999 00",
            "F 999999999999999999 00",
            2,
        ),
        (b"V2\nM 8 on\n", "M 8 on", 2),
        (b"# V2\nC 7\n", "C 7000", 2),
    ] {
        assert!(rt; is_first(rt.alloc(), text, answer, line), "{answer}");
    }
}

#[test]
fn each_line_fault_has_its_cause(rt: HostRuntime) {
    let form = "line 2: the line is neither an event, nor a comment, nor empty";
    let moment = "line 2: the time is not 1 to 15 decimal digits (1 to 18 after a first line V2)";
    let octets = "line 2: the octets are not an even count of 2 to 4000 hexadecimal digits";
    for (text, fault) in [
        (b"\nX".as_slice(), form),
        (b"V2\nV2", form),
        (b"\nV2", form),
        (b"\nC 1234567890123456", moment),
        (b"V2\nF x 0", moment),
        (b"\nF 0 0", octets),
        (b"V2\nF 0 0g", octets),
    ] {
        assert!(rt; is_first(rt.alloc(), text, fault, 2), "{fault}");
    }
}

#[test]
fn a_list_without_end_stops(rt: HostRuntime) {
    let lines = "line 1000001: the list has over 1000000 lines";
    let octets = "line 1: the line has over 4096 octets";
    for (octet, answer, line) in [(b'\n', lines, 1_000_001u64), (b'#', octets, 1)] {
        let mut list = ListReader::new(FromRead::new(Endless(octet)));
        assert!(rt; tells(rt.alloc(), &mut list, &[(answer, line), (answer, line)]));
    }
}

/// A list of a version and a line of each kind of event.
const PARTED: &[u8; 23] = b"V2\nF 5 0aff\nC 7\nM 8 on\n";

/// What it tells before its end.
const PARTS: [(&str, u64); 3] = [("F 5 0aff", 2), ("C 7", 3), ("M 8 on", 4)];

/// Whether the list, of which a read fails behind so many octets, tells so many events and then this fault in this
/// line, for good.
fn fails(alloc: Global, size: usize, events: usize, line: u64, fault: &str) -> bool {
    let mut list = ListReader::new(source_of(PARTED, size.max(1), 1));
    tells(alloc, &mut list, PARTS.get(..events).unwrap_or(&PARTS))
        && tells(alloc, &mut list, &[(fault, line), (fault, line)])
        && list.into_reader().ending() == InputEnd::Failed
}

#[test]
fn a_failed_read_is_told_at_the_unfinished_line(rt: HostRuntime) {
    for (first, last, events, line, fault) in [
        (3usize, 11usize, 0usize, 2u64, "line 2: reading failed"),
        (12, 15, 1, 3, "line 3: reading failed"),
        (16, 22, 2, 4, "line 4: reading failed"),
        (23, 23, 3, 5, "line 5: reading failed"),
    ] {
        for size in first..=last {
            assert!(rt;
                fails(rt.alloc(), size, events, line, fault),
                "behind {size}"
            );
        }
    }
}
