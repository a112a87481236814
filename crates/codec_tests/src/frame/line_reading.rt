//! Lines, one at a time.

use list_core::{FromRead, InputEnd, LineReader, ListCause, ListFault, Source};
use std::process::Abort;
use std::test::Fail;
use test_support::{FailsOnce, KINDS, NEVER, source_of};

/// Whether the next line is this one.
fn is_next<R: Source>(reader: &mut LineReader<R>, line: &[u8]) -> bool {
    reader.next_line() == Ok(Some(line))
}

/// Whether no line is left.
fn is_end<R: Source>(reader: &mut LineReader<R>) -> bool {
    matches!(reader.next_line(), Ok(None))
}

/// The fault of the next line, if it has one.
fn next_fault<R: Source>(reader: &mut LineReader<R>) -> Option<ListFault> {
    reader.next_line().err()
}

/// Whether the next lines are these, and the end follows for good.
fn are_all<R: Source>(reader: &mut LineReader<R>, lines: &[&[u8]]) -> bool {
    for line in lines {
        if !is_next(reader, line) {
            return false;
        }
    }
    is_end(reader) && is_end(reader)
}

/// Whether the next line is refused for this cause, for good.
fn is_refused<R: Source>(reader: &mut LineReader<R>, line: u64, cause: ListCause) -> bool {
    let fault = Some(ListFault { line, cause });
    next_fault(reader) == fault && next_fault(reader) == fault && reader.line_number() == line
}

#[test]
fn lines_come_without_their_endings(rt: HostRuntime) {
    let text = b"one\ntwo\r\n\r\n\nlast\r";
    let lines = [b"one".as_slice(), b"two", b"", b"", b"last"];
    for at_most in 1..=20usize {
        let mut reader = LineReader::new(source_of(text, at_most, NEVER));
        assert!(rt; reader.line_number() == 0);
        assert!(rt; are_all(&mut reader, &lines), "{at_most} octets a read");
        assert!(rt; reader.line_number() == 5);
        assert!(rt; reader.into_reader().ending() == InputEnd::End);
    }
}

#[test]
fn a_line_has_4096_octets_at_most(rt: HostRuntime) -> Result<(), Fail> {
    let text = vec![in rt.alloc(); b'#'; 4097]?;
    let longest = &text.as_slice()[..4096];
    let mut reader = LineReader::new(source_of(longest, 7, NEVER));
    assert!(rt; are_all(&mut reader, &[longest]));
    let mut reader = LineReader::new(source_of(text.as_slice(), 7, NEVER));
    assert!(rt; is_refused(&mut reader, 1, ListCause::LineTooLong));
    Ok(())
}

#[test]
fn the_end_of_a_reader_is_the_end(rt: HostRuntime) {
    let mut reader = LineReader::new(FromRead::new(b"one\ntwo".as_slice()));
    assert!(rt; are_all(&mut reader, &[b"one", b"two"]));
    assert!(rt; reader.into_reader().ending() == InputEnd::End);
}

#[test]
fn a_failed_read_comes_after_the_whole_lines(rt: HostRuntime) {
    let mut reader = LineReader::new(source_of(b"one\ntwo", 5, 1));
    assert!(rt; is_next(&mut reader, b"one"));
    assert!(rt; is_refused(&mut reader, 2, ListCause::ReadFailed));
    assert!(rt; reader.into_reader().ending() == InputEnd::Failed);
}

#[test]
fn a_read_that_failed_is_not_tried_again(rt: HostRuntime) {
    for kind in KINDS {
        let mut device = FailsOnce { kind, calls: 0 };
        {
            let mut reader = LineReader::new(FromRead::new(&mut device));
            assert!(rt; is_refused(&mut reader, 1, ListCause::ReadFailed));
        }
        assert!(rt; device.calls == 1, "{kind:?}");
    }
}
