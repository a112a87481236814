//! Events and octets, written.

use list_core::{Event, EventKind, Sink, ToWrite, WriteFault, put_all, write_event, write_frame};
use mms_data::Octets;
use std::alloc::Global;
use std::process::Abort;
use test_support::{FailsOnce, FullDisk, KINDS, NEVER, sink_of};

/// Whether an event at this moment is answered so, and written as these octets.
fn is_answered(
    alloc: Global,
    moment: u64,
    kind: EventKind<Global>,
    answer: Result<(), WriteFault>,
    line: &[u8],
) -> bool {
    let mut sink = sink_of(alloc, 3, NEVER);
    let event = Event { moment, kind };
    write_event(&mut sink, &event) == answer && sink.octets.as_slice() == line && !sink.has_failed()
}

/// The same of a frame.
fn is_frame_answered(
    alloc: Global,
    moment: u64,
    octets: &[u8],
    answer: Result<(), WriteFault>,
    line: &[u8],
) -> bool {
    match Octets::try_from_slice(alloc, octets) {
        Ok(octets) => is_answered(alloc, moment, EventKind::Frame(octets), answer, line),
        Err(_) => false,
    }
}

const LAST_MOMENT: u64 = 999_999_999_999_999_999;

#[test]
fn an_event_is_written_as_its_line(rt: HostRuntime) {
    for (moment, line) in [
        (7u64, b"C 7\n".as_slice()),
        (LAST_MOMENT, b"C 999999999999999999\n"),
    ] {
        assert!(rt; is_answered(rt.alloc(), moment, EventKind::Clock, Ok(()), line));
    }
    for (moment, on, line) in [
        (7u64, true, b"M 7 on\n".as_slice()),
        (LAST_MOMENT, false, b"M 999999999999999999 off\n"),
    ] {
        assert!(rt; is_answered(rt.alloc(), moment, EventKind::Mode(on), Ok(()), line));
    }
    for (moment, line) in [
        (7u64, b"F 7 00ab10\n".as_slice()),
        (LAST_MOMENT, b"F 999999999999999999 00ab10\n"),
    ] {
        assert!(rt; is_frame_answered(rt.alloc(), moment, &[0, 171, 16], Ok(()), line));
    }
}

#[test]
fn what_no_list_can_hold_is_not_written(rt: HostRuntime) {
    let refused = Err(WriteFault::NotListable);
    let late = LAST_MOMENT + 1;
    assert!(rt; is_answered(rt.alloc(), late, EventKind::Clock, refused, b""));
    assert!(rt; is_answered(rt.alloc(), late, EventKind::Mode(false), refused, b""));
    let long = [0; 2001];
    for (moment, octets) in [(late, b"\0".as_slice()), (0, b""), (0, &long)] {
        assert!(rt; is_frame_answered(rt.alloc(), moment, octets, refused, b""));
    }
}

#[test]
fn a_frame_alone_is_written_as_its_line(rt: HostRuntime) {
    let mut sink = sink_of(rt.alloc(), 1, NEVER);
    assert!(rt; write_frame(&mut sink, 12, &[0, 171, 16]) == Ok(()));
    assert!(rt; sink.octets.as_slice() == b"F 12 00ab10\n".as_slice());
}

#[test]
fn a_failed_write_leaves_a_front(rt: HostRuntime) {
    for fails_at in 0..4u64 {
        let mut sink = sink_of(rt.alloc(), 1, fails_at);
        assert!(rt; put_all(&mut sink, b"four") == Err(WriteFault::WriteFailed));
        assert!(rt; sink.has_failed());
        assert!(rt; b"four".starts_with(sink.octets.as_slice()));
        assert!(rt; sink.octets.len() as u64 == fails_at);
    }
}

/// Whether these octets arrive at a writer.
fn arrive(alloc: Global, octets: &[u8]) -> bool {
    let mut written = Vec::new(alloc);
    let is_put = {
        let mut sink = ToWrite::new(&mut written);
        put_all(&mut sink, octets) == Ok(()) && !sink.has_failed()
    };
    is_put && written.as_slice() == octets
}

#[test]
fn all_octets_are_put(rt: HostRuntime) {
    assert!(rt; arrive(rt.alloc(), b"four"));
    assert!(rt; arrive(rt.alloc(), &[b'#'; 5000]));
}

#[test]
fn a_writer_that_takes_nothing_is_a_fault(rt: HostRuntime) {
    let mut sink = ToWrite::new(FullDisk);
    assert!(rt; put_all(&mut sink, b"x") == Err(WriteFault::WriteFailed));
    assert!(rt; sink.has_failed());
}

#[test]
fn a_write_that_failed_is_not_tried_again(rt: HostRuntime) {
    for kind in KINDS {
        let mut device = FailsOnce { kind, calls: 0 };
        {
            let mut sink = ToWrite::new(&mut device);
            assert!(rt; put_all(&mut sink, b"C 1\n") == Err(WriteFault::WriteFailed));
            assert!(rt; sink.has_failed());
        }
        assert!(rt; device.calls == 1, "{kind:?}");
    }
}
