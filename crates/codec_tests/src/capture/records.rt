//! The records of a capture.

use capture_core::{
    CaptureCause, CaptureFault, CaptureForm, Captured, FractionUnit, LONGEST_FRAME, OctetOrder,
    read_record,
};
use list_core::{InputEnd, Source};
use std::process::Abort;
use test_support::{NEVER, source_of};

const LITTLE: CaptureForm = CaptureForm {
    order: OctetOrder::LittleEndian,
    unit: FractionUnit::Microseconds,
};

const BIG_NANO: CaptureForm = CaptureForm {
    order: OctetOrder::BigEndian,
    unit: FractionUnit::Nanoseconds,
};

/// 1 second and 2 microseconds, three octets of a frame, of which 9 were on the wire.
const THREE: &[u8; 19] =
    b"\x01\x00\x00\x00\x02\x00\x00\x00\x03\x00\x00\x00\x09\x00\x00\x00\xaa\xbb\xcc";

/// What is answered where it stands.
const IS_THREE: Result<Option<Captured>, CaptureFault> = Ok(Some(Captured::Frame {
    moment: 1_000_002,
    size: 3,
}));

/// What is answered where a record is refused.
fn refused(number: u64, cause: CaptureCause) -> Result<Option<Captured>, CaptureFault> {
    Err(CaptureFault { number, cause })
}

/// Whether the record behind so many others is answered so, with these octets at the front of its frame.
fn is_answered<R: Source>(
    reader: &mut R,
    form: CaptureForm,
    before: u64,
    answer: Result<Option<Captured>, CaptureFault>,
    octets: &[u8],
) -> bool {
    let before = before.min(999_999); // a capture has no more
    let mut frame = [0; LONGEST_FRAME];
    read_record(reader, form, before, &mut frame) == answer && frame.starts_with(octets)
}

#[test]
fn a_frame(rt: HostRuntime) {
    for at_most in 1..=20usize {
        let mut reader = source_of(THREE, at_most, NEVER);
        let is_first = is_answered(&mut reader, LITTLE, 0, IS_THREE, b"\xaa\xbb\xcc");
        assert!(rt; is_first, "{at_most} octets a read");
        assert!(rt; is_answered(&mut reader, LITTLE, 1, Ok(None), b""));
    }
}

#[test]
fn nanoseconds_are_divided_without_rest(rt: HostRuntime) {
    // 1,999 nanoseconds are 1 microsecond; a fraction over a second is not judged.
    for (octets, moment) in [
        (
            b"\x00\x00\x00\x01\x00\x00\x07\xcf\x00\x00\x00\x01\x00\x00\x00\x01\x11",
            1_000_001u64,
        ),
        (
            b"\xff\xff\xff\xff\xff\xff\xff\xff\x00\x00\x00\x01\x00\x00\x00\x01\x11",
            4_294_967_299_294_967,
        ),
    ] {
        let answer = Ok(Some(Captured::Frame { moment, size: 1 }));
        let mut reader = source_of(octets, 4096, NEVER);
        assert!(rt;
            is_answered(&mut reader, BIG_NANO, 0, answer, b"\x11"),
            "{moment}"
        );
    }
}

/// Whether a record that ends behind so many octets is answered so.
fn is_cut(size: usize, answer: Result<Option<Captured>, CaptureFault>) -> bool {
    let part = THREE.get(..size).unwrap_or(THREE);
    is_answered(&mut source_of(part, 4096, NEVER), LITTLE, 6, answer, b"")
}

/// Whether a record is refused where this read fails, one octet a read.
fn is_failed(fails_at: u64) -> bool {
    let failed = refused(7, CaptureCause::ReadFailed);
    let mut reader = source_of(THREE, 1, fails_at);
    is_answered(&mut reader, LITTLE, 6, failed, b"") && reader.ending() == InputEnd::Failed
}

#[test]
fn a_record_that_is_cut_or_fails(rt: HostRuntime) {
    let cut = refused(7, CaptureCause::CaptureShort);
    assert!(rt; is_cut(0, Ok(None)));
    for size in 1..19usize {
        assert!(rt; is_cut(size, cut), "at {size}");
    }
    for fails_at in 0..19u64 {
        assert!(rt; is_failed(fails_at), "at {fails_at}");
    }
}

#[test]
fn sizes_of_records(rt: HostRuntime) {
    let mut record = [0; 2017];
    for (size, answer) in [
        (0u16, Captured::LeftOut { size: 0 }),
        (
            2000,
            Captured::Frame {
                moment: 0,
                size: 2000,
            },
        ),
        (2001, Captured::LeftOut { size: 2001 }),
    ] {
        record[8..10].copy_from_slice(&size.to_le_bytes());
        let mut reader = source_of(&record, 4096, NEVER);
        assert!(rt;
            is_answered(&mut reader, LITTLE, 0, Ok(Some(answer)), b""),
            "of {size}"
        );
    }
}

#[test]
fn the_last_record(rt: HostRuntime) {
    let one_more = refused(1_000_000, CaptureCause::TooManyRecords);
    let failed = refused(1_000_000, CaptureCause::ReadFailed);
    for (octets, before, fails_at, answer) in [
        (THREE.as_slice(), 999_998u64, NEVER, IS_THREE),
        (b"", 999_999, NEVER, Ok(None)),
        (b"\0", 999_999, NEVER, one_more),
        (THREE, 999_999, NEVER, one_more),
        (THREE, 999_999, 0, failed),
    ] {
        let mut reader = source_of(octets, 4096, fails_at);
        assert!(rt; is_answered(&mut reader, LITTLE, before, answer, b""));
    }
}
