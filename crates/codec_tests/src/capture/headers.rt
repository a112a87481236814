//! The header of a capture.

use capture_core::{
    CaptureCause, CaptureFault, CaptureForm, FractionUnit, OctetOrder, read_header,
};
use list_core::{InputEnd, Source};
use std::process::Abort;
use test_support::{NEVER, source_of};

const LITTLE: &[u8; 24] =
    b"\xd4\xc3\xb2\xa1\x02\x00\x04\x00\x00\x00\x00\x00\x00\x00\x00\x00\xff\xff\x00\x00\x01\x00\x00\x00";

const LITTLE_NANO: &[u8; 24] =
    b"\x4d\x3c\xb2\xa1\x02\x00\x04\x00\x00\x00\x00\x00\x00\x00\x00\x00\xff\xff\x00\x00\x01\x00\x00\x00";

const BIG: &[u8; 24] =
    b"\xa1\xb2\xc3\xd4\x00\x02\x00\x04\x00\x00\x00\x00\x00\x00\x00\x00\x00\x00\xff\xff\x00\x00\x00\x01";

const BIG_NANO: &[u8; 24] =
    b"\xa1\xb2\x3c\x4d\x00\x02\x00\x04\x00\x00\x00\x00\x00\x00\x00\x00\x00\x00\xff\xff\x00\x00\x00\x01";

/// Whether the source gives this answer for a header, and has this ending then.
fn is_answered<R: Source>(
    reader: &mut R,
    answer: Result<CaptureForm, CaptureFault>,
    ending: InputEnd,
) -> bool {
    read_header(reader) == answer && reader.ending() == ending
}

#[test]
fn both_orders_and_units(rt: HostRuntime) {
    for (header, order, unit) in [
        (LITTLE, OctetOrder::LittleEndian, FractionUnit::Microseconds),
        (
            LITTLE_NANO,
            OctetOrder::LittleEndian,
            FractionUnit::Nanoseconds,
        ),
        (BIG, OctetOrder::BigEndian, FractionUnit::Microseconds),
        (BIG_NANO, OctetOrder::BigEndian, FractionUnit::Nanoseconds),
    ] {
        let form = Ok(CaptureForm { order, unit });
        for at_most in 1..=24usize {
            let mut reader = source_of(header, at_most, NEVER);
            assert!(rt; is_answered(&mut reader, form, InputEnd::Open), "{form:?}");
        }
    }
}

#[test]
fn what_is_looked_at(rt: HostRuntime) {
    let form = Ok(CaptureForm {
        order: OctetOrder::LittleEndian,
        unit: FractionUnit::Microseconds,
    });
    let refused = refused(CaptureCause::CaptureHeader);
    for place in 0..24usize {
        let mut header = *LITTLE;
        header[place] = 0xee;
        let answer = match place {
            0..=7 | 20 | 21 => refused,
            _ => form,
        };
        let mut reader = source_of(&header, 24, NEVER);
        assert!(rt;
            is_answered(&mut reader, answer, InputEnd::Open),
            "at {place}"
        );
    }
}

/// The answer where the header is refused.
fn refused(cause: CaptureCause) -> Result<CaptureForm, CaptureFault> {
    Err(CaptureFault { number: 0, cause })
}

/// Whether a header that ends behind so many octets is told to be cut off.
fn is_cut(size: usize) -> bool {
    let part = LITTLE.get(..size).unwrap_or(LITTLE);
    let cut = refused(CaptureCause::CaptureShort);
    is_answered(&mut source_of(part, 24, NEVER), cut, InputEnd::End)
}

/// Whether a header is refused where this read fails, one octet a read.
fn is_failed(fails_at: u64) -> bool {
    let failed = refused(CaptureCause::ReadFailed);
    is_answered(
        &mut source_of(LITTLE, 1, fails_at),
        failed,
        InputEnd::Failed,
    )
}

#[test]
fn a_header_that_is_cut_or_fails(rt: HostRuntime) {
    for size in 0..24usize {
        assert!(rt; is_cut(size), "at {size}");
    }
    for fails_at in 0..24u64 {
        assert!(rt; is_failed(fails_at), "at {fails_at}");
    }
}
