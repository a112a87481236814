//! Outside examples: headers and integers that stand in octets, and their written forms.

use arrayvec::ArrayVec;
use ber_core::{
    Cause, Fault, Full, Header, header, integer, known_header, laws, octet_count, put_header,
    put_integer, signed_count,
};
use test_support::FRAME;

mod contents;
mod fields;
mod sentences;

// What stands at this place of the octets, of which there are at least so many.
fn header_at(octets: &[u8], at: usize) -> Option<Result<Header, Fault>> {
    if octets.len() < at {
        return None;
    }
    Some(header(octets, at, octets.len()))
}

#[test]
fn headers_stand(rt: HostRuntime) {
    let apdu = Header {
        at: 22,
        identifier: 0x61,
        contents_from: 24,
        contents_to: 67,
    };
    assert!(rt; header_at(&FRAME, 22) == Some(Ok(apdu)));
    let long = Header {
        at: 0,
        identifier: 0x85,
        contents_from: 6,
        contents_to: 7,
    };
    assert!(rt; header_at(&[0x85, 0x84, 0, 0, 0, 1, 5, 9], 0) == Some(Ok(long)));
}

// The header of the octets' first element by the call that judges nothing, where there is one.
fn known_first(octets: &[u8]) -> Option<Header> {
    match header(octets, 0, octets.len()) {
        Ok(_) => Some(known_header(octets, 0, octets.len())),
        Err(_) => None,
    }
}

#[test]
fn headers_that_are_known(rt: HostRuntime) {
    for octets in [
        [0x85, 2, 0, 0x80, 0, 0, 0, 0].as_slice(),
        &[0x85, 0x81, 2, 0, 0x80],
        &[0x85, 0x84, 0, 0, 0, 1, 5, 9],
        &[0x61, 0x82, 1],
    ] {
        assert!(rt; known_first(octets) == header(octets, 0, octets.len()).ok());
    }
}

#[test]
fn headers_at_fault(rt: HostRuntime) {
    for (octets, at, wanted) in [
        (FRAME.as_slice(), 67, Cause::Ends.at(67)),
        (&[0x61, 0x82], 0, Cause::Ends.at(2)),
        (&[7, 0x9f], 1, Cause::HighTag.at(1)),
        (&[0x61, 0x80, 1], 0, Cause::Indefinite.at(1)),
        (&[0x61, 0x85, 1], 0, Cause::LengthForm.at(1)),
        (&[0x61, 0xff, 1], 0, Cause::LengthForm.at(1)),
        (&FRAME[..66], 62, Cause::LengthPastEnd.at(63)),
    ] {
        assert!(rt; header_at(octets, at) == Some(Err(wanted)), "{wanted}");
    }
}

// The integer whose element the octets begin with.
fn integer_first(octets: &[u8]) -> Result<i128, Fault> {
    let header = header(octets, 0, octets.len())?;
    integer(octets, &header)
}

#[test]
fn integers(rt: HostRuntime) {
    for (octets, wanted) in [
        (
            [0x85, 8, 0x80, 0, 0, 0, 0, 0, 0, 0].as_slice(),
            Ok(-9223372036854775808),
        ),
        (
            &[0x86, 9, 0, 0xff, 0xff, 0xff, 0xff, 0xff, 0xff, 0xff, 0xff],
            Ok(18446744073709551615),
        ),
        (&[0x85, 4, 0, 0, 0, 5], Ok(5)),
        (&[0x86, 1, 0xff], Ok(-1)),
        (&[0x85, 0], Err(Cause::IntegerLength.at(1))),
        (
            &[0x85, 10, 0, 0, 0, 0, 0, 0, 0, 0, 0, 1],
            Err(Cause::IntegerLength.at(1)),
        ),
    ] {
        assert!(rt; integer_first(octets) == wanted, "{octets:?}");
    }
}

#[test]
fn fewest_octets(rt: HostRuntime) {
    assert!(rt; octet_count(255) == 1 && octet_count(256) == 2);
    assert!(rt; signed_count(127) == 1 && signed_count(128) == 2 && signed_count(-128) == 1);
}

// How a header is put behind what the vector holds.
fn header_put(out: &mut ArrayVec<u8, 7>) -> Result<(), Full> {
    put_header(out, 0x61, 43)
}

// The same of an integer.
fn integer_put(out: &mut ArrayVec<u8, 7>) -> Result<(), Full> {
    put_integer(out, 0x85, 128)
}

#[test]
fn written_forms_fit_or_leave_the_vector(rt: HostRuntime) {
    let mut out = ArrayVec::<u8, 7>::new();
    assert!(rt; header_put(&mut out) == Ok(()) && integer_put(&mut out) == Ok(()));
    assert!(rt; header_put(&mut out) == Err(Full));
    assert!(rt; out.as_slice() == [0x61, 0x2b, 0x85, 2, 0, 0x80].as_slice());
}

#[test]
fn laws_hold() {
    laws::one_reading();
    laws::shortest();
}
