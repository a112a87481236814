//! Contents of elements: their values, and their faults at their places.

use ber_core::contents::{
    boolean, boolean_of, check_visible, counted, integer_in, integer_of, visible,
};
use ber_core::{Cause, Fault, header};

// The boolean whose element the octets begin with.
fn boolean_first(octets: &[u8]) -> Result<bool, Fault> {
    let header = header(octets, 0, octets.len())?;
    boolean(octets, &header)
}

#[test]
fn booleans(rt: HostRuntime) {
    assert!(rt;
        boolean_first(&[0x83, 1, 5]) == Ok(true) && boolean_first(&[0x83, 1, 0]) == Ok(false)
    );
    assert!(rt; boolean_first(&[0x83, 2, 0, 0]) == Err(Cause::BooleanLength.at(1)));
    assert!(rt;
        boolean_of(&[5], 7) == Ok(true) && boolean_of(&[], 7) == Err(Cause::BooleanLength.at(8))
    );
}

// The integer, at most `high`, whose element the octets begin with.
fn integer_first(octets: &[u8], high: i128) -> Result<i128, Fault> {
    let header = header(octets, 0, octets.len())?;
    integer_in(octets, &header, 0, high)
}

#[test]
fn integers_in_a_range(rt: HostRuntime) {
    let most = [0x85, 5, 0, 0xff, 0xff, 0xff, 0xff];
    for (octets, high, wanted) in [
        (most.as_slice(), 4294967295, Ok(4294967295)),
        (&most, 4294967294, Err(Cause::IntegerRange.at(2))),
        (&[0x85, 1, 0xff], 1, Err(Cause::IntegerRange.at(2))),
        (&[0x85, 0], 1, Err(Cause::IntegerLength.at(1))),
    ] {
        assert!(rt;
            integer_first(octets, high) == wanted,
            "{octets:?} up to {high}"
        );
    }
    assert!(rt;
        integer_of(&[0xff], 7, 9, -1, 1) == Ok(-1)
            && integer_of(&[2], 7, 9, -1, 1) == Err(Cause::IntegerRange.at(9))
    );
}

// The visible text whose element the octets begin with.
fn text_first(octets: &[u8]) -> Result<&[u8], Fault> {
    let header = header(octets, 0, octets.len())?;
    visible(octets, &header)
}

#[test]
fn visible_texts(rt: HostRuntime) {
    assert!(rt; text_first(&[0x80, 2, 0x20, 0x7e]) == Ok([0x20, 0x7e].as_slice()));
    assert!(rt; text_first(&[0x80, 3, 0x41, 0x7f, 0x1f]) == Err(Cause::NotVisible.at(3)));
    assert!(rt; check_visible(&[0x20, 0x7e], 7) == Ok(()));
    assert!(rt; check_visible(&[0x41, 0x1f], 7) == Err(Cause::NotVisible.at(8)));
}

// The contents, so many octets, of the element that the octets begin with.
fn counted_first(octets: &[u8], count: usize) -> Result<&[u8], Fault> {
    let header = header(octets, 0, octets.len())?;
    counted(octets, &header, count)
}

#[test]
fn octets_of_a_stated_count(rt: HostRuntime) {
    let four = [0x84, 4, 1, 2, 3, 4];
    assert!(rt; counted_first(&four, 4) == Ok([1, 2, 3, 4].as_slice()));
    assert!(rt; counted_first(&four, 3) == Err(Cause::FixedLength.at(1)));
}
