//! Fields of a sequence: the element that may or must stand at a place, and the sequence's end.

use ber_core::fields::{check_end, known_required, known_there, required, there};
use ber_core::{Cause, Header};

const SEQUENCE: [u8; 6] = [0x83, 1, 5, 0x9f, 0x85, 0x80];

const FIRST: Header = Header {
    at: 0,
    identifier: 0x83,
    contents_from: 2,
    contents_to: 3,
};

#[test]
fn fields_that_may_be_absent(rt: HostRuntime) {
    assert!(rt; there(&SEQUENCE, 0, 6, 0x83) == Ok(Some(FIRST)));
    assert!(rt; there(&SEQUENCE, 0, 6, 0x84) == Ok(None));
    assert!(rt; there(&SEQUENCE, 3, 3, 0x83) == Ok(None));
    assert!(rt; there(&SEQUENCE, 4, 6, 0x85) == Err(Cause::Indefinite.at(5)));
}

#[test]
fn fields_that_are_always_there(rt: HostRuntime) {
    assert!(rt; required(&SEQUENCE, 0, 6, 0x83) == Ok(FIRST));
    assert!(rt; required(&SEQUENCE, 0, 6, 0x84) == Err(Cause::UnexpectedTag.at(0)));
    assert!(rt; required(&SEQUENCE, 3, 3, 0x84) == Err(Cause::ElementMissing.at(3)));
    assert!(rt; required(&SEQUENCE, 0, 2, 0x83) == Err(Cause::LengthPastEnd.at(1)));
}

// The element that may stand at this place of the sequence, by the call that judges nothing, where it can be made.
fn known_at(at: usize, identifier: u8) -> Option<Option<Header>> {
    if 6 < at {
        return None;
    }
    match there(&SEQUENCE, at, 6, identifier) {
        Ok(_) => Some(known_there(&SEQUENCE, at, 6, identifier)),
        Err(_) => None,
    }
}

// The same of one that must stand there.
fn known_to_stand_at(at: usize, identifier: u8) -> Option<Header> {
    if 6 < at {
        return None;
    }
    match required(&SEQUENCE, at, 6, identifier) {
        Ok(_) => Some(known_required(&SEQUENCE, at, 6, identifier)),
        Err(_) => None,
    }
}

#[test]
fn fields_that_are_known(rt: HostRuntime) {
    assert!(rt; known_at(0, 0x83) == Some(Some(FIRST)) && known_at(0, 0x84) == Some(None));
    assert!(rt; known_to_stand_at(0, 0x83) == Some(FIRST) && known_to_stand_at(0, 0x84) == None);
}

#[test]
fn ends_of_sequences(rt: HostRuntime) {
    assert!(rt; check_end(6, 6) == Ok(()) && check_end(5, 6) == Err(Cause::ExtraOctets.at(5)));
}
