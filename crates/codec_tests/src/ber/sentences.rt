//! What is wrong, for a person.

use ber_core::{Cause, Full};
use mms_data::{PutFault, ReadFault};
use std::alloc::{AllocError, Global};
use std::fmt::Display;

// Whether the error says this.
fn says<E: Display + Drop>(alloc: Global, error: E, sentence: &str) -> bool {
    match error.to_string(alloc) {
        Ok(said) => said.as_str() == sentence,
        Err(_) => false,
    }
}

#[test]
fn each_cause_has_its_sentence(rt: HostRuntime) {
    for (cause, sentence) in [
        (Cause::Ends, "the octets end inside a length"),
        (Cause::HighTag, "an identifier of more than one octet"),
        (Cause::Indefinite, "a length of the indefinite form"),
        (
            Cause::LengthForm,
            "a length of over four octets, or of the reserved form",
        ),
        (Cause::LengthPastEnd, "contents that reach past the end"),
        (
            Cause::IntegerLength,
            "an integer of no octets, or of over nine",
        ),
        (
            Cause::UnexpectedTag,
            "an identifier that is not allowed here",
        ),
        (Cause::BooleanLength, "a boolean that has not one octet"),
        (Cause::IntegerRange, "an integer out of its range"),
        (Cause::BitUnused, "a wrong count of unused bits"),
        (Cause::FixedLength, "contents of a wrong count of octets"),
        (Cause::NotVisible, "an octet that no visible text has"),
        (Cause::TooDeep, "a member nested deeper than sixteen levels"),
        (
            Cause::ElementMissing,
            "a field that is always there is missing",
        ),
        (Cause::ExtraOctets, "octets after the last field"),
        (
            Cause::EntryCount,
            "numDatSetEntries is not the count of members",
        ),
        (Cause::AsduCount, "noASDU is not the count of ASDUs"),
        (Cause::FrameTooLong, "a frame of over 1600 octets"),
        (
            Cause::EtherType,
            "an EtherType that announces no APDU that is read",
        ),
        (Cause::LengthField, "a field Length below 8 or over 1500"),
        (Cause::Truncated, "the frame ends too early"),
    ] {
        assert!(rt; says(rt.alloc(), cause, sentence), "{cause:?}");
    }
}

#[test]
fn each_refusal_has_its_sentence(rt: HostRuntime) {
    let fault = Cause::ExtraOctets.at(67);
    let wanted = "octets after the last field, at octet 67";
    assert!(rt; says(rt.alloc(), fault, wanted));
    assert!(rt; says(rt.alloc(), ReadFault::Fault(fault), wanted));
    assert!(rt; says(rt.alloc(), ReadFault::Memory(AllocError), "out of memory"));
    assert!(rt; says(rt.alloc(), Full, "no room is left for the octets"));
    assert!(rt; says(rt.alloc(), PutFault::NotSpellable, "it has no encoding"));
    assert!(rt; says(rt.alloc(), PutFault::Full, "no room is left"));
}
