//! What the errors say to a person.

use frame_core::EncodeFault;
use list_core::{DeviceFault, ListCause, ListError, ListFault, WriteFault};
use std::alloc::{AllocError, Global};
use std::fmt::Display;
use std::process::Abort;

/// Whether the error says this.
pub fn says<E: Display + Drop>(alloc: Global, error: E, sentence: &str) -> bool {
    match error.to_string(alloc) {
        Ok(said) => said.as_str() == sentence,
        Err(_) => false,
    }
}

#[test]
fn faults_of_lists_name_the_line_and_the_cause(rt: HostRuntime) {
    for (cause, sentence) in [
        (
            ListCause::LineTooLong,
            "line 7: the line has over 4096 octets",
        ),
        (
            ListCause::LineForm,
            "line 7: the line is neither an event, nor a comment, nor empty",
        ),
        (
            ListCause::Moment,
            "line 7: the time is not 1 to 15 decimal digits (1 to 18 after a first line V2)",
        ),
        (
            ListCause::Hex,
            "line 7: the octets are not an even count of 2 to 4000 hexadecimal digits",
        ),
        (
            ListCause::ListTooLong,
            "line 7: the list has over 1000000 lines",
        ),
        (ListCause::ReadFailed, "line 7: reading failed"),
    ] {
        assert!(rt;
            says(rt.alloc(), ListFault { line: 7, cause }, sentence),
            "{sentence}"
        );
    }
}

#[test]
fn want_of_memory_is_no_fault_of_the_list(rt: HostRuntime) {
    assert!(rt; says(rt.alloc(), ListError::Memory(AllocError), "out of memory"));
}

#[test]
fn faults_of_writing_say_what_is_wrong(rt: HostRuntime) {
    assert!(rt; says(rt.alloc(), DeviceFault, "reading or writing failed"));
    for (fault, sentence) in [
        (
            WriteFault::NotListable,
            "no line of a list can hold the event",
        ),
        (WriteFault::WriteFailed, "writing failed"),
    ] {
        assert!(rt; says(rt.alloc(), fault, sentence), "{sentence}");
    }
    for (fault, sentence) in [
        (
            EncodeFault::NotSpellable,
            "a field of the frame has no encoding",
        ),
        (EncodeFault::TooLong, "the frame would be too long"),
    ] {
        assert!(rt; says(rt.alloc(), fault, sentence), "{sentence}");
    }
}
