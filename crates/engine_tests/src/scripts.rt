//! The lines of a script where memory is refused, at each growth in turn: once it is granted, the same line is read again.

use ber_core::Cause;
use list_core::{ItemFault, ItemReader, ReadError, Source};
use script_core::{ScriptCause, ScriptItem, ScriptLines};
use std::alloc::{Allocator, Global};
use test_support::{NEVER, RefusingAlloc, source_of};

// A script of each kind of line. The values of its first change are a boolean, two octets, and a structure of a boolean.
const SCRIPT: &[u8] =
    b"V2\n# a comment\ncontrol,010ccd010001,020000000001,,0001,G,D,I,1,3,0,0,7\nstep,10,2000\nchange,5,0000000000000000,8301ff89020102a203830100\npoll,6\nchange,7,0000000000000000,8300\n";

// What the reader answers, as far as the answers differ here.
#[derive(Clone, Copy, PartialEq, Eq)]
enum Answer {
    // A control line, with the status number of its first state.
    Control(u32),
    Step(u32, u32),
    // A change at this moment, to so many values.
    Change(u64, usize),
    Poll(u64),
    Fault(u64, ScriptCause),
    Memory,
    Other,
}

// What the item says.
fn item_told<A: Allocator>(item: &ScriptItem<A>) -> Answer {
    match item {
        ScriptItem::Control(_, first) => Answer::Control(*first),
        ScriptItem::Step(step) => Answer::Step(step.wait_ms, step.live_ms),
        ScriptItem::Change(moment, _, values) => Answer::Change(*moment, values.as_slice().len()),
        ScriptItem::Poll(moment) => Answer::Poll(*moment),
    }
}

// The next answer.
fn next_answer<S: Source>(
    alloc: &RefusingAlloc<Global>,
    script: &mut ItemReader<S, ScriptLines>,
) -> Answer {
    match script.next(alloc, &mut None) {
        Ok(Some(item)) => item_told(&item),
        Err(ReadError::Fault(ItemFault::Line(number, cause))) => Answer::Fault(number, cause),
        Err(ReadError::Memory(_)) => Answer::Memory,
        _ => Answer::Other,
    }
}

// The next answer where memory is granted at last: a refusal comes twice, leaves the line's number, and nothing is out.
fn answer_at_last<S: Source>(
    alloc: &RefusingAlloc<Global>,
    script: &mut ItemReader<S, ScriptLines>,
) -> Answer {
    let number = script.line_number();
    let answer = next_answer(alloc, script);
    if answer != Answer::Memory {
        return answer;
    }
    let is_left = alloc.has_refused() && alloc.blocks_out() == 0 && script.line_number() == number;
    if !is_left || next_answer(alloc, script) != Answer::Memory || script.line_number() != number {
        return Answer::Other;
    }
    alloc.allow();
    next_answer(alloc, script)
}

// Whether these are the answers at last, each beside its line's number, and nothing is out behind one.
fn are_told(alloc: &RefusingAlloc<Global>, answers: &[(Answer, u64)]) -> bool {
    let mut script = ItemReader::new(source_of(SCRIPT, 7, NEVER), ScriptLines::First);
    for (answer, number) in answers {
        let told = answer_at_last(alloc, &mut script);
        if told != *answer || alloc.blocks_out() != 0 || script.line_number() != *number {
            return false;
        }
    }
    true
}

// How many growths it takes to give these answers, where each is refused in turn. None where others are given.
fn growths(memory: Global, answers: &[(Answer, u64)]) -> Option<usize> {
    for first_refused in 0..100usize {
        let alloc = RefusingAlloc::new(memory, first_refused);
        if !are_told(&alloc, answers) {
            return None;
        }
        if !alloc.has_refused() {
            return Some(first_refused);
        }
    }
    None
}

#[test]
fn each_line_is_read_again(rt: HostRuntime) {
    let fault = Cause::BooleanLength.at(1);
    let answers = [
        (Answer::Control(7), 3),
        (Answer::Step(10, 2000), 4),
        (Answer::Change(5, 3), 5),
        (Answer::Poll(6), 6),
        (Answer::Fault(7, ScriptCause::Members(fault)), 7),
    ];
    // Three texts of the control line; of the change its values, one's octets and another's values.
    assert!(rt; growths(rt.alloc(), &answers).unwrap_or(0) >= 6);
}
