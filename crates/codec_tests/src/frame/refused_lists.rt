//! Lists where memory is refused, at each growth in turn.

use crate::frame::list_reading::is_next;
use list_core::{ListReader, Source};
use std::alloc::Global;
use std::process::Abort;
use test_support::{NEVER, RefusingAlloc, source_of};

/// Whether the next answer is this one, in this line, once memory is granted: a refusal comes twice, and leaves the
/// line's number.
fn is_next_at_last<R: Source>(
    texts: Global,
    alloc: &RefusingAlloc<Global>,
    list: &mut ListReader<R>,
    answer: &str,
    line: u64,
) -> bool {
    let before = list.line_number();
    if let Some(is_next) = is_next(texts, alloc, list, answer) {
        return is_next && list.line_number() == line;
    }
    if is_next(texts, alloc, list, answer).is_some() || list.line_number() != before {
        return false;
    }
    let has_refused = alloc.has_refused();
    alloc.allow();
    has_refused && is_next(texts, alloc, list, answer) == Some(true) && list.line_number() == line
}

/// Whether the list of this text gives these answers at last, each beside its line's number, from this allocator.
fn tells_at_last(
    texts: Global,
    alloc: &RefusingAlloc<Global>,
    text: &[u8],
    answers: &[(&str, u64)],
) -> bool {
    let mut list = ListReader::new(source_of(text, 7, NEVER));
    for (answer, line) in answers {
        if !is_next_at_last(texts, alloc, &mut list, answer, *line) {
            return false;
        }
    }
    true
}

/// How many growths it takes to give these answers, where each is refused in turn. None where another one is given, or where
/// memory is out behind them.
fn growths_to_tell(memory: Global, text: &[u8], answers: &[(&str, u64)]) -> Option<usize> {
    for first_refused in 0..100usize {
        let alloc = RefusingAlloc::new(memory, first_refused);
        if !tells_at_last(memory, &alloc, text, answers) || alloc.blocks_out() != 0 {
            return None;
        }
        if !alloc.has_refused() {
            return Some(first_refused);
        }
    }
    None
}

#[test]
fn next_where_each_growth_is_refused(rt: HostRuntime) {
    let first = b"# first\nF 5 0aff\n\nC 7\nF 8 00\n".as_slice();
    let told_first = [
        ("F 5000 0aff", 2u64),
        ("C 7000", 4),
        ("F 8000 00", 5),
        ("end", 5),
    ];
    let second = b"V2\nF 5 0aff\nM 6 on\nF 8 00\nV2\n".as_slice();
    let fault = "line 5: the line is neither an event, nor a comment, nor empty";
    let told_second = [("F 5 0aff", 2u64), ("M 6 on", 3), ("F 8 00", 4), (fault, 5)];
    for (text, answers) in [(first, &told_first), (second, &told_second)] {
        assert!(rt; growths_to_tell(rt.alloc(), text, answers).unwrap_or(0) > 1);
    }
}
