//! Laws about captures. The functions compute nothing.
ghost use Rattle.capture_core.specs.Laws.{AnsweredEndIsWhole, AnsweredFaultIsFirst, EndedIsWholeOrFaulty, FirstFaultEndsEvents, FirstFaultIsOne};
ghost use Rattle.capture_core.specs.Laws.{FirstFaultIsRead, ReadFaultIsFirst, ReadIsSpelled, ReadPacketsAreSpelled, SpelledIsRead, SpelledPacketsAreRead};

use std::alloc::Allocator;

/// A text is read to its end without a fault exactly where it is a header and the octets of records, one behind another,
/// and then exactly these records are read.
pub fn captures_are_their_records()
    ensures read { SpelledIsRead }
    ensures spelled { ReadIsSpelled }
{}

/// Octets of any length are read to their end without a fault exactly where they are a header and records of the classic
/// form, or sections of blocks, and then exactly their packets are read.
pub fn captures_are_their_packets()
    ensures read { SpelledPacketsAreRead }
    ensures spelled { ReadPacketsAreSpelled }
{}

/// Octets have at most one first fault. Where they have one, exactly the packets before it are read, and then that fault; and a
/// fault by which reading stops is the first. Octets behind which no more come are a capture of packets or have a first fault, and
/// never both.
pub fn captures_stop_by_their_first_fault<A: Allocator>()
    ensures read { FirstFaultIsRead }
    ensures events { FirstFaultEndsEvents A }
    ensures first { ReadFaultIsFirst }
    ensures one { FirstFaultIsOne }
    ensures either { EndedIsWholeOrFaulty }
{}

/// What a reader of packets answers, one answer behind another: a fault is the first that the octets given have, whatever still
/// comes, and the end is that of a whole capture; the events answered before are those of the packets before it.
pub fn readers_answer_captures<A: Allocator>()
    ensures fault { AnsweredFaultIsFirst A }
    ensures end { AnsweredEndIsWhole A }
{}
