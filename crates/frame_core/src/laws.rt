//! Laws about the definitions that the contracts of this crate cite. The functions compute nothing.

ghost use Rattle.frame_core.specs.Laws.{FaultIsOne, FitsIsKnown, FrameIsOne, FrameOrFault, PartsMakeTheControl, ReadingIsTrue, ReadingTells, SpelledIsSpellable, WrittenIsSpelled};
ghost use Rattle.frame_core.specs.OtherType.{OtherIsNoFrame};
ghost use Rattle.frame_core.specs.SkipOther.{LeavesWhatCame};

pub use list_core::laws::{
    a_line_says_what_it_spells, stops_tell_the_ending, version_comes_first,
    written_event_reads_back,
};
use list_core::{Event, ReadItems};
use std::alloc::Allocator;

/// Octets are spelled for at most one frame, or have at most one first fault, and never both.
pub fn one_reading<A: Allocator>()
    ensures frame { FrameIsOne A }
    ensures either { FrameOrFault A }
    ensures fault { FaultIsOne }
{}

/// The function on octets, by which texts are defined, gives the frame that octets spell, and the first fault
/// that they have; and what it gives stands in the octets: they spell the frame that it gives, and they have the
/// fault that it gives as their first.
pub fn reading_tells<A: Allocator>()
    ensures told { ReadingTells A }
    ensures only { ReadingIsTrue A }
{}

/// The written form of a frame is a spelling of it, where each field of its APDU has one and the form is not too long;
/// and those are the frames that pass the test by which `rewrite` keeps others as they are.
pub fn written_is_spelled<A: Allocator>()
    ensures frame { WrittenIsSpelled A }
    ensures fits { FitsIsKnown A }
{}

/// A frame that octets spell has a spelling in the sense of its fields: nothing but its length keeps it from being
/// written.
pub fn spelled_is_spellable<A: Allocator>()
    ensures { SpelledIsSpellable A }
{}

/// The parts of a tag's control word make it up: 8192 times the priority, 4096 where the frame may be dropped
/// first, and the number of the virtual network.
pub fn parts_make_the_control()
    ensures { PartsMakeTheControl }
{}

/// A frame of another protocol, as is passed over, is none of GOOSE or Sampled Values.
pub fn what_is_passed_over_is_no_frame<A: Allocator>()
    ensures { OtherIsNoFrame A }
{}

/// What a reader answers that passes over the frames of other protocols is what is left of the events that the reader beneath
/// gave, one by one; and it keeps of which frames nothing else is left.
pub fn passing_over_leaves_what_came<A: Allocator, I: ReadItems<A, Item = Event<A>>>()
    ensures { LeavesWhatCame I.answers }
{}
