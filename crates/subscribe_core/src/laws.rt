//! Laws about the definitions that the contracts of this crate cite. The functions compute nothing.

ghost use Rattle.std.specs.Prelude.{List};
ghost use Rattle.subscribe_core.specs.Laws.{ActedWhereInTime, ActsAreTold, BlocksAreAlone, EntriesAreOne, EntriesExist, EntriesStay, NumbersAreBelow, NumbersRise, OneKind, SimulatedAreTaken};
ghost use Rattle.subscribe_core.specs.EventsRead.{EventRead};
ghost use Rattle.subscribe_core.specs.Sight.{trace_of_block};
ghost use Rattle.subscribe_core.specs.WatchLaws.{SeenAreOne, SkipsAddUp};
ghost use Rattle.block_core.specs.declared.block.Block.{Block};

use std::alloc::Allocator;

/// Within one epoch of a block the status numbers acted on strictly rise, so that none is acted on twice. Each good frame's
/// number is at most the newest one acted on. A number is acted on exactly where a good frame of it comes before any good
/// frame of a greater one.
pub fn acted_numbers_rise<A: Allocator>()
    ensures rise { (block : Block A) (events : List EventRead) → NumbersRise (trace_of_block block events) }
    ensures below { (block : Block A) (events : List EventRead) → NumbersAreBelow (trace_of_block block events) }
    ensures in_time { (block : Block A) (events : List EventRead) → ActedWhereInTime (trace_of_block block events) }
{}

/// The actions among the entries of an event are exactly those of the blocks of which its frame is a good one with a status
/// number above those of all good ones before it in their epoch, and each has the frame's own numbers, time and members.
pub fn acts_are_told<A: Allocator>()
    ensures { ActsAreTold A }
{}

/// A block takes simulated frames exactly where a simulated frame of it came earlier with the mode on, and no event between set
/// the mode off.
pub fn simulated_frames_are_taken<A: Allocator>()
    ensures { SimulatedAreTaken A }
{}

/// The good frames of one epoch are all simulated or all real.
pub fn one_kind_an_epoch<A: Allocator>()
    ensures { OneKind A }
{}

/// A block's entries are those of a subscriber that has this block alone, its position read as 0.
pub fn each_block_alone<A: Allocator>()
    ensures { BlocksAreAlone A }
{}

/// Every list of events has entries. Where no two blocks have one name they are determined, and those of an event don't
/// depend on later events.
pub fn entries_are_one<A: Allocator>()
    ensures exist { EntriesExist A }
    ensures one { EntriesAreOne A }
    ensures stay { EntriesStay A }
{}

/// Every list of counts has answers, and they are one.
pub fn counts_are_seen_once()
    ensures { SeenAreOne }
{}

/// Over indexes that go on in small steps, each one above the greatest before it or less than half a period away from it, the
/// `Next` and `Skipped` answers with the counts of those skipped add up to the greatest index minus the first.
pub fn skips_add_up()
    ensures { SkipsAddUp }
{}
