//! Laws about the definitions of `publish_core` and `subscribe_core` together. The functions compute nothing.

ghost use Rattle.joint_laws.specs.ExchangeLaws.{ActionsCarryWhatWasPublished, ChangesActedOn, EpochsOfWhatIsPublishedStem, PublishedIsOne, WhatIsPublishedIsOfTheRun, WholeRunsReplay};

use std::alloc::Allocator;

/// Where the good frames of an epoch of a block stem from one publisher's run without a wrap, however repeated, lost or
/// reordered, each action of that epoch carries the data set that was published under its status number: the time of change and
/// the members that change number minus first handed in. One data set is published under a number.
pub fn actions_carry_what_was_published<P: Allocator, S: Allocator>()
    ensures carried { ActionsCarryWhatWasPublished P S }
    ensures one { PublishedIsOne P }
{}

/// The changes that are acted on in such an epoch are, each at one event and in their order, those of which a good frame
/// comes before any of a later change.
pub fn changes_are_acted_on_in_order<P: Allocator, S: Allocator>()
    ensures { ChangesActedOn P S }
{}

/// The octets that a publisher answers, in a run of accepted changes and of polls, are of that run: they spell the frame
/// that is published. So an epoch stems from the run where each of its good frames is such octets.
pub fn what_is_published_is_of_the_run<P: Allocator, S: Allocator>()
    ensures octets { WhatIsPublishedIsOfTheRun P }
    ensures epochs { EpochsOfWhatIsPublishedStem P S }
{}

/// Of the frames of a publisher's whole run, whose changes were accepted, the publisher's own block acts on each change's
/// and is renewed by each poll's, and there is no other entry: where the control is neither simulated nor in commissioning,
/// the status numbers don't wrap, each frame comes in the lifetime of the one before, and there are at most 4294967295 of them.
pub fn whole_runs_replay<P: Allocator, S: Allocator>()
    ensures { WholeRunsReplay P S }
{}
