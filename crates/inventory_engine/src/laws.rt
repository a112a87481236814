//! Laws about the lines of control blocks and streams. The functions compute nothing.
ghost use Rattle.inventory_engine.specs.Laws.{BlocksReadBack, LinesAreOne, OneFirstLine};

use std::alloc::Allocator;

/// What is written of the control blocks and streams of an event behind those of earlier events is one: whatever says it
/// says the same.
pub fn lines_are_one()
    ensures { LinesAreOne }
{}

/// Of each control block and each stream that occurs there is exactly one first line: at its first place.
pub fn one_first_line()
    ensures { OneFirstLine }
{}

/// The text of a control block, where its gocbRef, datSet and goID can stand in a BLOCK, is read as the block that its frame
/// shows.
pub fn blocks_read_back<A: Allocator>()
    ensures { BlocksReadBack A }
{}
