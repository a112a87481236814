//! Laws about what commands write as objects. The functions compute nothing.
ghost use Rattle.joint_laws.specs.JsonLines.{BlocksIsJson, CheckIsJson, LossesAreJson, ReplayIsJson, ShowIsJson, TwiceIsJson, WatchIsJson};
ghost use Rattle.joint_laws.specs.LinesBack.{LinesAreHadBack};

use std::alloc::Allocator;

/// What a command writes of an event as objects is lines, and each is one value of JSON (RFC 8259) in which no object has a
/// name twice; whichever text is chosen for a float. So is what a run wrote of all its events, and what `losses` writes at
/// their end.
pub fn objects_are_json<A: Allocator, C, F>()
    ensures show { ShowIsJson A C F }
    ensures check { CheckIsJson A C F }
    ensures replay { ReplayIsJson A C F }
    ensures twice { TwiceIsJson A }
    ensures watch { WatchIsJson A C F }
    ensures blocks { BlocksIsJson A C F }
    ensures losses { LossesAreJson A F }
{}

/// One function gives of the objects that any command writes of an event, or of all events of a run, the lines that it writes
/// without `--json`; and so of those that `losses` writes at the end. Nothing that the text says is lost. The same are
/// findings.
pub fn lines_are_had_back<A: Allocator, C, F>()
    ensures { LinesAreHadBack A C F }
{}
