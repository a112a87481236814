//! Laws about the definitions that the contracts of this crate cite. The functions compute nothing.

ghost use Rattle.script_core.specs.Laws.{LinesAreKept, LinesAreRead, LinesAreRefused, LinesSayItems};

use std::alloc::Allocator;

/// A name and fields are taken for a control line, a step, a change or a poll exactly where the relation of that kind holds
/// of them, and the line stands where one may stand.
pub fn lines_say_items<A: Allocator>()
    ensures { LinesSayItems A }
{}

/// A name and fields are refused for a cause exactly where the relation of that cause holds of them.
pub fn lines_are_refused<A: Allocator>()
    ensures { LinesAreRefused A }
{}

/// What the rules of a script answer for a line is what the line says after the lines before it: nothing, an item, or why it
/// is refused. A line has something to keep in memory exactly where it says a control block with a text that is not empty, or a
/// change with values.
pub fn lines_are_read<A: Allocator>()
    ensures read { LinesAreRead A }
    ensures kept { LinesAreKept A }
{}
