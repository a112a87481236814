//! Laws about what the engines write. The functions compute nothing.
ghost use Rattle.frame_engines.specs.Laws.{ImportedListsSayTheirCapture};

use std::alloc::Allocator;

/// The list that `import` writes of a whole capture in the classic form, of at most 999,999 records of 1 to 2,000 octets
/// each, says the events of the capture, each on the line behind that of its number, and ends without a fault as the
/// capture does.
pub fn an_imported_list_says_its_capture<A: Allocator>()
    ensures { ImportedListsSayTheirCapture A }
{}
