//! What is said of things that were counted.

use std::fmt;
use tally_core::Total;

/// Writes from which one on there were some.
pub fn write_first<W: fmt::Write>(f: &mut fmt::Formatter<W>, total: Total) -> fmt::Result {
    write!(f, ", from {} on", total.first)
}
