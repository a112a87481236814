//! Why a reader gives nothing further.

use std::alloc::AllocError;

/// Why a reader gives no further item, or a line none.
#[derive(Drop)]
pub enum ReadError<F> {
    /// What is wrong in what was read: the input's first fault, or why the line is refused.
    Fault(F),
    /// Memory was wanted.
    Memory(AllocError),
}
