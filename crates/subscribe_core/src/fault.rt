//! Why there is no subscriber of some blocks.

use std::alloc::AllocError;
use thiserror::Error;

/// Why there is no subscriber of some blocks.
#[derive(Debug, Drop, Error)]
pub enum SubscribeFault {
    /// The block at this position has the APPID and the gocbRef of an earlier one. It is the first such.
    #[error("block {0} has the APPID and the gocbRef of an earlier one")]
    SameBlockTwice(usize),
    /// Memory was wanted.
    #[error("out of memory")]
    Memory(AllocError),
}
