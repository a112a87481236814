//! The texts that `losses` writes.

pub mod closing;
pub mod finding;
pub mod key;
pub mod number;
pub mod time_back;
pub mod told;
