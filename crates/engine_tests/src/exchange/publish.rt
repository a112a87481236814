//! A run of a publisher whose frames are written out by hand, what is refused, and that it takes no memory.

mod counted_memory;
pub mod frames;
mod refusals;
mod run;
