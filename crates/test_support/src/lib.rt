//! What tests start from: two frames, readers and writers that fail when told to, and an allocator that refuses growth number k
//! and every growth after it until asked again.
#![tactic(auto)]

mod allocator;
mod devices;
mod frames;
mod refusing;

pub use crate::devices::{
    CountsLines, Endless, FailsOnce, FullDisk, Give, KINDS, Keep, NEVER, sink_of, source_of,
};
pub use crate::frames::{FRAME, SAMPLED};
pub use crate::refusing::RefusingAlloc;
