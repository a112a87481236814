//! The texts that these engines alone write.

pub mod entry;
pub mod entry_lines;
pub mod entry_object;
pub mod names;
pub mod sample;
pub mod sample_object;
pub mod script;
