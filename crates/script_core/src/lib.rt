//! The scripts of `publish`: what each line of one says after those before it, or why it is refused.
#![tactic(auto)]

pub mod laws;
mod script;
mod script_control;
mod script_line;
mod script_lines;

pub use block_core::{BlockError, read_block};
pub use script::{ScriptCause, ScriptItem, ScriptLines, ScriptPart};
