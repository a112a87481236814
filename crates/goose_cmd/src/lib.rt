//! The engines of `goose` but `losses`, its command line and the laws, under one name.
#![tactic(auto)]

pub mod laws;

pub use block_core::{BlockError, read_block};
pub use engine_core::{Ending, status};
pub use exchange_engines::{publish, replay, watch};
pub use frame_engines::{check, import, rewrite, show};
pub use inventory_engine::blocks;
pub use words_core::{Options, Request, Task, WordsError, Writing, read_request, read_words};
