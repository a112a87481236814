//! The command line of `goose`: which task its words ask for, and with which options.
#![tactic(auto)]

mod option_words;
mod period_words;
mod words;

pub use option_words::{Options, Writing};
pub use words::{Request, Task, WordsError, read_request, read_words};
