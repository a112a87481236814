//! A subscriber of control blocks of GOOSE (IEC 61850-8-1): which frames are acted on, and when a block expires.
#![tactic(auto)]

mod answering;
mod deadlines;
mod entry;
mod entry_sink;
mod fault;
mod flagged;
mod guesses;
mod keeping;
pub mod laws;
mod matching;
mod names;
mod registers;
mod rows;
mod subscriber;
mod twice;
mod watch;

pub use crate::entry::{Entry, PlainEntry, Reason};
pub use crate::entry_sink::EntrySink;
pub use crate::fault::SubscribeFault;
pub use crate::subscriber::Subscriber;
pub use crate::watch::{Seen, Watch, WatchFault};
pub use block_core::Block;
