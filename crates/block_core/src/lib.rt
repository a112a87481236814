//! Control blocks that are subscribed to, and the text by which an engineer names one:
//!
//! ```text
//! 3001,BAY1PROT/LLN0$GO$gcbTrip,BAY1PROT/LLN0$dsTrip,BAY1_Trip,1,2
//! APPID,gocbRef,datSet,goID,confRev,entries
//! ```
#![tactic(auto)]

mod block;
mod block_text;
pub mod commas;

pub use crate::block::Block;
pub use crate::block_text::{BlockError, read_block};
