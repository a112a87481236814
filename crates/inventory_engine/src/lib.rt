//! The engine that tells which control blocks and streams a list holds: `blocks`.
#![tactic(auto, using(text_core::proofs::Fronts::front_before))]

mod block_text;
mod engine;
mod inventory;
mod kept_block;
mod known;
pub mod laws;
mod listed_block;
mod listing;
mod pieces;
mod sighting;
mod stream_text;
mod subscribed;

pub use crate::engine::{blocks, blocks_over};
pub use crate::listed_block::ListedBlock;
pub use crate::listing::{FoundBlocks, find_blocks};
pub use crate::subscribed::put_all_subscribed;
