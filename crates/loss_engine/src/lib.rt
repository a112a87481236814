//! The engine of `goose losses`: what is missing of each control block and stream of an input, when, and how much.
#![tactic(auto, using(text_core::proofs::Fronts::front_before))]

mod closing;
mod engine;
mod entry;
mod key;
pub mod laws;
mod losses;
mod order;
mod roll;
mod telling;
mod texts;
mod unjudged;

pub use crate::engine::losses_over;
pub use crate::key::{Key, SenderKey, StreamKey};
pub use crate::unjudged::Unjudged;
pub use loss_core::Finding;
