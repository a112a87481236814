//! What a task asks for is done by its engine: over a list, a script or a capture, by its options; and why the input ended a run
//! is said as a sentence, with what its line tells to do about it.
#![tactic(auto)]

mod advising;
mod event_input;
mod event_tasks;
mod listing;
mod over_events;
mod performed;
mod performing;
mod stop;
mod told;

pub use crate::advising::Advice;
pub use crate::listing::{Listed, list_blocks, replay_listed};
pub use crate::performed::{Notes, Performed};
pub use crate::performing::perform;
pub use crate::stop::Stop;
pub use crate::told::Told;
pub use inventory_engine::{FoundBlocks, ListedBlock};
pub use loss_engine::Unjudged;
