//! The engines that speak of what publishers and receiving devices do over a whole list or script: `replay`, `watch` and
//! `publish`.
#![tactic(auto, using(text_core::proofs::Fronts::front_before))]

mod engines;
pub mod texts;

pub use crate::engines::publish::{publish, publish_to_stop};
pub use crate::engines::replay::{
    PLAINLY, ReplayManner, ReplayStop, of_input, replay, replay_over,
};
pub use crate::engines::watch::{watch, watch_over};
