//! The engines that speak of frames one by one: `show`, `check` and `rewrite` of a list, and `import` of a capture.
#![tactic(auto, using(text_core::proofs::Fronts::front_before))]

mod engines;
pub mod laws;
pub mod texts;

pub use crate::engines::check::{check, check_over};
pub use crate::engines::import::{import, import_to_stop};
pub use crate::engines::rewrite::{rewrite, rewrite_to_stop};
pub use crate::engines::show::{show, show_over};
