//! The texts of which the lines that `goose` writes are made: numbers, names, values and the short lines.
#![tactic(auto, using(crate::proofs::Fronts::front_before))]

pub mod event;
pub mod fields;
pub mod following;
mod last_line;
pub mod line;
pub mod names;
pub mod owned;
pub mod pieces;
pub mod short;
pub mod value;

pub use crate::last_line::LastLine;
