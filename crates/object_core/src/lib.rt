//! The objects of JSON that `goose` writes in place of text: what they begin with, fields, times, members of data sets, faults.
#![tactic(auto, using(text_core::proofs::Fronts::front_before))]

mod counted;
pub mod event;
pub mod fields;
pub mod floats;
mod last_object;
mod leaves;
pub mod members;
pub mod owned;
pub mod times;

pub use crate::counted::{Counted, Form, Heading};
pub use crate::last_object::LastObject;
