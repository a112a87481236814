//! The date of a moment, as it is written before a line and in an object.
#![tactic(auto)]

mod date;
pub mod laws;

pub use crate::date::date_of;
