//! Entries that are held in the order of their keys, in runs: a look-up takes about so many steps as their number has binary
//! digits, and one more moves the entries of one run.
#![tactic(auto)]

mod positions;
mod probe;
mod ranks;
mod runs;

pub use crate::positions::find_position;
pub use crate::probe::Probe;
pub use crate::ranks::rank;
pub use crate::runs::{Place, Runs};
