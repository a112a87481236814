//! A tally of numbered things by their kinds: of frames by their EtherTypes, or of packets by their link types.
#![tactic(auto)]

mod kind_tally;
pub mod laws;

pub use crate::kind_tally::{KindTally, KindTotal, Total};
