//! Frames without what a ring or a provider's network put round them: HSR tags (IEC 62439-3), and VLAN tags before another
//! (IEEE 802.1Q).
#![tactic(auto)]

pub mod laws;
mod tags;
mod unwrap;
mod unwrapping;

pub use crate::unwrap::{Changes, Unwrap};
pub use crate::unwrapping::unwrap_frame;
