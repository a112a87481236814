//! What standard error says to a person of control blocks, of periods, of devices, of frames that were passed over, of packets that were not
//! captured on Ethernet, and of what to do about an input.
//! No program reads it, and no contract speaks of it: the tests compare all.

pub mod advice;
pub mod block_fields;
pub mod failure;
pub mod head;
pub mod left_out;
pub mod links;
pub mod passed;
pub mod period;
pub mod totals;
pub mod unheard;
pub mod unjudged;
