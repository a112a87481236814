//! A memory of frames: what a control block says again and again is compared, not read again (IEC 61850-8-1, retransmission).
#![tactic(auto)]

mod again;
mod alike;
mod beside;
mod held;
mod memory;
mod notes;
mod noting;
mod numbers;
mod other_form;
mod showing;

pub use crate::again::Again;
pub use crate::beside::{Beside, Nothing};
pub use crate::memory::FrameMemory;
pub use crate::other_form::OtherForm;
