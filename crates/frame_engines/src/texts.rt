//! The texts and objects that these engines alone write.

pub mod frame;
pub mod frame_object;
pub mod kept;
pub mod sampled;
pub mod sampled_object;
mod settled;
