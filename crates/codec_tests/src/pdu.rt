//! The APDUs of GOOSE and of Sampled Values.

mod goose;
pub(crate) mod goose_memory;
mod sampled;
pub(crate) mod sampled_memory;
mod sampled_writing;
