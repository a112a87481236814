//! Frames read and written; lists over memory, in any pieces, and where a device fails.

mod adapters;
mod each_octet;
mod frame_reading;
mod frame_writing;
mod frames;
mod line_reading;
mod list_reading;
mod list_writing;
mod making;
mod other_types;
mod refused_lists;
mod sampled_frames;
pub mod sentences;
mod skipping;
mod unwrapping;
