//! Lists of recorded frames, clock moments and simulation modes, and the devices that octets are read from and written to.
//!
//! A list is octets in lines. After a first line `V2` moments are microseconds, else milliseconds:
//!
//! ```text
//! V2
//! # a comment, then the first octets of a frame at 0, the simulation mode on, the clock 2 seconds later
//! F 0 010ccd01000102000000000188b8
//! M 0 on
//! C 2000000
//! ```
#![tactic(auto)]

mod buffered;
mod cutting;
mod decimal;
mod device;
mod event;
mod event_lines;
mod first_line;
mod hexadecimal;
mod item_reader;
pub mod laws;
mod line_reader;
mod line_rules;
mod list_fault;
mod list_line;
mod list_reader;
mod list_writer;
mod read_error;
mod read_items;
mod std_io;
mod whole_write;

pub use crate::buffered::FromBuffered;
pub use crate::cutting::cut_first;
pub use crate::decimal::decimal_in;
pub use crate::device::{DeviceFault, InputEnd, Sink, Source};
pub use crate::event::{Event, EventKind};
pub use crate::event_lines::{EventLines, MomentUnit};
pub use crate::hexadecimal::{hexadecimal_digit, write_digits};
pub use crate::item_reader::ItemReader;
pub use crate::line_reader::LineReader;
pub use crate::line_rules::{ItemFault, LineRules};
pub use crate::list_fault::{ListCause, ListFault};
pub use crate::list_line::moment_in;
pub use crate::list_reader::{ListError, ListReader, fault_of_list};
pub use crate::list_writer::{FrameLines, write_event, write_frame};
pub use crate::read_error::ReadError;
pub use crate::read_items::{InputFault, ReadItems};
pub use crate::std_io::{FromRead, ToWrite};
pub use crate::whole_write::{WriteFault, put_all};
