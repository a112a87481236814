//! Captures, read from a source of octets. `PacketReader` reads a capture of any length packet by packet, in the classic form
//! of libpcap, a header of 24 octets and then records, or in pcapng, sections of blocks. `read_header` and `read_record` read
//! the classic form one record at a time.
//!
//! ```text
//! header  magic number 4, version 2 + 2, ignored 8, snapshot length 4 (not looked at), link type 4
//! record  seconds 4, fraction 4, captured length 4, original length 4 (not looked at), the captured octets
//! ```
//!
//! The numbers stand in the octet order in which the magic number does: `a1b2c3d4` where fractions of a second are
//! microseconds, `a1b23c4d` where they are nanoseconds.
#![tactic(auto)]

mod at_hand;
mod block;
mod body;
mod capture_fault;
mod filling;
mod form;
mod header;
mod interface;
pub mod laws;
mod numbers;
mod options;
mod packet_block;
mod packet_reader;
mod packet_record;
mod read_packets;
mod record;
mod start;

pub use crate::capture_fault::{CaptureCause, CaptureFault};
pub use crate::form::{CaptureForm, FractionUnit, OctetOrder};
pub use crate::header::read_header;
pub use crate::packet_reader::PacketReader;
pub use crate::record::{Captured, LONGEST_FRAME, read_record};
