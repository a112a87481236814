//! Frames of GOOSE (IEC 61850-8-1) and of Sampled Values (IEC 61850-9-2) as they stand on the wire.
#![tactic(auto)]

mod decoding;
mod encoding;
mod envelope;
mod frame;
mod frame_view;
mod goose_encoding;
pub mod laws;
mod other_type;
mod skip_other;
mod view_encoding;
mod viewing;
mod vlan_tag;

pub use crate::decoding::decode;
pub use crate::encoding::{EncodeFault, encode};
pub use crate::frame::{Apdu, Frame};
pub use crate::frame_view::{ApduView, FrameView};
pub use crate::goose_encoding::{GooseFrame, encode_goose};
pub use crate::other_type::other_ether_type;
pub use crate::skip_other::SkipOther;
pub use crate::view_encoding::{encode_view, written_length};
pub use crate::viewing::{see_frame, view_frame};
pub use crate::vlan_tag::VlanTag;
