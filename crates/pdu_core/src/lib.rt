//! The APDUs of GOOSE (IEC 61850-8-1) and of Sampled Values (IEC 61850-9-2): seen where they stand, read into memory
//! of their own, and written.
#![tactic(auto)]

mod fields;
mod goose;
pub mod laws;
mod owning;
mod parts;
mod putting;
mod reading;
mod sampled;
mod spellable;
mod view;
mod view_measuring;
mod view_writing;
mod viewing;
mod writing;

pub use crate::goose::GoosePdu;
pub use crate::parts::{GooseParts, slice_if};
pub use crate::reading::read_goose;
pub use crate::sampled::asdu::{Asdu, AsduList, SvPdu};
pub use crate::sampled::reading::read_sv;
pub use crate::sampled::spellable::is_spellable_sv;
pub use crate::sampled::view::{AsduView, Asdus, SvView};
pub use crate::sampled::view_writing::put_sv_view;
pub use crate::sampled::viewing::{see_sv, view_sv};
pub use crate::sampled::writing::put_sv;
pub use crate::spellable::{are_spellable_parts, is_spellable};
pub use crate::view::GooseView;
pub use crate::view_measuring::written_goose_length;
pub use crate::view_writing::put_goose_view;
pub use crate::viewing::{see_goose, view_goose};
pub use crate::writing::{put_goose, put_goose_parts};
