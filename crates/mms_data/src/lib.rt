//! Values of Data (ISO 9506-2), nested up to sixteen levels: read from their spellings, seen where they
//! stand, copied, and written in one form.
#![tactic(auto)]

mod checking;
mod contents;
mod copying;
mod elements;
mod fault;
mod kinds;
mod known;
pub mod laws;
mod measuring;
mod owning;
mod putting;
mod reading;
mod spellable;
pub mod standing;
mod time;
pub mod utc;
mod value;
mod view;
mod view_writing;
pub mod writing;

pub use crate::checking::check_members;
pub use crate::elements::put_element;
pub use crate::fault::{PutFault, ReadFault};
pub use crate::measuring::header_length;
pub use crate::reading::{counted_members, members, read_members};
pub use crate::spellable::{are_spellable, is_spellable};
pub use crate::time::UtcTime;
pub use crate::value::{BitText, Value, ValueList};
pub use crate::view::{BitView, CountedMembers, Members, View};
pub use crate::view_writing::put_members;
pub use crate::writing::{put_value, put_values, spelled_length};
pub use ber_core::Octets;
