//! Sampled Values (IEC 61850-9-2): savPdu and its ASDUs.

pub mod asdu;
mod asdus;
mod elements;
mod fields;
mod known;
mod lending;
mod owning;
mod putting;
pub mod reading;
pub mod spellable;
mod usual;
pub mod view;
pub mod view_writing;
pub mod viewing;
pub mod writing;
