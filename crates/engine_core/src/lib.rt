//! What an engine of the program `goose` is: a text over the items of an input, written by one run.
#![tactic(auto)]

mod dated;
mod ending;
mod event_engine;
pub mod laws;
mod running;
mod stopped;
mod style;

pub use crate::dated::put_dated;
pub use crate::ending::{Ending, status};
pub use crate::event_engine::{EventEngine, OfEvents, put_fault_in, run_events};
pub use crate::running::{
    Engine, Next, ended_by, ending_where, refuse, run, run_on, run_over, run_to_stop,
};
pub use crate::stopped::{Halt, Stopped};
pub use crate::style::{HasStyle, InText, Style};
pub use object_core::{Counted, Form};
