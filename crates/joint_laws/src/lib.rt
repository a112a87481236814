//! Laws about the definitions of several crates together. The functions compute nothing, and the program does not use them.
#![tactic(auto)]

pub mod exchange;
pub mod lines;
pub mod objects;
pub mod texts;
