//! Tests of the publisher, the subscriber and their laws, of `block_core`, `script_core`, `words_core`, the crates of engines
//! and `goose_cmd` by their public calls.
#![tactic(auto)]

#[cfg(test)]
mod blocks;
#[cfg(test)]
mod command_line;
#[cfg(test)]
mod devices;
#[cfg(test)]
mod endings;
#[cfg(test)]
mod engines;
#[cfg(test)]
mod exchange;
#[cfg(test)]
mod growths;
#[cfg(test)]
mod laws;
#[cfg(test)]
mod limits;
#[cfg(test)]
mod listing;
#[cfg(test)]
mod losses;
#[cfg(test)]
mod runs;
#[cfg(test)]
mod scripts;
#[cfg(test)]
mod styles;
