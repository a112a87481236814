//! Tests of `ber_core`, `mms_data`, `pdu_core`, `list_core`, `frame_core`, `unwrap_core` and `capture_core` by their public calls, and of the
//! allocator that refuses growths.
#![tactic(auto)]

#[cfg(test)]
mod ber;
#[cfg(test)]
mod capture;
#[cfg(test)]
mod frame;
#[cfg(test)]
mod memory;
#[cfg(test)]
mod mms;
#[cfg(test)]
mod pdu;
#[cfg(test)]
mod refusing;
