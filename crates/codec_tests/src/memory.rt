//! How a call that can want memory is tried: with ample memory it gives what the octets were made of, and each growth is
//! refused in turn.

use crate::mms::memory::{are_copied, are_made, are_read, is_first_copied, is_first_made};
use crate::pdu::{goose_memory, sampled_memory};
use mms_data::ReadFault;
use std::alloc::Global;
use std::process::Abort;
use test_support::RefusingAlloc;

/// What the calls are tried with.
pub type Memory<'a> = &'a RefusingAlloc<Global>;

/// The calls that can want memory.
#[derive(Clone, Copy, Debug)]
pub enum Call {
    ReadMembers,
    ToValues,
    CopyList,
    ToValue,
    CopyValue,
    ReadGoose,
    ToGoosePdu,
    ReadSv,
    ToSvPdu,
    ToAsdu,
}

/// Whether the call gives what the octets were made of.
pub fn gives(call: Call, memory: Memory<'_>, octets: &[u8]) -> Result<bool, ReadFault> {
    match call {
        Call::ReadMembers => are_read(memory, octets),
        Call::ToValues => are_made(memory, octets),
        Call::CopyList => are_copied(memory, octets),
        Call::ToValue => is_first_made(memory, octets),
        Call::CopyValue => is_first_copied(memory, octets),
        Call::ReadGoose => goose_memory::is_read(memory, octets),
        Call::ToGoosePdu => goose_memory::is_made(memory, octets),
        Call::ReadSv => sampled_memory::is_read(memory, octets),
        Call::ToSvPdu => sampled_memory::is_made(memory, octets),
        Call::ToAsdu => sampled_memory::is_first_made(memory, octets),
    }
}

// Whether the call gives what the octets were made of, as an answer alone.
fn gives_all(call: Call, memory: Memory<'_>, octets: &[u8]) -> bool {
    matches!(gives(call, memory, octets), Ok(true))
}

/// With ample memory each of the calls gives what the octets were made of.
pub fn are_owned<H: Abort>(rt: &H, memory: Memory<'_>, calls: &[Call], octets: &[u8]) {
    for call in calls {
        assert!(rt; gives_all(*call, memory, octets), "{call:?} of {octets:?}");
    }
}

/// With ample memory each of the calls answers; that it answers what the octets were made of is proved.
pub fn are_answered<H: Abort>(rt: &H, memory: Memory<'_>, calls: &[Call], octets: &[u8]) {
    for call in calls {
        assert!(rt;
            gives(*call, memory, octets).is_ok(),
            "{call:?} of {octets:?}"
        );
    }
}

// Whether the call, where this growth is refused, says so, keeps nothing, and gives what the octets were made of once
// memory is granted.
fn is_refused(memory: Memory<'_>, call: Call, octets: &[u8], first_refused: usize) -> bool {
    memory.refuse_from(first_refused);
    let is_error = gives(call, memory, octets).is_err();
    let is_told = is_error && memory.has_refused() && memory.blocks_out() == 0;
    memory.allow();
    is_told && gives_all(call, memory, octets)
}

/// Whether the call gives what the octets were made of as soon as so many growths are granted, and where one of them is
/// refused, once memory is granted.
pub fn takes(memory: Memory<'_>, call: Call, octets: &[u8], growths: usize) -> bool {
    for first_refused in 0..growths {
        if !is_refused(memory, call, octets, first_refused) {
            return false;
        }
    }
    memory.refuse_from(growths);
    gives_all(call, memory, octets) && memory.blocks_out() == 0
}
