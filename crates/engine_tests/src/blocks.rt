//! Control blocks from their texts.

use goose_cmd::{BlockError, read_block};
use std::alloc::{Allocator, Global};
use subscribe_core::Block;
use test_support::RefusingAlloc;

/// The fields of a block.
#[derive(Clone, Copy)]
pub(super) struct Fields {
    pub app_id: u16,
    pub gocb_ref: &'static [u8],
    pub dat_set: &'static [u8],
    pub go_id: Option<&'static [u8]>,
    pub conf_rev: u32,
    pub entries: u32,
}

/// Whether a block has these fields.
pub(super) fn has_fields<A: Allocator>(block: &Block<A>, wanted: &Fields) -> bool {
    let has_its_id = match (&block.go_id, wanted.go_id) {
        (Some(go_id), Some(text)) => go_id.as_slice() == text,
        (None, None) => true,
        _ => false,
    };
    has_its_id
        && block.app_id == wanted.app_id
        && block.gocb_ref.as_slice() == wanted.gocb_ref
        && block.dat_set.as_slice() == wanted.dat_set
        && block.conf_rev == wanted.conf_rev
        && block.entries == wanted.entries
}

// Texts of blocks: of each field the least and the greatest, and a gocbRef of 129 octets.
const BLOCKS: [(&str, Fields); 4] = [
    (
        "aBcD,G,,I,4294967295,0",
        Fields {
            app_id: 0xABCD,
            gocb_ref: b"G",
            dat_set: b"",
            go_id: Some(b"I"),
            conf_rev: 4_294_967_295,
            entries: 0,
        },
    ),
    (
        "0001,G,D,,1,1",
        Fields {
            app_id: 1,
            gocb_ref: b"G",
            dat_set: b"D",
            go_id: None,
            conf_rev: 1,
            entries: 1,
        },
    ),
    (
        "0000,,,,0,4294967295",
        Fields {
            app_id: 0,
            gocb_ref: b"",
            dat_set: b"",
            go_id: None,
            conf_rev: 0,
            entries: 4_294_967_295,
        },
    ),
    (
        "0001,IED1LD0123456789012345678901234567890123456789012345678901/LLN0$GO$gcb01234567890123456789012345678901234567890123456789012345678,IED1LD0/LLN0$dsTrip,TRIP,1,2",
        Fields {
            app_id: 1,
            gocb_ref: b"IED1LD0123456789012345678901234567890123456789012345678901/LLN0$GO$gcb01234567890123456789012345678901234567890123456789012345678",
            dat_set: b"IED1LD0/LLN0$dsTrip",
            go_id: Some(b"TRIP"),
            conf_rev: 1,
            entries: 2,
        },
    ),
];

// Whether the text is a block with these fields.
fn is_block(alloc: Global, text: &str, wanted: &Fields) -> bool {
    match read_block(alloc, text) {
        Ok(block) => has_fields(&block, wanted),
        Err(_) => false,
    }
}

#[test]
fn six_fields_are_a_block(rt: HostRuntime) {
    for (text, wanted) in BLOCKS {
        assert!(rt; is_block(rt.alloc(), text, &wanted), "{text}");
    }
}

// Whether the text is no block.
fn is_none(alloc: &RefusingAlloc<Global>, text: &str) -> bool {
    matches!(read_block(alloc, text), Err(BlockError::BlockForm))
}

#[test]
fn other_texts_are_none(rt: HostRuntime) {
    // It is told whatever memory there is.
    let alloc = RefusingAlloc::new(rt.alloc(), 0);
    for text in [
        "",
        "0001,G,D,,1",
        "1,G,D,,1,1",
        "0001,G,D,,4294967296,1",
        "0001,G,D\t,,1,1",
    ] {
        assert!(rt; is_none(&alloc, text), "{text}");
    }
    assert!(rt; !alloc.has_refused());
}

// The block of which each text is refused memory in turn.
const TEXTS: Fields = Fields {
    app_id: 1,
    gocb_ref: b"G",
    dat_set: b"D",
    go_id: Some(b"I"),
    conf_rev: 1,
    entries: 1,
};

// Whether the block has its fields. None where memory is refused.
fn is_whole(alloc: &RefusingAlloc<Global>) -> Option<bool> {
    match read_block(alloc, "0001,G,D,I,1,1") {
        Ok(block) => Some(has_fields(&block, &TEXTS)),
        Err(BlockError::Memory(_)) => None,
        Err(_) => Some(false),
    }
}

// A block that is refused this growth is refused as a whole, and given once memory is granted. Answers whether a growth was
// refused. None where it is otherwise.
fn met_refusal(memory: Global, first_refused: usize) -> Option<bool> {
    let alloc = RefusingAlloc::new(memory, first_refused);
    let told = is_whole(&alloc);
    let met = alloc.has_refused();
    let is_right = if met {
        told.is_none() && alloc.blocks_out() == 0
    } else {
        told == Some(true)
    };
    alloc.allow();
    if is_right && is_whole(&alloc) == Some(true) {
        Some(met)
    } else {
        None
    }
}

#[test]
fn memory_is_refused_for_the_texts_of_a_block(rt: HostRuntime) {
    // Three texts, and no growth more.
    for first_refused in 0..4usize {
        let met = met_refusal(rt.alloc(), first_refused);
        assert!(rt; met == Some(first_refused < 3), "at {first_refused}");
    }
}
