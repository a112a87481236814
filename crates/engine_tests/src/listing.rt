//! The control blocks of a list that a replay of it takes, with ample memory and where each growth is refused.

use engine_core::Style;
use inventory_engine::{find_blocks, put_all_subscribed};
use list_core::{EventLines, ItemReader};
use object_core::{Counted, Form};
use std::alloc::{AllocError, Allocator, Global};
use test_support::{NEVER, RefusingAlloc, source_of};

/// Frames of three control blocks, of which the second has a text with a comma, and one of the first with another confRev; then a line
/// that is none, and behind it a frame of a fourth.
const LIST: &[u8] =
    b"F 0 010ccd01000102000000000188b80001003500000000612b800147810207d0820144840800000000000000008501018601008701008801018901008a0101ab038301ff\nF 1 010ccd01000102000000000188b80001003500000000612b800148810207d082012c840800000000000000008501018601008701008801018901008a0101ab038301ff\nF 2 010ccd01000102000000000188b80001003500000000612b800149810207d0820144840800000000000000008501018601008701008801018901008a0101ab038301ff\nF 3 010ccd01000102000000000188b80001003500000000612b800147810207d0820144840800000000000000008501018601008701008801028901008a0101ab038301ff\nX\nF 4 010ccd01000102000000000188b80001003500000000612b80014a810207d0820144840800000000000000008501018601008701008801018901008a0101ab038301ff\n";

/// All styles.
const STYLES: [Style; 3] = [
    Style::Lines(Form::Text),
    Style::Dated,
    Style::Lines(Form::Object(Counted::Line)),
];

// What is written of its control blocks.
fn wanted(style: Style) -> &'static [u8] {
    match style {
        Style::Lines(Form::Text) => b"subscribed 0 0001,G,D,,1,1\nsubscribed 1 0001,I,D,,1,1\n",
        Style::Dated => b"- subscribed 0 0001,G,D,,1,1\n- subscribed 1 0001,I,D,,1,1\n",
        Style::Lines(Form::Object(_)) => {
            b"{\"kind\":\"subscribed\",\"block\":0,\"appid\":\"0001\",\"gocbRef\":\"G\",\"datSet\":\"D\",\"goID\":null,\"confRev\":1,\"entries\":1}\n{\"kind\":\"subscribed\",\"block\":1,\"appid\":\"0001\",\"gocbRef\":\"I\",\"datSet\":\"D\",\"goID\":null,\"confRev\":1,\"entries\":1}\n"
        }
    }
}

// Whether its control blocks are found, three of which two have a BLOCK, and written so in a style.
fn are_found<A: Allocator + Copy>(alloc: A, style: Style) -> Result<bool, AllocError> {
    let mut events = ItemReader::new(source_of(LIST, 4096, NEVER), EventLines::First);
    let found = find_blocks(alloc, &mut events)?;
    let mut lines = Vec::new(alloc);
    put_all_subscribed(&mut lines, style, found.listed.as_slice())?;
    Ok(found.listed.len() == 3 && found.blocks.len() == 2 && lines.as_slice() == wanted(style))
}

// Whether a run that is refused this growth, and all after it, tells it, and one that is refused none finds all; and whether a growth was
// refused. None of a run that is otherwise.
fn met_refusal(memory: Global, style: Style, first_refused: usize) -> Option<bool> {
    let alloc = RefusingAlloc::new(memory, first_refused);
    let found = are_found(&alloc, style);
    let is_right = match found {
        Ok(are_found) => are_found && !alloc.has_refused(),
        Err(_) => alloc.has_refused(),
    };
    if is_right && alloc.blocks_out() == 0 {
        Some(alloc.has_refused())
    } else {
        None
    }
}

// How many growths a run has, each of which is refused in its turn.
fn growths(memory: Global, style: Style) -> Option<usize> {
    for first_refused in 0..1000usize {
        match met_refusal(memory, style, first_refused) {
            Some(true) => {}
            Some(false) => return Some(first_refused),
            None => return None,
        }
    }
    None
}

#[test]
fn control_blocks_of_a_list_are_found(rt: HostRuntime) -> Result<(), AllocError> {
    for style in STYLES {
        assert!(rt; are_found(rt.alloc(), style)?);
    }
    Ok(())
}

#[test]
fn control_blocks_are_looked_for_where_each_growth_is_refused(rt: HostRuntime) {
    for style in STYLES {
        let growths = growths(rt.alloc(), style);
        assert!(rt; matches!(growths, Some(count) if count > 5), "{growths:?}");
    }
}
