//! The lines of the control blocks that `replay` takes of a file.

ghost use Rattle.std.specs.Prelude.{◌≡◌};
ghost use Rattle.text_core.specs.Pieces.{AppendsText};
ghost use Rattle.inventory_engine.specs.SubscribedText.{subscribed_in, subscribed_line, subscribed_object, subscribed_text};

use crate::listed_block::ListedBlock;
use engine_core::Style;
use object_core::Form;
use std::alloc::{AllocError, Allocator};
use text_core::pieces::put_decimal;

// Appends the line of a control block at its position.
fn put_line<A: Allocator>(
    out: &mut Vec<u8, A>,
    position: u64,
    block: &ListedBlock<A>,
) -> Result<(), AllocError>
    ensures { AppendsText result out.old.items out.new.items (subscribed_line position block.now) }
{
    out.extend_from_slice(b"subscribed ")?;
    put_decimal(out, position)?;
    out.extend_from_slice(b" ")?;
    out.extend_from_slice(block.text.as_slice())?;
    out.extend_from_slice(b"\n")
}

// Appends the object of a control block at its position.
fn put_object<A: Allocator>(
    out: &mut Vec<u8, A>,
    position: u64,
    block: &ListedBlock<A>,
) -> Result<(), AllocError>
    ensures { AppendsText result out.old.items out.new.items (subscribed_object position block.now) }
{
    out.extend_from_slice(b"{\"kind\":\"subscribed\",\"block\":")?;
    put_decimal(out, position)?;
    out.extend_from_slice(block.fields.as_slice())?;
    out.extend_from_slice(b"}\n")
}

// Appends what is written of a control block at its position, in a style.
fn put_subscribed<A: Allocator>(
    out: &mut Vec<u8, A>,
    style: Style,
    position: u64,
    block: &ListedBlock<A>,
) -> Result<(), AllocError>
    ensures { AppendsText result out.old.items out.new.items (subscribed_in style position block.now) }
{
    match style {
        Style::Lines(Form::Text) => put_line(out, position, block),
        Style::Lines(Form::Object(_)) => put_object(out, position, block),
        Style::Dated => {
            out.extend_from_slice(b"- ")?;
            put_line(out, position, block)
        }
    }
}

/// Appends what `replay` writes of the control blocks of a file before all else: a line for each that a BLOCK can name, with its
/// position among these, from 0.
pub fn put_all_subscribed<A: Allocator>(
    out: &mut Vec<u8, A>,
    style: Style,
    listed: &[ListedBlock<A>],
) -> Result<(), AllocError>
    ensures { AppendsText result out.old.items out.new.items (subscribed_text style listed.now) }
{
    let mut position = 0u64;
    for block in listed {
        if block.is_named {
            put_subscribed(out, style, position, block)?;
            position += 1;
        }
    }
    Ok(())
}
