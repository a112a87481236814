//! Numbers, each behind its name.
ghost use Rattle.std.specs.Prelude.{◌++◌};
ghost use Rattle.std.specs.List.{flat_map};
ghost use Rattle.std.specs.Fmt.{decimal};
ghost use Rattle.text_core.specs.Pieces.{AppendsText};
ghost use Rattle.loss_engine.specs.computed.NumberText.{number_text};

use std::alloc::{AllocError, Allocator};
use text_core::pieces::put_decimal;

/// A number behind its name. The name stands here as it is written, with the space or the comma before it.
#[derive(Clone, Copy)]
pub struct Number<'a>(pub &'a [u8], pub u64);

/// Appends a number behind its name.
pub fn put_number<A: Allocator>(
    out: &mut Vec<u8, A>,
    name: &[u8],
    number: u64,
) -> Result<(), AllocError>
    ensures { AppendsText result out.old.items out.new.items (name.now ++ decimal number) }
{
    out.extend_from_slice(name)?;
    put_decimal(out, number)
}

/// Appends numbers, one after the other.
pub fn put_numbers<A: Allocator>(
    out: &mut Vec<u8, A>,
    numbers: &[Number<'_>],
) -> Result<(), AllocError>
    ensures { AppendsText result out.old.items out.new.items (flat_map number_text numbers.now) }
{
    for number in numbers {
        put_number(out, number.0, number.1)?;
    }
    Ok(())
}
