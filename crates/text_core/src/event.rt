//! The line of a frame in a list.
ghost use Rattle.std.specs.Prelude.{◌++◌, codes};
ghost use Rattle.std.specs.Fmt.{decimal};
ghost use Rattle.hex.specs.Hex.{encode_lower};
ghost use Rattle.text_core.specs.Pieces.{AppendsText};

use crate::pieces::put_hexadecimal;
use crate::short::ShortText;
use std::alloc::{AllocError, Allocator};

/// Appends the line of a frame in a list of version 2: the moment in microseconds, and the octets.
pub fn put_frame_event<A: Allocator>(
    out: &mut Vec<u8, A>,
    moment: u64,
    octets: &[u8],
) -> Result<(), AllocError>
    ensures { AppendsText result out.old.items out.new.items (codes "F " ++ decimal moment ++ codes " " ++ encode_lower octets.now ++ codes "\n") }
{
    let mut text = ShortText::new();
    text.put(b" ");
    text.put_decimal(moment);
    text.put(b"F ");
    text.append_to(out)?;
    put_hexadecimal(out, octets)?;
    out.extend_from_slice(b"\n")
}
