//! Appending one element.

ghost use Rattle.std.specs.Prelude.{◌≡◌, ◌≤◌, ◌<◌, ◌+◌, ◌^◌, ◌↔◌, ◌++◌, length, IsOk, OnOk, OnErr};
ghost use Rattle.arrayvec.specs.ArrayVec.{array_vec_len};
ghost use Rattle.ber_core.specs.Element.{IsIdentifier};
ghost use Rattle.ber_core.specs.Written.{written_element};

use arrayvec::ArrayVec;
use ber_core::{Full, put_header};

/// Appends the element of this identifier and these contents, its length in the fewest octets; the identifier's low
/// five bits are not all ones.
///
/// # Errors
///
/// `Full` exactly where the contents have more than 4294967295 octets, or the element does not fit; `out` is then
/// unchanged.
#[inline(always)]
#[tactic(auto, unfolding(ber_core::specs::Written::written_element))]
pub fn put_element<const N: usize>(
    out: &mut ArrayVec<u8, N>,
    identifier: u8,
    contents: &[u8],
) -> Result<(), Full>
    requires identifier { IsIdentifier identifier }
    ensures fits { IsOk result ↔ ((length contents.now < 2 ^ 32) × (array_vec_len out.old + length (written_element identifier contents.now) ≤ N)) }
    ensures written { OnOk result (out.new.items ≡ out.old.items ++ written_element identifier contents.now) }
    ensures unchanged { OnErr result (out.new ≡ out.old) }
{
    if 0xffff_ffff < contents.len() {
        return Err(Full);
    }
    let start = out.len();
    put_header(out, identifier, contents.len())?;
    if out.try_extend_from_slice(contents).is_err() {
        out.truncate(start);
        return Err(Full);
    }
    Ok(())
}
