//! Members of Data, appended in their written form from where they stand. Where a function that is not public finds no
//! room, nothing is said of `out`, which then is given up.

ghost use Rattle.std.specs.Prelude.{◌≡◌, ◌≤◌, ◌<◌, ◌+◌, ◌^◌, ◌++◌, ◌∷◌, ◌↔◌, length, IsOk, OnOk, OnErr};
ghost use Rattle.arrayvec.specs.ArrayVec.{array_vec_len};
ghost use Rattle.ber_core.specs.Element.{IsIdentifier};
ghost use Rattle.ber_core.specs.Written.{written_element};
ghost use Rattle.mms_data.specs.Contents.{cleared};
ghost use Rattle.mms_data.specs.Meaning.{left, meaning};
ghost use Rattle.mms_data.specs.Written.{written, written_all};

use crate::elements::put_element;
use crate::owning::clear;
use crate::putting::put_slice;
use crate::view::{BitView, Members, View};
use arrayvec::ArrayVec;
use ber_core::{Full, put_header, put_integer};

// Appends the octets of the bits, the unused ones set to 0.
fn put_cleared<const N: usize>(out: &mut ArrayVec<u8, N>, bits: BitView<'_>)
    requires { array_vec_len out.old + length bits.octets.now ≤ N }
    ensures { out.new.items ≡ out.old.items ++ cleared bits.entry.unused bits.entry.octets.now }
{
    match bits.octets {
        [] => {}
        [front @ .., last] => {
            put_slice(out, front);
            out.push(clear(*last, bits.unused));
        }
    }
}

// Appends the element of bits.
#[tactic(auto, using(crate::proofs::Sizes::bits_size))]
fn put_bits<const N: usize>(out: &mut ArrayVec<u8, N>, bits: BitView<'_>) -> Result<(), Full>
    ensures enough { length (written_element 0x84 (bits.entry.unused ∷ cleared bits.entry.unused bits.entry.octets.now)) < 2 ^ 32
        → array_vec_len out.old + length (written_element 0x84 (bits.entry.unused ∷ cleared bits.entry.unused bits.entry.octets.now)) ≤ N → IsOk result }
    ensures written { OnOk result (out.new.items ≡ out.old.items ++ written_element 0x84 (bits.entry.unused ∷ cleared bits.entry.unused bits.entry.octets.now)) }
{
    if 0xffff_fffe < bits.octets.len() {
        return Err(Full);
    }
    let size = bits.octets.len() + 1;
    put_header(out, 0x84, size)?;
    if out.remaining_capacity() < size {
        return Err(Full);
    }
    out.push(bits.unused);
    put_cleared(out, bits);
    Ok(())
}

// Appends the element of a value.
#[cycle(putting_views)]
#[tactic(auto, using(crate::proofs::Sizes::element_size), unfolding(ber_core::specs::Written::written_element))]
fn put_view<'a, const N: usize>(out: &mut ArrayVec<u8, N>, view: View<'a>) -> Result<(), Full>
    ensures enough { length (written (meaning view.entry)) < 2 ^ 32 → array_vec_len out.old + length (written (meaning view.entry)) ≤ N → IsOk result }
    ensures written { OnOk result (out.new.items ≡ out.old.items ++ written (meaning view.entry)) }
{
    match view {
        View::Array(members) => put_members(out, 0xa1, members),
        View::Structure(members) => put_members(out, 0xa2, members),
        View::Boolean(is_true) => put_element(out, 0x83, &[if is_true { 0xff } else { 0 }]),
        View::Bits(bits) => put_bits(out, bits),
        View::Integer(number) => put_integer(out, 0x85, number as i128),
        View::Unsigned(number) => put_integer(out, 0x86, number as i128),
        View::Floating(octets) => put_element(out, 0x87, octets),
        View::Octets(octets) => put_element(out, 0x89, octets),
        View::Visible(octets) => put_element(out, 0x8a, octets),
        View::BinaryTime(octets) => put_element(out, 0x8c, octets),
        View::MmsText(octets) => put_element(out, 0x90, octets),
        View::Utc(time) => put_element(out, 0x91, &time.to_octets()),
    }
}

// Appends the written forms of members, one after the other.
#[cycle(putting_views)]
fn put_each<'a, const N: usize>(out: &mut ArrayVec<u8, N>, members: Members<'a>) -> Result<(), Full>
    ensures enough { length (written_all (left members.entry)) < 2 ^ 32 → array_vec_len out.old + length (written_all (left members.entry)) ≤ N → IsOk result }
    ensures written { OnOk result (out.new.items ≡ out.old.items ++ written_all (left members.entry)) }
{
    let mut others = members;
    'members: while let Some(view) = others.next() {
        put_view(out, view)?;
    }
    Ok(())
}

/// Appends the element of this identifier whose contents are the written forms of the members, one after the other, where
/// it fits; else `out` is unchanged. The identifier's low five bits are not all ones.
///
/// # Errors
///
/// `Full` exactly where the contents have more than 4294967295 octets, or the element does not fit; `out` is then
/// unchanged.
#[cycle(putting_views)]
#[tactic(auto, using(crate::proofs::Sizes::element_size))]
pub fn put_members<'a, const N: usize>(
    out: &mut ArrayVec<u8, N>,
    identifier: u8,
    members: Members<'a>,
) -> Result<(), Full>
    requires identifier { IsIdentifier identifier }
    ensures fits { IsOk result ↔ ((length (written_all (left members.entry)) < 2 ^ 32) × (array_vec_len out.old + length (written_element identifier (written_all (left members.entry))) ≤ N)) }
    ensures written { OnOk result (out.new.items ≡ out.old.items ++ written_element identifier (written_all (left members.entry))) }
    ensures unchanged { OnErr result (out.new ≡ out.old) }
{
    if let Some(octets) = members.as_written() {
        return put_element(out, identifier, octets);
    }
    let mut contents = ArrayVec::<u8, N>::new();
    if put_each(&mut contents, members).is_err() {
        return Err(Full);
    }
    put_element(out, identifier, contents.as_slice())
}
