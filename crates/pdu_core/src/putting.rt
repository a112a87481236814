//! Appending the fields of an APDU, kind by kind. Where a field does not fit, nothing is said of `out`, which then
//! is given up.

ghost use Rattle.std.specs.Prelude.{◌≡◌, ◌≤◌, ◌<◌, ◌+◌, ◌^◌, ◌++◌, length, IsOk, OnOk, Some};
ghost use Rattle.arrayvec.specs.ArrayVec.{array_vec_len};
ghost use Rattle.ber_core.specs.Element.{IsIdentifier};
ghost use Rattle.ber_core.specs.Written.{written_element};
ghost use Rattle.mms_data.specs.Spellable.{AllAreSpellable};
ghost use Rattle.pdu_core.specs.Contents.{a_flag, a_number, some_members};
ghost use Rattle.pdu_core.specs.Goose.{text_if};
ghost use Rattle.pdu_core.specs.Views.{octets_if};
ghost use Rattle.pdu_core.specs.Written.{written_field};

use arrayvec::ArrayVec;
use ber_core::{Full, put_integer};
use mms_data::{ValueList, put_element, put_values};
use std::alloc::Allocator;

// Appends the field of a text, a time, a number in a stated count of octets, or octets.
#[tactic(auto, using(mms_data::proofs::Sizes::element_size))]
pub fn put_octets<const N: usize>(
    out: &mut ArrayVec<u8, N>,
    identifier: u8,
    octets: &[u8],
) -> Result<(), Full>
    requires identifier { IsIdentifier identifier }
    ensures enough { length (written_element identifier octets.now) < 2 ^ 32 → array_vec_len out.old + length (written_element identifier octets.now) ≤ N → IsOk result }
    ensures written { OnOk result (out.new.items ≡ out.old.items ++ written_element identifier octets.now) }
{
    put_element(out, identifier, octets)
}

// Appends the field of a text where it stands, if there is one.
#[tactic(auto, using(mms_data::proofs::Sizes::element_size))]
pub fn put_text_there<const N: usize>(
    out: &mut ArrayVec<u8, N>,
    identifier: u8,
    text: Option<&[u8]>,
) -> Result<(), Full>
    requires identifier { IsIdentifier identifier }
    ensures enough { length (written_field identifier (text_if (octets_if text.entry))) < 2 ^ 32 → array_vec_len out.old + length (written_field identifier (text_if (octets_if text.entry))) ≤ N → IsOk result }
    ensures written { OnOk result (out.new.items ≡ out.old.items ++ written_field identifier (text_if (octets_if text.entry))) }
{
    match text {
        Some(text) => put_element(out, identifier, text),
        None => Ok(()),
    }
}

// Appends the field of a number.
#[tactic(auto, unfolding(ber_core::specs::Written::written_element))]
pub fn put_number<const N: usize>(
    out: &mut ArrayVec<u8, N>,
    identifier: u8,
    number: u64,
) -> Result<(), Full>
    requires identifier { IsIdentifier identifier }
    ensures enough { array_vec_len out.old + length (written_field identifier (Some (a_number number))) ≤ N → IsOk result }
    ensures written { OnOk result (out.new.items ≡ out.old.items ++ written_field identifier (Some (a_number number))) }
{
    put_integer(out, identifier, i128::from(number))
}

// Appends the field of a boolean.
pub fn put_flag<const N: usize>(
    out: &mut ArrayVec<u8, N>,
    identifier: u8,
    flag: bool,
) -> Result<(), Full>
    requires identifier { IsIdentifier identifier }
    ensures enough { array_vec_len out.old + length (written_field identifier (Some (a_flag flag))) ≤ N → IsOk result }
    ensures written { OnOk result (out.new.items ≡ out.old.items ++ written_field identifier (Some (a_flag flag))) }
{
    if flag {
        put_element(out, identifier, &[0xff])
    } else {
        put_element(out, identifier, &[0])
    }
}

// Appends the field of members.
#[tactic(auto, using(mms_data::proofs::Sizes::element_size))]
pub fn put_members_field<A: Allocator, const N: usize>(
    out: &mut ArrayVec<u8, N>,
    identifier: u8,
    members: &ValueList<A>,
) -> Result<(), Full>
    requires identifier { IsIdentifier identifier }
    requires spellable { AllAreSpellable members.now 1 }
    ensures enough { length (written_field identifier (Some (some_members members.now))) < 2 ^ 32 → array_vec_len out.old + length (written_field identifier (Some (some_members members.now))) ≤ N → IsOk result }
    ensures written { OnOk result (out.new.items ≡ out.old.items ++ written_field identifier (Some (some_members members.now))) }
{
    let mut contents = ArrayVec::<u8, N>::new();
    if put_values(&mut contents, members).is_err() {
        return Err(Full);
    }
    put_element(out, identifier, contents.as_slice())
}
