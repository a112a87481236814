//! Appending the fields of an ASDU that may be absent, kind by kind. Where a field does not fit, nothing is said of `out`, which then
//! is given up.

ghost use Rattle.std.specs.Prelude.{◌≡◌, ◌≤◌, ◌<◌, ◌+◌, ◌^◌, ◌++◌, length, IsOk, OnOk};
ghost use Rattle.arrayvec.specs.ArrayVec.{array_vec_len};
ghost use Rattle.ber_core.specs.Element.{IsIdentifier};
ghost use Rattle.pdu_core.specs.Asdu.{fixed_if, some_octets_if, time_if};
ghost use Rattle.pdu_core.specs.Views.{octets_if};
ghost use Rattle.pdu_core.specs.Written.{written_field};

use arrayvec::ArrayVec;
use ber_core::Full;
use mms_data::{UtcTime, put_element};

// Appends the field of a number of two octets, if there is one.
pub fn put_u16_if<const N: usize>(
    out: &mut ArrayVec<u8, N>,
    identifier: u8,
    number: Option<u16>,
) -> Result<(), Full>
    requires identifier { IsIdentifier identifier }
    ensures enough { array_vec_len out.old + length (written_field identifier (fixed_if 2 number)) ≤ N → IsOk result }
    ensures written { OnOk result (out.new.items ≡ out.old.items ++ written_field identifier (fixed_if 2 number)) }
{
    match number {
        Some(number) => put_element(out, identifier, &number.to_be_bytes()),
        None => Ok(()),
    }
}

// Appends the field of a time, if there is one.
pub fn put_time_if<const N: usize>(
    out: &mut ArrayVec<u8, N>,
    identifier: u8,
    time: Option<UtcTime>,
) -> Result<(), Full>
    requires identifier { IsIdentifier identifier }
    ensures enough { array_vec_len out.old + length (written_field identifier (time_if time)) ≤ N → IsOk result }
    ensures written { OnOk result (out.new.items ≡ out.old.items ++ written_field identifier (time_if time)) }
{
    match time {
        Some(time) => put_element(out, identifier, &time.to_octets()),
        None => Ok(()),
    }
}

// Appends the field of octets, if there are any.
#[tactic(auto, using(mms_data::proofs::Sizes::element_size))]
pub fn put_octets_if<const N: usize>(
    out: &mut ArrayVec<u8, N>,
    identifier: u8,
    octets: Option<&[u8]>,
) -> Result<(), Full>
    requires identifier { IsIdentifier identifier }
    ensures enough { length (written_field identifier (some_octets_if (octets_if octets.entry))) < 2 ^ 32 → array_vec_len out.old + length (written_field identifier (some_octets_if (octets_if octets.entry))) ≤ N → IsOk result }
    ensures written { OnOk result (out.new.items ≡ out.old.items ++ written_field identifier (some_octets_if (octets_if octets.entry))) }
{
    match octets {
        Some(octets) => put_element(out, identifier, octets),
        None => Ok(()),
    }
}
