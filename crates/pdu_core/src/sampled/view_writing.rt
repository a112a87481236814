//! Appending an APDU of Sampled Values in its written form from where it stands.

ghost use Rattle.std.specs.Prelude.{◌≡◌, ◌≤◌, ◌<◌, ◌+◌, ◌^◌, ◌↔◌, ◌++◌, length, IsOk, OnOk, OnErr};
ghost use Rattle.arrayvec.specs.ArrayVec.{array_vec_len};
ghost use Rattle.pdu_core.specs.Sampled.{SpellsSv};
ghost use Rattle.pdu_core.specs.SampledSpellable.{IsSpellableSv};
ghost use Rattle.pdu_core.specs.SampledViews.{asdus_left, sv_of};
ghost use Rattle.pdu_core.specs.SampledWritten.{HasWrittenSv, written_asdus, written_sv};
ghost use Rattle.pdu_core.specs.Written.{Appends};

use crate::sampled::elements::{put_asdu, put_sampled_apdu};
use crate::sampled::view::{Asdus, SvView};
use arrayvec::ArrayVec;
use ber_core::Full;

// Appends the ASDUs, one after the other.
fn put_each<const N: usize>(out: &mut ArrayVec<u8, N>, asdus: Asdus<'_>) -> Result<(), Full>
    ensures enough { length (written_asdus (asdus_left {A = Unit {0}} asdus.entry)) < 2 ^ 32 → array_vec_len out.old + length (written_asdus (asdus_left {A = Unit {0}} asdus.entry)) ≤ N → IsOk result }
    ensures written { OnOk result (out.new.items ≡ out.old.items ++ written_asdus (asdus_left {A = Unit {0}} asdus.entry)) }
{
    for asdu in asdus {
        put_asdu(out, &asdu)?;
    }
    Ok(())
}

/// Appends the written form of the APDU that the view stands for, each length and noASDU in the fewest octets, where it
/// fits; else `out` is unchanged. Whether each field has a spelling is not judged: those of a view that `view_sv` answers
/// do, and of a changed view, as of one with no ASDUs left, what is written may spell nothing.
///
/// # Errors
///
/// `Full`, where the contents have more than 4294967295 octets, or the written form does not fit in what is left.
pub fn put_sv_view<const N: usize>(out: &mut ArrayVec<u8, N>, view: &SvView<'_>) -> Result<(), Full>
    ensures fits { IsOk result ↔ (HasWrittenSv (sv_of {A = Unit {0}} view.now) × (array_vec_len out.old + length (written_sv (sv_of {A = Unit {0}} view.now)) ≤ N)) }
    ensures written { OnOk result (out.new.items ≡ out.old.items ++ written_sv (sv_of {A = Unit {0}} view.now)) }
    ensures unchanged { OnErr result (out.new ≡ out.old) }

    // What is appended spells the APDU, where there are 1 to 65535 ASDUs and each of their fields has a spelling.
    ensures spelled { IsSpellableSv (sv_of {A = Unit {0}} view.now) → OnOk result (Appends (SpellsSv (sv_of {A = Unit {0}} view.now)) out.old.items out.new.items) }
{
    put_written(out, view)
}

// Appends the written form.
fn put_written<const N: usize>(out: &mut ArrayVec<u8, N>, view: &SvView<'_>) -> Result<(), Full>
    ensures fits { IsOk result ↔ (HasWrittenSv (sv_of {A = Unit {0}} view.now) × (array_vec_len out.old + length (written_sv (sv_of {A = Unit {0}} view.now)) ≤ N)) }
    ensures written { OnOk result (out.new.items ≡ out.old.items ++ written_sv (sv_of {A = Unit {0}} view.now)) }
    ensures unchanged { OnErr result (out.new ≡ out.old) }
{
    let mut contents = ArrayVec::<u8, N>::new();
    put_each(&mut contents, view.asdus)?;
    put_sampled_apdu(out, view.count as usize, contents.as_slice())
}
