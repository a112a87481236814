//! Appending an APDU in its written form from where it stands.

ghost use Rattle.std.specs.Prelude.{◌≡◌, ◌≤◌, ◌<◌, ◌+◌, ◌^◌, ◌↔◌, ◌++◌, drop, length, IsOk, OnOk, OnErr};
ghost use Rattle.arrayvec.specs.ArrayVec.{array_vec_len};
ghost use Rattle.pdu_core.specs.Goose.{SpellsGoose, goose_fields, goose_items};
ghost use Rattle.pdu_core.specs.Spellable.{IsSpellableGoose};
ghost use Rattle.pdu_core.specs.Views.{pdu_of};
ghost use Rattle.pdu_core.specs.Written.{Appends, HasWrittenGoose, goose_contents, written_fields, written_goose};

use crate::putting::{put_flag, put_number, put_octets, put_text_there};
use crate::view::GooseView;
use arrayvec::ArrayVec;
use ber_core::Full;
use mms_data::{put_element, put_members};

// Appends the fields from gocbRef on.
fn put_fields<const N: usize>(out: &mut ArrayVec<u8, N>, view: &GooseView<'_>) -> Result<(), Full>
    ensures enough { length (goose_contents (pdu_of {A = Unit {0}} view.now)) < 2 ^ 32 → array_vec_len out.old + length (goose_contents (pdu_of {A = Unit {0}} view.now)) ≤ N → IsOk result }
    ensures written { OnOk result (out.new.items ≡ out.old.items ++ goose_contents (pdu_of {A = Unit {0}} view.now)) }
{
    put_octets(out, 0x80, view.gocb_ref)?;
    put_number(out, 0x81, u64::from(view.live))?;
    put_octets(out, 0x82, view.dat_set)?;
    put_text_there(out, 0x83, view.go_id)?;
    put_octets(out, 0x84, &view.t.to_octets())?;
    put_numbers(out, view)
}

// Appends the fields from stNum on.
fn put_numbers<const N: usize>(out: &mut ArrayVec<u8, N>, view: &GooseView<'_>) -> Result<(), Full>
    ensures enough { length (written_fields (drop 5 goose_fields) (drop 5 (goose_items (pdu_of {A = Unit {0}} view.now)))) < 2 ^ 32
        → array_vec_len out.old + length (written_fields (drop 5 goose_fields) (drop 5 (goose_items (pdu_of {A = Unit {0}} view.now)))) ≤ N → IsOk result }
    ensures written { OnOk result (out.new.items ≡ out.old.items ++ written_fields (drop 5 goose_fields) (drop 5 (goose_items (pdu_of {A = Unit {0}} view.now)))) }
{
    put_number(out, 0x85, u64::from(view.st_num))?;
    put_number(out, 0x86, u64::from(view.sq_num))?;
    put_flag(out, 0x87, view.simulation)?;
    put_number(out, 0x88, u64::from(view.conf_rev))?;
    put_flag(out, 0x89, view.nds_com)?;
    put_entries(out, view)
}

// Appends the count of entries, and the entries.
fn put_entries<const N: usize>(out: &mut ArrayVec<u8, N>, view: &GooseView<'_>) -> Result<(), Full>
    ensures enough { length (written_fields (drop 10 goose_fields) (drop 10 (goose_items (pdu_of {A = Unit {0}} view.now)))) < 2 ^ 32
        → array_vec_len out.old + length (written_fields (drop 10 goose_fields) (drop 10 (goose_items (pdu_of {A = Unit {0}} view.now)))) ≤ N → IsOk result }
    ensures written { OnOk result (out.new.items ≡ out.old.items ++ written_fields (drop 10 goose_fields) (drop 10 (goose_items (pdu_of {A = Unit {0}} view.now)))) }
{
    put_number(out, 0x8a, view.entries as u64)?;
    put_members(out, 0xab, view.members)
}

/// Appends the written form of the APDU that the view stands for, each length and number in the fewest octets and both
/// booleans there, where it fits; else `out` is unchanged. Whether each field has a spelling is not judged: those of a
/// view that `view_goose` answers do, and of a changed view what is written may spell nothing.
///
/// # Errors
///
/// `Full`, where the contents have more than 4294967295 octets, or the written form does not fit in what is left.
pub fn put_goose_view<const N: usize>(
    out: &mut ArrayVec<u8, N>,
    view: &GooseView<'_>,
) -> Result<(), Full>
    ensures fits { IsOk result ↔ (HasWrittenGoose (pdu_of {A = Unit {0}} view.now) × (array_vec_len out.old + length (written_goose (pdu_of {A = Unit {0}} view.now)) ≤ N)) }
    ensures written { OnOk result (out.new.items ≡ out.old.items ++ written_goose (pdu_of {A = Unit {0}} view.now)) }
    ensures unchanged { OnErr result (out.new ≡ out.old) }

    // What is appended spells the APDU, where each of its fields has a spelling.
    ensures spelled { IsSpellableGoose (pdu_of {A = Unit {0}} view.now) → OnOk result (Appends (SpellsGoose (pdu_of {A = Unit {0}} view.now)) out.old.items out.new.items) }
{
    put_written(out, view)
}

// Appends the written form.
#[tactic(auto, using(mms_data::proofs::Sizes::element_size))]
fn put_written<const N: usize>(out: &mut ArrayVec<u8, N>, view: &GooseView<'_>) -> Result<(), Full>
    ensures fits { IsOk result ↔ (HasWrittenGoose (pdu_of {A = Unit {0}} view.now) × (array_vec_len out.old + length (written_goose (pdu_of {A = Unit {0}} view.now)) ≤ N)) }
    ensures written { OnOk result (out.new.items ≡ out.old.items ++ written_goose (pdu_of {A = Unit {0}} view.now)) }
    ensures unchanged { OnErr result (out.new ≡ out.old) }
{
    let mut contents = ArrayVec::<u8, N>::new();
    if put_fields(&mut contents, view).is_err() {
        return Err(Full);
    }
    put_element(out, 0x61, contents.as_slice())
}
