//! How many octets the written form of an APDU has, counted from where it stands.

ghost use Rattle.std.specs.Prelude.{◌≡◌, ◌≤◌, ◌<◌, ◌+◌, ◌^◌, pos, length, IfSome};
ghost use Rattle.ber_core.specs.Written.{integer_size};
ghost use Rattle.mms_data.specs.Meaning.{left};
ghost use Rattle.mms_data.specs.Written.{header_size, written_all};
ghost use Rattle.pdu_core.specs.Goose.{text_if};
ghost use Rattle.pdu_core.specs.Views.{octets_if, pdu_of};
ghost use Rattle.pdu_core.specs.Written.{written_field, written_goose};

use crate::view::GooseView;
use ber_core::signed_count;
use mms_data::{Members, header_length};

// The most octets of a text, or of members, that are counted.
const MOST_CONTENTS: usize = 0xffff;

// How many octets the field of a time has.
const TIME_LENGTH: usize = 10;

// How many octets the field of a boolean has.
const FLAG_LENGTH: usize = 3;

// How many octets the element of these contents has, where they are few.
fn element_length(contents: &[u8]) -> Option<usize>
    ensures exact { IfSome result (λ n. n ≡ header_size (length contents.now) + length contents.now) }
    ensures few { IfSome result (λ n. n ≤ 0x1_0005) }
{
    if MOST_CONTENTS < contents.len() {
        return None;
    }
    Some(header_length(contents.len()) + contents.len())
}

// The same of goID, which may be absent.
#[tactic(auto, using(mms_data::proofs::WrittenSizes::element_size))]
fn go_id_length(go_id: Option<&[u8]>) -> Option<usize>
    ensures exact { IfSome result (λ n. n ≡ length (written_field 0x83 (text_if (octets_if go_id.entry)))) }
    ensures few { IfSome result (λ n. n ≤ 0x1_0005) }
{
    match go_id {
        Some(text) => element_length(text),
        None => Some(0),
    }
}

// The same of members that are known to stand in their written form.
fn members_length(members: Members<'_>) -> Option<usize>
    ensures exact { IfSome result (λ n. n ≡ header_size (length (written_all (left members.entry))) + length (written_all (left members.entry))) }
    ensures few { IfSome result (λ n. n ≤ 0x1_0005) }
{
    match members.as_written() {
        Some(octets) => element_length(octets),
        None => None,
    }
}

// How many octets the field of a number has.
fn number_length(number: u32) -> usize
    ensures exact { result ≡ 2 + integer_size (pos number) }
    ensures few { result ≤ 11 }
{
    2 + signed_count(i128::from(number))
}

// How many octets the fields of numbers have, with that of the count of entries.
fn numbers_length(view: &GooseView<'_>) -> Option<usize>
    ensures exact { IfSome result (λ n. n ≡ 10 + integer_size (pos view.now.live) + integer_size (pos view.now.st_num) + integer_size (pos view.now.sq_num) + integer_size (pos view.now.conf_rev) + integer_size (pos view.now.entries)) }
    ensures few { IfSome result (λ n. n ≤ 55) }
{
    if 0xffff_ffff < view.entries {
        return None;
    }
    Some(
        number_length(view.live)
            + number_length(view.st_num)
            + number_length(view.sq_num)
            + number_length(view.conf_rev)
            + number_length(view.entries as u32),
    )
}

/// How many octets the written form of the APDU that the view stands for has, each length and number in the fewest octets
/// and both booleans there, counted without writing it. `None` says nothing: the members are not known to stand in their
/// written form, or a text or the members have more than 65535 octets.
pub fn written_goose_length(view: &GooseView<'_>) -> Option<usize>
    ensures length { IfSome result (λ n. n ≡ length (written_goose (pdu_of {A = Unit {0}} view.now))) }
    ensures few { IfSome result (λ n. n < 2 ^ 32) }
{
    let gocb_ref = element_length(view.gocb_ref)?;
    let dat_set = element_length(view.dat_set)?;
    let go_id = go_id_length(view.go_id)?;
    let numbers = numbers_length(view)?;
    let members = members_length(view.members)?;
    let size = gocb_ref + dat_set + go_id + TIME_LENGTH + 2 * FLAG_LENGTH + numbers + members;
    Some(header_length(size) + size)
}
