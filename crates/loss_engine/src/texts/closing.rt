//! What is told at the end of an input: what has not come back, and what came in all.
ghost use Rattle.std.specs.Prelude.{◌≡◌, ◌∷◌, ◌++◌, List, [], IsOk, None, codes, false, true, ℕ};
ghost use Rattle.std.specs.List.{concat, flat_map};
ghost use Rattle.text_core.specs.Pieces.{AppendsText};
ghost use Rattle.object_core.specs.Objects.{Field, in_quotes, opened};
ghost use Rattle.object_core.specs.Onward.{onward};
ghost use Rattle.loss_engine.specs.KeySaid.{key_said};
ghost use Rattle.loss_engine.specs.LossLine.{closing_line, end_silent_line, samples_line, sender_numbers as numbers_of_sender, sender_total_line, stream_numbers as numbers_of_stream, stream_total_line};
ghost use Rattle.loss_engine.specs.LossObject.{closing_object, end_silent_object, key_fields, samples_object, sender_fields as fields_of_sender, sender_total_object, stream_fields as fields_of_stream, stream_total_object};
ghost use Rattle.loss_engine.specs.LossText.{end_silent, line_of};
ghost use Rattle.loss_engine.specs.computed.NumberText.{number_text};

use crate::key::Key;
use crate::texts::finding::put_silence_fields;
use crate::texts::key::{put_key, put_key_fields};
use crate::texts::number::{Number, put_numbers};
use loss_core::{SenderTotals, StreamTotals};
use object_core::Form;
use object_core::fields::put_field_word;
use std::alloc::{AllocError, Allocator};

// Appends a line of no event: its words, of which sender or stream it is, and numbers.
fn put_line<A: Allocator>(
    out: &mut Vec<u8, A>,
    words: &[u8],
    key: &Key<'_>,
    numbers: &[Number<'_>],
) -> Result<(), AllocError>
    ensures { (parts : List (List ℕ)) → flat_map number_text numbers.now ≡ concat parts → AppendsText result out.old.items out.new.items (closing_line words.now (key_said key.now) parts) }
{
    out.extend_from_slice(words)?;
    put_key(out, key)?;
    put_numbers(out, numbers)?;
    out.extend_from_slice(b"\n")
}

// Appends what an object of no event begins with.
fn put_closing_head<A: Allocator>(
    out: &mut Vec<u8, A>,
    kind: &[u8],
    key: &Key<'_>,
) -> Result<(), AllocError>
    ensures { AppendsText result out.old.items out.new.items (opened ((codes "kind", in_quotes kind.now) ∷ []) ++ onward (key_fields (key_said key.now))) }
{
    put_field_word(out, b"{\"kind\":", kind)?;
    put_key_fields(out, key)
}

// Appends an object of no event, of which the numbers are fields behind commas.
fn put_object<A: Allocator>(
    out: &mut Vec<u8, A>,
    kind: &[u8],
    key: &Key<'_>,
    numbers: &[Number<'_>],
) -> Result<(), AllocError>
    ensures { (fields : List Field) → flat_map number_text numbers.now ≡ onward fields → AppendsText result out.old.items out.new.items (closing_object kind.now (key_said key.now) fields) }
{
    put_closing_head(out, kind, key)?;
    put_numbers(out, numbers)?;
    out.extend_from_slice(b"}\n")
}

// Appends the line of what has not come back.
fn put_silence_line<A: Allocator>(
    out: &mut Vec<u8, A>,
    key: &Key<'_>,
    since: u64,
    lasted: u64,
) -> Result<(), AllocError>
    ensures { AppendsText result out.old.items out.new.items (end_silent_line (key_said key.now) since lasted) }
{
    let numbers = [Number(b" since=", since), Number(b" for=", lasted)];
    put_line(out, b"end silent", key, &numbers)
}

// Appends the object of what has not come back.
fn put_silence_object<A: Allocator>(
    out: &mut Vec<u8, A>,
    key: &Key<'_>,
    since: u64,
    lasted: u64,
) -> Result<(), AllocError>
    ensures { AppendsText result out.old.items out.new.items (end_silent_object (key_said key.now) since lasted) }
{
    put_closing_head(out, b"end-silent", key)?;
    put_silence_fields(out, since, lasted)?;
    out.extend_from_slice(b"}\n")
}

// Appends what has not come back since a moment, for so many microseconds.
fn put_silence<A: Allocator>(
    out: &mut Vec<u8, A>,
    form: Form,
    key: &Key<'_>,
    since: u64,
    lasted: u64,
) -> Result<(), AllocError>
    ensures { AppendsText result out.old.items out.new.items (line_of form true (end_silent_line (key_said key.now) since lasted) (end_silent_object (key_said key.now) since lasted)).text }
{
    match form {
        Form::Text => put_silence_line(out, key, since, lasted),
        Form::Object(_) => put_silence_object(out, key, since, lasted),
    }
}

/// Appends what is told at the end of the input of a sender or a stream that has not come back since a moment, and nothing
/// where there is no such moment.
pub fn put_end_silent<A: Allocator>(
    out: &mut Vec<u8, A>,
    form: Form,
    key: &Key<'_>,
    end: u64,
    since: Option<u64>,
) -> Result<(), AllocError>
    ensures text { AppendsText result out.old.items out.new.items (end_silent form (key_said key.now) end since).text }
    ensures quiet { since ≡ None → IsOk result }
{
    match since {
        None => Ok(()),
        Some(since) => put_silence(out, form, key, since, end.saturating_sub(since)),
    }
}

// The numbers of a sender's total in its line.
fn sender_numbers(totals: SenderTotals) -> [Number<'static>; 8]
    ensures { flat_map number_text result ≡ concat (numbers_of_sender totals) }
{
    [
        Number(b" frames=", totals.frames),
        Number(b" states-missing=", totals.states_missing),
        Number(b" frames-missing=", totals.frames_missing),
        Number(b" late=", totals.late),
        Number(b" repeated=", totals.repeated),
        Number(b" restarted=", totals.restarted),
        Number(b" silent=", totals.silent),
        Number(b" longest=", totals.longest),
    ]
}

// The numbers of a sender's total in its object.
fn sender_fields(totals: SenderTotals) -> [Number<'static>; 8]
    ensures { flat_map number_text result ≡ onward (fields_of_sender totals) }
{
    [
        Number(b",\"frames\":", totals.frames),
        Number(b",\"statesMissing\":", totals.states_missing),
        Number(b",\"framesMissing\":", totals.frames_missing),
        Number(b",\"late\":", totals.late),
        Number(b",\"repeated\":", totals.repeated),
        Number(b",\"restarted\":", totals.restarted),
        Number(b",\"silent\":", totals.silent),
        Number(b",\"longest\":", totals.longest),
    ]
}

/// Appends what the frames of a sender come to.
pub fn put_sender_total<A: Allocator>(
    out: &mut Vec<u8, A>,
    form: Form,
    key: &Key<'_>,
    totals: SenderTotals,
) -> Result<(), AllocError>
    ensures { AppendsText result out.old.items out.new.items (line_of form false (sender_total_line (key_said key.now) totals) (sender_total_object (key_said key.now) totals)).text }
{
    match form {
        Form::Text => put_line(out, b"total goose", key, &sender_numbers(totals)),
        Form::Object(_) => put_object(out, b"total-goose", key, &sender_fields(totals)),
    }
}

// The numbers of a stream's total in its line.
fn stream_numbers(totals: StreamTotals) -> [Number<'static>; 7]
    ensures { flat_map number_text result ≡ concat (numbers_of_stream totals) }
{
    [
        Number(b" samples=", totals.samples),
        Number(b" missing=", totals.missing),
        Number(b" late=", totals.late),
        Number(b" repeated=", totals.repeated),
        Number(b" out-of-range=", totals.out_of_range),
        Number(b" outages=", totals.outages),
        Number(b" longest=", totals.longest),
    ]
}

// The numbers of a stream's total in its object.
fn stream_fields(totals: StreamTotals) -> [Number<'static>; 7]
    ensures { flat_map number_text result ≡ onward (fields_of_stream totals) }
{
    [
        Number(b",\"samples\":", totals.samples),
        Number(b",\"missing\":", totals.missing),
        Number(b",\"late\":", totals.late),
        Number(b",\"repeated\":", totals.repeated),
        Number(b",\"outOfRange\":", totals.out_of_range),
        Number(b",\"outages\":", totals.outages),
        Number(b",\"longest\":", totals.longest),
    ]
}

/// Appends what the samples of a stream come to.
pub fn put_stream_total<A: Allocator>(
    out: &mut Vec<u8, A>,
    form: Form,
    key: &Key<'_>,
    totals: StreamTotals,
) -> Result<(), AllocError>
    ensures { AppendsText result out.old.items out.new.items (line_of form false (stream_total_line (key_said key.now) totals) (stream_total_object (key_said key.now) totals)).text }
{
    match form {
        Form::Text => put_line(out, b"total sv", key, &stream_numbers(totals)),
        Form::Object(_) => put_object(out, b"total-sv", key, &stream_fields(totals)),
    }
}

/// Appends how many samples of a stream came, where no period is given.
pub fn put_samples_total<A: Allocator>(
    out: &mut Vec<u8, A>,
    form: Form,
    key: &Key<'_>,
    samples: u64,
) -> Result<(), AllocError>
    ensures { AppendsText result out.old.items out.new.items (line_of form false (samples_line (key_said key.now) samples) (samples_object (key_said key.now) samples)).text }
{
    match form {
        Form::Text => put_line(out, b"total sv", key, &[Number(b" samples=", samples)]),
        Form::Object(_) => {
            put_object(out, b"total-sv", key, &[Number(b",\"samples\":", samples)])
        }
    }
}
