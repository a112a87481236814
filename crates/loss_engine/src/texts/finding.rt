//! What is told of a frame or a sample: a line, or an object.
ghost use Rattle.std.specs.Prelude.{◌≡◌, ◌∷◌, ◌++◌, [], codes};
ghost use Rattle.std.specs.List.{concat};
ghost use Rattle.std.specs.Fmt.{decimal};
ghost use Rattle.text_core.specs.Pieces.{AppendsText};
ghost use Rattle.object_core.specs.Onward.{onward};
ghost use Rattle.loss_core.specs.declared.finding.Finding.TheVariants.{Late};
ghost use Rattle.loss_engine.specs.KeySaid.{key_said};
ghost use Rattle.loss_engine.specs.LossLine.{finding_line, finding_numbers, finding_word};
ghost use Rattle.loss_engine.specs.LossObject.{finding_fields, finding_object, silence_fields};
ghost use Rattle.loss_engine.specs.LossText.{told_line};

use crate::key::Key;
use crate::texts::key::{put_key, put_key_fields};
use crate::texts::number::{Number, put_number, put_numbers};
use loss_core::{Finding, Pair};
use object_core::event::put_event_head;
use object_core::fields::put_field_date;
use object_core::{Counted, Form, Heading};
use std::alloc::{AllocError, Allocator};
use text_core::pieces::put_decimal;

// What is told, as a word.
fn word_of(finding: Finding) -> &'static [u8]
    ensures { result.now ≡ finding_word finding }
{
    match finding {
        Finding::Silent(_, _) => b"silent",
        Finding::StatesMissing(_) => b"states-missing",
        Finding::FramesMissing(_, _) => b"frames-missing",
        Finding::Late(_) => b"late",
        Finding::Restarted(_) => b"restarted",
        Finding::SamplesMissing(_, _) => b"samples-missing",
        Finding::SampleRepeated(_) => b"sample-repeated",
        Finding::SampleLate(_) => b"sample-late",
        Finding::OutOfRange(_) => b"count-out-of-range",
        Finding::Synch(_, _) => b"synch",
    }
}

// Appends two numbers.
fn put_two<A: Allocator>(
    out: &mut Vec<u8, A>,
    first_name: &[u8],
    first: u32,
    second_name: &[u8],
    second: u32,
) -> Result<(), AllocError>
    ensures { AppendsText result out.old.items out.new.items (concat ((first_name.now ++ decimal first) ∷ (second_name.now ++ decimal second) ∷ [])) }
{
    let first = Number(first_name, first as u64);
    let second = Number(second_name, second as u64);
    put_numbers(out, &[first, second])
}

// Appends a count of a sample.
fn put_count<A: Allocator>(out: &mut Vec<u8, A>, name: &[u8], count: u16) -> Result<(), AllocError>
    ensures { AppendsText result out.old.items out.new.items (concat ((name.now ++ decimal count) ∷ [])) }
{
    put_numbers(out, &[Number(name, count as u64)])
}

// Appends the numbers of what is told, each behind its word.
fn put_finding_numbers<A: Allocator>(
    out: &mut Vec<u8, A>,
    finding: Finding,
) -> Result<(), AllocError>
    ensures { AppendsText result out.old.items out.new.items (concat (finding_numbers finding)) }
{
    match finding {
        Finding::Silent(since, lasted) => {
            put_numbers(out, &[Number(b" since=", since), Number(b" for=", lasted)])
        }
        Finding::StatesMissing(span) => put_two(out, b" from=", span.from, b" to=", span.to),
        Finding::FramesMissing(state, span) => put_numbers(
            out,
            &[
                Number(b" st=", state as u64),
                Number(b" from=", span.from as u64),
                Number(b" to=", span.to as u64),
            ],
        ),
        Finding::Late(pair) => put_two(out, b" st=", pair.state, b" sq=", pair.sequence),
        Finding::Restarted(pair) => put_two(out, b" st=", pair.state, b" sq=", pair.sequence),
        Finding::SamplesMissing(from, missing) => put_numbers(
            out,
            &[
                Number(b" from=", from as u64),
                Number(b" missing=", missing),
            ],
        ),
        Finding::SampleRepeated(count) => put_count(out, b" cnt=", count),
        Finding::SampleLate(count) => put_count(out, b" cnt=", count),
        Finding::OutOfRange(count) => put_count(out, b" cnt=", count),
        Finding::Synch(from, to) => { put_two(out, b" from=", from as u32, b" to=", to as u32) }
    }
}

/// Appends the fields of a silence, each behind a comma: since when, its date, and for how many microseconds.
pub fn put_silence_fields<A: Allocator>(
    out: &mut Vec<u8, A>,
    since: u64,
    lasted: u64,
) -> Result<(), AllocError>
    ensures { AppendsText result out.old.items out.new.items (onward (silence_fields since lasted)) }
{
    put_number(out, b",\"since\":", since)?;
    put_field_date(out, b",\"sinceTime\":", since)?;
    put_numbers(out, &[Number(b",\"for\":", lasted)])
}

// Appends a pair as fields.
fn put_pair_fields<A: Allocator>(out: &mut Vec<u8, A>, pair: Pair) -> Result<(), AllocError>
    ensures { AppendsText result out.old.items out.new.items (onward (finding_fields (Late pair))) }
{
    put_two(
        out,
        b",\"stNum\":",
        pair.state,
        b",\"sqNum\":",
        pair.sequence,
    )
}

// Appends two numbers as fields.
fn put_ends<A: Allocator>(out: &mut Vec<u8, A>, from: u32, to: u32) -> Result<(), AllocError>
    ensures { AppendsText result out.old.items out.new.items (onward ((codes "from", decimal from) ∷ (codes "to", decimal to) ∷ [])) }
{
    put_two(out, b",\"from\":", from, b",\"to\":", to)
}

// Appends the fields of what is told, each behind a comma.
fn put_finding_fields<A: Allocator>(
    out: &mut Vec<u8, A>,
    finding: Finding,
) -> Result<(), AllocError>
    ensures { AppendsText result out.old.items out.new.items (onward (finding_fields finding)) }
{
    match finding {
        Finding::Silent(since, lasted) => put_silence_fields(out, since, lasted),
        Finding::StatesMissing(span) => put_ends(out, span.from, span.to),
        Finding::FramesMissing(state, span) => put_numbers(
            out,
            &[
                Number(b",\"stNum\":", state as u64),
                Number(b",\"from\":", span.from as u64),
                Number(b",\"to\":", span.to as u64),
            ],
        ),
        Finding::Late(pair) => put_pair_fields(out, pair),
        Finding::Restarted(pair) => put_pair_fields(out, pair),
        Finding::SamplesMissing(from, missing) => put_numbers(
            out,
            &[
                Number(b",\"from\":", from as u64),
                Number(b",\"missing\":", missing),
            ],
        ),
        Finding::SampleRepeated(count) => put_count(out, b",\"smpCnt\":", count),
        Finding::SampleLate(count) => put_count(out, b",\"smpCnt\":", count),
        Finding::OutOfRange(count) => put_count(out, b",\"smpCnt\":", count),
        Finding::Synch(from, to) => put_ends(out, from as u32, to as u32),
    }
}

// Appends the line of what is told, behind the number of the event's line or packet.
fn put_finding_line<A: Allocator>(
    out: &mut Vec<u8, A>,
    number: u64,
    key: &Key<'_>,
    finding: Finding,
) -> Result<(), AllocError>
    ensures { AppendsText result out.old.items out.new.items (finding_line number (key_said key.now) finding) }
{
    put_decimal(out, number)?;
    out.extend_from_slice(b" ")?;
    out.extend_from_slice(word_of(finding))?;
    put_key(out, key)?;
    put_finding_numbers(out, finding)?;
    out.extend_from_slice(b"\n")
}

// Appends the object of what is told, as a line.
fn put_finding_object<A: Allocator>(
    out: &mut Vec<u8, A>,
    counted: Counted,
    number: u64,
    moment: u64,
    key: &Key<'_>,
    finding: Finding,
) -> Result<(), AllocError>
    ensures { AppendsText result out.old.items out.new.items (finding_object counted number moment (key_said key.now) finding) }
{
    put_event_head(out, counted, number, moment, word_of(finding))?;
    put_key_fields(out, key)?;
    put_finding_fields(out, finding)?;
    out.extend_from_slice(b"}\n")
}

/// Appends what is told of a sender or a stream, as a line or as an object.
pub fn put_finding<A: Allocator>(
    out: &mut Vec<u8, A>,
    heading: Heading,
    key: &Key<'_>,
    finding: Finding,
) -> Result<(), AllocError>
    ensures { AppendsText result out.old.items out.new.items (told_line heading.form heading.number heading.moment (key_said key.now) finding) }
{
    let Heading {
        form,
        number,
        moment,
    } = heading;
    match form {
        Form::Text => put_finding_line(out, number, key, finding),
        Form::Object(counted) => put_finding_object(out, counted, number, moment, key, finding),
    }
}
