//! One line of a list: the event that it says.
ghost use Rattle.std.specs.Prelude.{◌≡◌, ℕ, List, Option, None, Err, ◌<◌, length, ◌∷◌, [], MatchOption, is_some};
ghost use Rattle.list_core.specs.EventLine.{event_of, event_of_fields, fields, fields_keep, frame_event, mode_of, moment_of, frame_octets_by};
ghost use Rattle.list_core.specs.declared.list_fault.ListCause.TheVariants.{LineForm};
ghost use Rattle.list_core.specs.computed.LineAnswer.{Answers, IsFront, OctetsAreRead, fields_after};

use crate::cutting::{cut_short, first_place};
use crate::decimal::{decimal_in, number_in_front};
use crate::event::{Event, EventKind};
use crate::event_lines::MomentUnit;
use crate::hexadecimal::octets_by;
use crate::list_fault::ListCause;
use crate::read_error::ReadError;
use ber_core::Octets;
use std::alloc::{AllocError, Allocator};

/// The most digits of a moment in milliseconds.
const MOST_MILLISECOND_DIGITS: usize = 15;

/// The most digits of a moment in microseconds.
const MOST_MICROSECOND_DIGITS: usize = 18;

/// Microseconds in a millisecond.
const MICROSECONDS: u64 = 1000;

/// The most hexadecimal digits of a frame.
const MOST_HEX_DIGITS: usize = 4000;

/// The event that a line says, if it is neither empty nor a comment.
#[inline(always)]
pub(crate) fn event_in<A: Allocator + Copy>(
    alloc: A,
    spare: &mut Option<Event<A>>,
    unit: MomentUnit,
    line: &[u8],
) -> Result<Option<Event<A>>, ReadError<ListCause>>
    ensures { Answers result (event_of unit line.now) (fields_keep unit (fields line.now)) }
{
    match line {
        [] | [b'#', ..] => Ok(None),
        _ => event_in_fields(alloc, spare, unit, line),
    }
}

/// The event that the fields of a line say.
#[inline(always)]
fn event_in_fields<A: Allocator + Copy>(
    alloc: A,
    spare: &mut Option<Event<A>>,
    unit: MomentUnit,
    line: &[u8],
) -> Result<Option<Event<A>>, ReadError<ListCause>>
    ensures { Answers result (event_of_fields unit (fields line.now)) (fields_keep unit (fields line.now)) }
{
    let (name, rest) = first_field(line);
    let Some(rest) = rest else {
        return Err(ReadError::Fault(ListCause::LineForm));
    };
    match name {
        [b'C'] => clock_in(unit, rest),
        [b'F'] => frame_in(alloc, spare, unit, rest),
        [b'M'] => mode_in(unit, rest),
        _ => Err(ReadError::Fault(ListCause::LineForm)),
    }
}

/// The clock event whose moment is the one field here.
fn clock_in<A: Allocator>(
    unit: MomentUnit,
    rest: &[u8],
) -> Result<Option<Event<A>>, ReadError<ListCause>>
    ensures { Answers result (event_of_fields unit ((67 ∷ []) ∷ fields rest.now)) (fields_keep unit ((67 ∷ []) ∷ fields rest.now)) }
{
    let (moment, more) = first_field(rest);
    if more.is_some() {
        return Err(ReadError::Fault(ListCause::LineForm));
    }
    if moment.is_empty() {
        return Err(ReadError::Fault(ListCause::LineForm));
    }
    match moment_in(unit, moment) {
        Some(moment) => Ok(Some(Event {
            moment,
            kind: EventKind::Clock,
        })),
        None => Err(ReadError::Fault(ListCause::Moment)),
    }
}

/// The frame event whose moment and octets are the two fields here.
#[inline(always)]
fn frame_in<A: Allocator + Copy>(
    alloc: A,
    spare: &mut Option<Event<A>>,
    unit: MomentUnit,
    rest: &[u8],
) -> Result<Option<Event<A>>, ReadError<ListCause>>
    ensures { Answers result (event_of_fields unit ((70 ∷ []) ∷ fields rest.now)) (fields_keep unit ((70 ∷ []) ∷ fields rest.now)) }
{
    let Some((moment, digits)) = front_in::<A>(unit, rest) else {
        return Err(ReadError::Fault(ListCause::LineForm));
    };
    // Digits that write octets are one field, since none of them is a space.
    match frame_octets_in(alloc, spare, digits) {
        Some(octets) => frame_event(moment, octets),
        None => Err(ReadError::Fault(why_no_frame::<A>(unit, moment, digits))),
    }
}

/// The moment that the first field writes, if it writes one, and what follows its space; none where it is empty or no space
/// follows. The digits of a moment are read while their end is looked for.
#[inline(always)]
fn front_in<A: Allocator>(unit: MomentUnit, rest: &[u8]) -> Option<(Option<u64>, &[u8])>
    ensures { MatchOption result (event_of_fields {A = A} unit ((70 ∷ []) ∷ fields rest.now) ≡ Err LineForm) (λ front. IsFront unit rest.now front.0 front.1.now) }
{
    let (most, microseconds) = match unit {
        MomentUnit::Milliseconds => (MOST_MILLISECOND_DIGITS, MICROSECONDS),
        MomentUnit::Microseconds => (MOST_MICROSECOND_DIGITS, 1),
    };
    let (count, number) = number_in_front(rest, most);
    if 0 < count && count < rest.len() && rest[count] == b' ' {
        return Some((Some(number * microseconds), &rest[count + 1..]));
    }
    front_field::<A>(unit, rest)
}

/// The same, where something else than digits and a space stands there.
#[cold]
#[inline(never)]
fn front_field<A: Allocator>(unit: MomentUnit, rest: &[u8]) -> Option<(Option<u64>, &[u8])>
    ensures { MatchOption result (event_of_fields {A = A} unit ((70 ∷ []) ∷ fields rest.now) ≡ Err LineForm) (λ front. IsFront unit rest.now front.0 front.1.now) }
{
    let (moment, rest) = first_field(rest);
    let Some(rest) = rest else {
        return None;
    };
    if moment.is_empty() {
        return None;
    }
    Some((moment_in(unit, moment), rest))
}

/// Memory for octets: that of a spare event, if it has some.
#[inline(always)]
fn memory_of<A: Allocator>(alloc: A, spare: &mut Option<Event<A>>) -> Vec<u8, A> {
    match spare.take() {
        Some(
            Event {
                moment: _,
                kind: EventKind::Frame(octets),
            },
        ) => octets.into_vec(),
        _ => Vec::new(alloc),
    }
}

/// The octets of a frame that digits write, or that memory is wanted for them; none where they write none.
#[inline(always)]
fn frame_octets_in<A: Allocator>(
    alloc: A,
    spare: &mut Option<Event<A>>,
    digits: &[u8],
) -> Option<Result<Octets<A>, AllocError>>
    ensures { MatchOption result (frame_octets_by digits.now ≡ None) (λ read. OctetsAreRead read (frame_octets_by digits.now)) }
{
    if digits.is_empty() || digits.len() > MOST_HEX_DIGITS || digits.len() % 2 != 0 {
        return None;
    }
    octets_by(memory_of(alloc, spare), digits)
}

/// The frame event of a moment, if there is one, and of octets that were read.
#[inline(always)]
fn frame_event<A: Allocator>(
    moment: Option<u64>,
    octets: Result<Octets<A>, AllocError>,
) -> Result<Option<Event<A>>, ReadError<ListCause>>
    ensures { (written : Option (List ℕ)) → OctetsAreRead octets written → Answers result (frame_event moment written) (is_some moment) }
{
    let Some(moment) = moment else {
        return Err(ReadError::Fault(ListCause::Moment));
    };
    match octets {
        Ok(octets) => Ok(Some(Event {
            moment,
            kind: EventKind::Frame(octets),
        })),
        Err(error) => Err(ReadError::Memory(error)),
    }
}

/// Why a moment, and what follows its space, say no frame.
#[cold]
fn why_no_frame<A: Allocator>(unit: MomentUnit, moment: Option<u64>, rest: &[u8]) -> ListCause
    requires octets { frame_octets_by rest.now ≡ None }
    ensures { (xs : List ℕ) → IsFront unit xs moment rest.now → event_of_fields {A = A} unit ((70 ∷ []) ∷ fields xs) ≡ Err result }
{
    if rest.is_empty() {
        return ListCause::LineForm;
    }
    match (first_place(rest, b' '), moment) {
        (Some(_), _) => ListCause::LineForm,
        (None, None) => ListCause::Moment,
        (None, Some(_)) => ListCause::Hex,
    }
}

/// The mode event whose moment and mode are the two fields here.
fn mode_in<A: Allocator>(
    unit: MomentUnit,
    rest: &[u8],
) -> Result<Option<Event<A>>, ReadError<ListCause>>
    ensures { Answers result (event_of_fields unit ((77 ∷ []) ∷ fields rest.now)) (fields_keep unit ((77 ∷ []) ∷ fields rest.now)) }
{
    let (moment, rest) = first_field(rest);
    let Some(rest) = rest else {
        return Err(ReadError::Fault(ListCause::LineForm));
    };
    let (mode, more) = first_field(rest);
    if more.is_some() {
        return Err(ReadError::Fault(ListCause::LineForm));
    }
    if moment.is_empty() {
        return Err(ReadError::Fault(ListCause::LineForm));
    }
    let Some(on) = mode_named(mode) else {
        return Err(ReadError::Fault(ListCause::LineForm));
    };
    match moment_in(unit, moment) {
        Some(moment) => Ok(Some(Event {
            moment,
            kind: EventKind::Mode(on),
        })),
        None => Err(ReadError::Fault(ListCause::Moment)),
    }
}

/// The mode that a field names.
fn mode_named(field: &[u8]) -> Option<bool>
    ensures { result ≡ mode_of field.now }
{
    match field {
        [b'o', b'n'] => Some(true),
        [b'o', b'f', b'f'] => Some(false),
        _ => None,
    }
}

/// The first field, and what follows its space if there is one.
fn first_field(octets: &[u8]) -> (&[u8], Option<&[u8]>)
    ensures { fields octets.now ≡ result.0.now ∷ fields_after result.1 }
{
    cut_short(octets, b' ')
}

/// The moment that a field writes, in microseconds.
pub fn moment_in(unit: MomentUnit, digits: &[u8]) -> Option<u64>
    ensures { result ≡ moment_of unit digits.now }
{
    match unit {
        MomentUnit::Milliseconds => match decimal_in(digits, MOST_MILLISECOND_DIGITS) {
            Some(number) => Some(number * MICROSECONDS),
            None => None,
        },
        MomentUnit::Microseconds => decimal_in(digits, MOST_MICROSECOND_DIGITS),
    }
}
