//! A reader of events over a reader of events, that changes each as is asked for.
ghost use Rattle.std.specs.Prelude.{◌≡◌, ℕ, false};
ghost use Rattle.list_core.specs.ReadItems.{told_as};
ghost use Rattle.unwrap_core.specs.Unwrapped.{unwrapped};
ghost use Rattle.unwrap_core.specs.UnwrapEvents.{UnwrapsEach, change_answer, change_event, under, unwrap_event, unwrap_where};

use crate::tags::may_have_tag;
use crate::unwrapping::unwrap_frame;
use ber_core::Octets;
use list_core::{Event, EventKind, ReadError, ReadItems};
use std::alloc::Allocator;

/// How events are changed.
#[derive(Clone, Copy)]
pub struct Changes {
    /// Each frame is unwrapped.
    pub unwraps: bool,
}

/// Reads the events of another reader, and changes each.
#[derive(Drop)]
pub struct Unwrap<I> {
    items: I,
    changes: Changes,
}

// Unwraps a frame that may have tags to be taken out. Never inlined, so that the frames which have none are not moved for it.
#[cold]
#[inline(never)]
fn unwrap_tagged<A: Allocator>(frame: &mut Vec<u8, A>)
    ensures { frame.new.items ≡ unwrapped frame.old.items }
{
    unwrap_frame(frame)
}

// The event, its frame unwrapped.
#[inline(always)]
fn unwrap_event<A: Allocator>(event: Event<A>) -> Event<A>
    ensures { result ≡ unwrap_event event }
{
    let Event { moment, kind } = event;
    match kind {
        EventKind::Frame(octets) => {
            let mut frame = octets.into_vec();
            unwrap_tagged(&mut frame);
            Event {
                moment,
                kind: EventKind::Frame(Octets::from(frame)),
            }
        }
        other => Event {
            moment,
            kind: other,
        },
    }
}

// Whether a frame happened that may have tags to be taken out.
#[inline(always)]
fn is_wrapped<A: Allocator>(event: &Event<A>) -> bool
    ensures { result ≡ false → unwrap_event event.now ≡ event.now }
{
    match &event.kind {
        EventKind::Frame(octets) => may_have_tag(octets.as_slice()),
        EventKind::Clock | EventKind::Mode(_) => false,
    }
}

// The event, its frame unwrapped where frames are.
#[inline(always)]
fn unwrap_where<A: Allocator>(unwraps: bool, event: Event<A>) -> Event<A>
    ensures { result ≡ unwrap_where unwraps event }
{
    if unwraps { unwrap_event(event) } else { event }
}

// Whether an event is changed.
#[inline(always)]
fn is_changed<A: Allocator>(changes: Changes, event: &Event<A>) -> bool
    ensures { result ≡ false → change_event changes event.now ≡ event.now }
{
    changes.unwraps && is_wrapped(event)
}

// The event, changed.
#[inline(always)]
fn change_event<A: Allocator>(changes: Changes, event: Event<A>) -> Event<A>
    ensures { result ≡ change_event changes event }
{
    unwrap_where(changes.unwraps, event)
}

// Whether an answer has such an event.
#[inline(always)]
fn has_changed<A: Allocator, F>(
    changes: Changes,
    answer: &Result<Option<Event<A>>, ReadError<F>>,
) -> bool
    ensures { (n : ℕ) → result ≡ false → change_answer changes (told_as n answer.now) ≡ told_as n answer.now }
{
    match answer {
        Ok(Some(event)) => is_changed(changes, event),
        Ok(None) | Err(_) => false,
    }
}

// The answer, its event changed.
#[inline(always)]
fn change_answer<A: Allocator, F>(
    changes: Changes,
    answer: Result<Option<Event<A>>, ReadError<F>>,
) -> Result<Option<Event<A>>, ReadError<F>>
    ensures { (n : ℕ) → told_as n result ≡ change_answer changes (told_as n answer) }
{
    if !has_changed(changes, &answer) {
        return answer;
    }
    match answer {
        Ok(Some(event)) => Ok(Some(change_event(changes, event))),
        Ok(None) => Ok(None),
        Err(error) => Err(error),
    }
}

impl<I> Unwrap<I> {
    /// A reader of the events of this one, that changes them so.
    pub fn new(items: I, changes: Changes) -> Unwrap<I>
        ensures beneath { under result ≡ items }
        ensures changes { result.changes ≡ changes }
    {
        Unwrap { items, changes }
    }

    /// The reader whose events they are.
    pub fn beneath(&self) -> &I
        ensures { result.now ≡ under self.now }
    {
        &self.items
    }

    /// The reader whose events they are.
    pub fn into_beneath(self) -> I
        ensures { result ≡ under self }
    {
        let Unwrap { items, changes: _ } = self;
        items
    }
}

impl<A: Allocator + Copy, I: ReadItems<A, Item = Event<A>>> ReadItems<A> for Unwrap<I> {
    type Item = Event<A>;

    type Fault = I::Fault;

    ghost answers = { λ old answer new. UnwrapsEach I.answers old answer new };

    ghost number = { λ s. I.number (under s) };

    ghost most = { λ s. I.most (under s) };

    #[inline(always)]
    fn read_item(
        &mut self,
        alloc: A,
        spare: &mut Option<Event<A>>,
    ) -> Result<Option<Event<A>>, ReadError<I::Fault>> {
        change_answer(self.changes, self.items.read_item(alloc, spare))
    }

    fn item_number(&self) -> u64 {
        self.items.item_number()
    }
}
