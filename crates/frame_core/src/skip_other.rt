//! A reader of events over a reader of events, that passes over the frames of other protocols.
ghost use Rattle.std.specs.Prelude.{◌≡◌, ℕ, false};
ghost use Rattle.list_core.specs.ReadItems.{told_as};
ghost use Rattle.tally_core.specs.Tally.{Tally, no_tally};
ghost use Rattle.frame_core.specs.SkipOther.{Skips, beneath, pass_answer, pass_where, passed_over, skip_answer, skip_other, type_passed};

use crate::other_type::other_ether_type;
use list_core::{Event, EventKind, ReadError, ReadItems};
use std::alloc::Allocator;
use tally_core::KindTally;

/// Reads the events of another reader. Of a frame of another protocol, which its EtherType says, it answers nothing but the
/// moment, as a clock event, and keeps how many there were.
#[derive(Drop)]
pub struct SkipOther<I, A: Allocator> {
    items: I,
    // The frame that was passed over last, for its memory: the clock event that stands for it has none to hand back.
    spare: Option<Event<A>>,
    passed: KindTally,
}

// The EtherType of the frame of another protocol that happened.
fn type_passed<A: Allocator>(kind: &EventKind<A>) -> Option<u16>
    ensures { result ≡ type_passed kind.now }
{
    match kind {
        EventKind::Frame(octets) => other_ether_type(octets.as_slice()),
        EventKind::Clock | EventKind::Mode(_) => None,
    }
}

// Whether an answer has a frame of another protocol.
#[inline(always)]
fn has_passed<A: Allocator, F>(answer: &Result<Option<Event<A>>, ReadError<F>>) -> bool
    ensures left { (n : ℕ) → result ≡ false → skip_answer (told_as n answer.now) ≡ told_as n answer.now }
    ensures kept { (n : ℕ) (tally : Tally) → result ≡ false → pass_answer (told_as n answer.now) tally ≡ tally }
{
    match answer {
        Ok(Some(event)) => type_passed(&event.kind).is_some(),
        Ok(None) | Err(_) => false,
    }
}

impl<I, A: Allocator> SkipOther<I, A> {
    /// A reader of the events of this one. Nothing was passed over.
    pub fn new(items: I) -> SkipOther<I, A>
        ensures beneath { beneath result ≡ items }
        ensures none { passed_over result ≡ no_tally }
    {
        SkipOther {
            items,
            spare: None,
            passed: KindTally::new(),
        }
    }

    /// The reader whose events they are.
    pub fn beneath(&self) -> &I
        ensures { result.now ≡ beneath self.now }
    {
        &self.items
    }

    /// What was passed over.
    pub fn passed_over(&self) -> &KindTally
        ensures { result.now ≡ passed_over self.now }
    {
        &self.passed
    }

    /// The reader whose events they are, and what was passed over.
    pub fn into_parts(self) -> (I, KindTally)
        ensures beneath { result.0 ≡ beneath self }
        ensures passed { result.1 ≡ passed_over self }
    {
        let SkipOther {
            items,
            spare: _,
            passed,
        } = self;
        (items, passed)
    }

    // Hands on the memory of the frame that was passed over last.
    #[inline(never)]
    fn lend(&mut self, spare: &mut Option<Event<A>>)
        ensures beneath { beneath self.new ≡ beneath self.old }
        ensures passed { passed_over self.new ≡ passed_over self.old }
    {
        if let Some(event) = self.spare.take() {
            *spare = Some(event);
        }
    }

    // What is left of the event of this number.
    fn leave(&mut self, number: u64, event: Event<A>) -> Event<A>
        ensures event { result ≡ skip_other event }
        ensures passed { passed_over self.new ≡ pass_where number (type_passed event.kind) (passed_over self.old) }
        ensures beneath { beneath self.new ≡ beneath self.old }
    {
        match type_passed(&event.kind) {
            None => event,
            Some(ether_type) => {
                self.passed.count(number, ether_type);
                let moment = event.moment;
                self.spare = Some(event);
                Event {
                    moment,
                    kind: EventKind::Clock,
                }
            }
        }
    }
}

impl<I, A: Allocator> SkipOther<I, A> {
    // What is left of an answer, whose event has this number. Never inlined: most frames are of GOOSE or Sampled Values.
    #[inline(never)]
    fn leave_of<F>(
        &mut self,
        number: u64,
        answer: Result<Option<Event<A>>, ReadError<F>>,
    ) -> Result<Option<Event<A>>, ReadError<F>>
        ensures left { told_as number result ≡ skip_answer (told_as number answer) }
        ensures passed { passed_over self.new ≡ pass_answer (told_as number answer) (passed_over self.old) }
        ensures beneath { beneath self.new ≡ beneath self.old }
    {
        match answer {
            Ok(Some(event)) => Ok(Some(self.leave(number, event))),
            Ok(None) => Ok(None),
            Err(error) => Err(error),
        }
    }
}

impl<A: Allocator + Copy, I: ReadItems<A, Item = Event<A>>> ReadItems<A> for SkipOther<I, A> {
    type Item = Event<A>;

    type Fault = I::Fault;

    ghost answers = { λ old answer new. Skips I.answers old answer new };

    ghost number = { λ s. I.number (beneath s) };

    ghost most = { λ s. I.most (beneath s) };

    #[inline(always)]
    fn read_item(
        &mut self,
        alloc: A,
        spare: &mut Option<Event<A>>,
    ) -> Result<Option<Event<A>>, ReadError<I::Fault>> {
        if self.spare.is_some() {
            self.lend(spare);
        }
        let answer = self.items.read_item(alloc, spare);
        if has_passed(&answer) {
            let number = self.items.item_number();
            return self.leave_of(number, answer);
        }
        answer
    }

    fn item_number(&self) -> u64 {
        self.items.item_number()
    }
}
