//! Publishers.

ghost use Rattle.std.specs.Prelude.{◌≡◌, ◌<◌, ◌≤◌, ◌+◌, ◌*◌, ◌↔◌, ◌∷◌, ◌++◌, [], List, IfErr, IfOk, IsTrue, MatchOption, OnErr, OnOk, Err, None, false, is_some, length};
ghost use Rattle.frame_core.specs.Written.{written_frame};
ghost use Rattle.publish_core.specs.declared.fault.PublishFault.TheVariants.{FirstState};
ghost use Rattle.publish_core.specs.Frames.{Setup, change, frame_with, setup};
ghost use Rattle.publish_core.specs.Numbers.{number_behind};
ghost use Rattle.publish_core.specs.Refusal.{Accepts, IsAccepted, IsRefusal, Refuses};
ghost use Rattle.publish_core.specs.Run.{Call, Changed, Polled, PublishesNone, PublishesOctets, call, greatest_call_moment};
ghost use Rattle.publish_core.specs.Held.{octets_held};
ghost use Rattle.publish_core.specs.State.{PublisherStandsAfter};
ghost use Rattle.publish_core.specs.computed.Step.{IsFrameOf, change_state, last_frame, next_last, poll_frame, poll_state};
ghost use Rattle.publish_core.specs.Table.{AreSteps, step_at};

use crate::control::Control;
use crate::fault::PublishFault;
use crate::fitting::every_frame_fits;
use crate::frames::{FrameNumbers, encode_state, head_length};
use crate::renewing::renew;
use crate::table::Table;
use arrayvec::ArrayVec;
use frame_core::EncodeFault;
use mms_data::{UtcTime, ValueList};
use std::alloc::Allocator;
use std::marker::Model;

// The frame that was given last: what its change handed in, its numbers, the position of its step, and the moment at
// which it was given, in microseconds.
#[derive(Drop)]
struct Last<A: Allocator> {
    t: UtcTime,
    values: ValueList<A>,
    state: u32,
    sequence: u32,
    step: usize,
    given_at: u64,
}

/// A publisher of one control block. A contract sees its control, its table, the status number of its next state, its
/// moment, and what it gave last. The octets of that frame are kept, since the next one differs in two numbers alone.
#[derive(Drop)]
pub struct Publisher<A: Allocator> {
    control: Control<A>,
    table: Table,
    next: u32,
    moment: u64,
    last: Option<Last<A>>,
    kept: ArrayVec<u8, 1600>,
}

impl<A: Allocator> Model for Publisher<A> {
    ghost use Rattle.std.specs.Prelude.{◌≡◌, ◌<◌};
    ghost use Rattle.publish_core.specs.Held.{octets_of};
    ghost use Rattle.publish_core.specs.State.{PublisherState};
    ghost use Rattle.publish_core.specs.computed.Step.{IsLastSound};
    ghost use Rattle.std.specs.Coded.{codes};
    ghost use Rattle.mms_data.specs.computed.DataCode.{data_code};

    ghost Value = { PublisherState A };

    ghost coded = { Prim.hlevel (codes, data_code) };

    ghost view = { λ p. record { control = p.control; table = p.table; next = p.next; moment = p.moment; last = p.last } };

    ghost invariant = { λ p. (0 < p.next) × IsLastSound p.control p.table p.last × (p.kept.items ≡ octets_of p.control p.table p.last) };
}

// A table has its steps; nothing is computed.
fn know_steps(table: &Table)
    ensures { AreSteps table.now }
{
    let _ = table.len();
}

// The number behind this one.
fn next_number(number: u32) -> u32
    ensures { result ≡ number_behind number }
{
    if number == u32::MAX { 1 } else { number + 1 }
}

// Whether the wait, in milliseconds, that began at a moment is over; moments are in microseconds.
fn wait_is_over(given_at: u64, wait_ms: u32, now: u64) -> bool
    ensures { IsTrue result ↔ (given_at + 1000 * wait_ms ≤ now) }
{
    u128::from(given_at) + 1000 * u128::from(wait_ms) <= u128::from(now)
}

// The octets of the first frame of a state, or why the change to it is refused.
fn write_first<A: Allocator>(
    control: &Control<A>,
    table: &Table,
    state: u32,
    t: UtcTime,
    values: &ValueList<A>,
) -> Result<ArrayVec<u8, 1600>, PublishFault>
    ensures accepted { OnOk result (IsAccepted control.now table.now state (change t values.now)) }
    ensures refused { IfErr result (λ e. IsRefusal control.now table.now state (change t values.now) e) }
    ensures written { IfOk result (λ o. o.items ≡ written_frame (frame_with control.now (change t values.now) state 0 (step_at table.now 0).live_ms)) }
{
    if values.as_slice().len() != control.entries as usize {
        return Err(PublishFault::EntriesDiffer);
    }
    know_steps(table);
    let numbers = FrameNumbers {
        state,
        sequence: 0,
        live_ms: table.at(0).live_ms,
    };
    match encode_state(control, t, values, numbers) {
        Ok(frame) => {
            if every_frame_fits(table, frame.len() - head_length(control)) {
                Ok(frame)
            } else {
                Err(PublishFault::WouldNotFit)
            }
        }
        Err(EncodeFault::NotSpellable) => Err(PublishFault::NotSpellable),
        Err(EncodeFault::TooLong) => Err(PublishFault::WouldNotFit),
    }
}

// Goes on to the next frame of the state, whose octets are then kept.
fn go_on<A: Allocator>(
    control: &Control<A>,
    table: &Table,
    last: &mut Last<A>,
    now: u64,
    kept: &mut ArrayVec<u8, 1600>,
)
    requires steps { AreSteps table.now }
    requires frame { IsFrameOf control.now table.now last.old }
    requires kept { kept.old.items ≡ written_frame (last_frame control.now table.now last.old) }
    ensures last { last.new ≡ next_last table.now last.old now }
    ensures frame { IsFrameOf control.now table.now last.new }
    ensures kept { kept.new.items ≡ written_frame (last_frame control.now table.now last.new) }
{
    let steps = table.len();
    let before = FrameNumbers {
        state: last.state,
        sequence: last.sequence,
        live_ms: table.at(last.step).live_ms,
    };
    last.sequence = next_number(last.sequence);
    last.step = (last.step + 1).min(steps - 1);
    last.given_at = now;
    let numbers = FrameNumbers {
        state: last.state,
        sequence: last.sequence,
        live_ms: table.at(last.step).live_ms,
    };
    renew(kept, control, last.t, &last.values, before, numbers);
}

// The octets of a frame once more.
fn copied(octets: &[u8]) -> ArrayVec<u8, 1600>
    requires { length octets.now ≤ 1600 }
    ensures { result.items ≡ octets.now }
{
    let mut copy = ArrayVec::new();
    copy.try_extend_from_slice(octets).unwrap();
    copy
}

impl<A: Allocator> Publisher<A> {
    /// A publisher that has given nothing yet. Its first state will have the status number `first_state`.
    ///
    /// # Errors
    ///
    /// `FirstState` where that number is 0. What was handed in is then let go.
    pub fn new(
        control: Control<A>,
        table: Table,
        first_state: u32,
    ) -> Result<Publisher<A>, PublishFault>
        ensures stands { IfOk result (λ s. PublisherStandsAfter (setup control table first_state) [] s) }
        ensures first { OnOk result (0 < first_state) }
        ensures steps { AreSteps table }
        ensures fault { IfErr result (λ e. (e ≡ FirstState) × (first_state ≡ 0)) }
    {
        if first_state == 0 {
            return Err(PublishFault::FirstState);
        }
        know_steps(&table);
        Ok(Publisher {
            control,
            table,
            next: first_state,
            moment: 0,
            last: None,
            kept: ArrayVec::new(),
        })
    }

    /// The greatest moment of the accepted changes and of the polls so far, in microseconds; 0 before the first.
    pub fn moment(&self) -> u64
        ensures { (p : Setup A) (calls : List Call) → PublisherStandsAfter p calls self.now → result ≡ greatest_call_moment calls }
    {
        let Publisher { moment, .. } = self;
        *moment
    }

    /// Changes the data set at a moment, in microseconds: the octets of the first frame of the next state, whose values
    /// and time of change (t) the frames of this state carry. A moment below the publisher's counts as the
    /// publisher's. Takes no memory.
    ///
    /// # Errors
    ///
    /// `EntriesDiffer` where the count of values is not the control's; else `NotSpellable` where a value, `t` or a text
    /// of the control has no spelling; else `WouldNotFit` where some frame of the new state would be too long, the first
    /// or any retransmission. The values are handed back, and the publisher is as it was, its moment too.
    pub fn change(
        &mut self,
        now: u64,
        t: UtcTime,
        values: ValueList<A>,
    ) -> Result<ArrayVec<u8, 1600>, (PublishFault, ValueList<A>)>
        ensures accepted { (p : Setup A) (calls : List Call) → PublisherStandsAfter p calls self.old →
            OnOk result (Accepts p calls (change t values)) }
        ensures refused { (p : Setup A) (calls : List Call) → PublisherStandsAfter p calls self.old →
            IfErr result (λ e. Refuses p calls (change t values) e.0) }
        ensures handed_back { IfErr result (λ e. e.1 ≡ values) }
        ensures unchanged { OnErr result (self.new ≡ self.old) }
        ensures published { (p : Setup A) (calls : List Call) → PublisherStandsAfter p calls self.old →
            IfOk result (λ o. PublishesOctets p (calls ++ call now (Changed (change t values)) ∷ []) (length calls) o.items) }
        ensures stands { (p : Setup A) (calls : List Call) → PublisherStandsAfter p calls self.old →
            OnOk result (PublisherStandsAfter p (calls ++ call now (Changed (change t values)) ∷ []) self.new) }
    {
        match self.change_held(now, t, values) {
            Ok(()) => Ok(self.held()),
            Err(refused) => Err(refused),
        }
    }

    /// Changes the data set as `change` does. `held_frame` then lends the octets of the first frame of the new state.
    ///
    /// # Errors
    ///
    /// Those of `change`; what is lent is then as it was, too.
    pub fn change_held(
        &mut self,
        now: u64,
        t: UtcTime,
        values: ValueList<A>,
    ) -> Result<(), (PublishFault, ValueList<A>)>
        ensures accepted { (p : Setup A) (calls : List Call) → PublisherStandsAfter p calls self.old →
            OnOk result (Accepts p calls (change t values)) }
        ensures refused { (p : Setup A) (calls : List Call) → PublisherStandsAfter p calls self.old →
            IfErr result (λ e. Refuses p calls (change t values) e.0) }
        ensures handed_back { IfErr result (λ e. e.1 ≡ values) }
        ensures unchanged { OnErr result (self.new ≡ self.old) }
        ensures published { (p : Setup A) (calls : List Call) → PublisherStandsAfter p calls self.old →
            OnOk result (PublishesOctets p (calls ++ call now (Changed (change t values)) ∷ []) (length calls) (octets_held self.new)) }
        ensures stands { (p : Setup A) (calls : List Call) → PublisherStandsAfter p calls self.old →
            OnOk result (PublisherStandsAfter p (calls ++ call now (Changed (change t values)) ∷ []) self.new) }
    {
        self.take_change(now, t, values)
    }

    /// Asks for a frame at a moment, in microseconds: the octets of the next frame of the newest state, exactly where the
    /// wait behind the last one is over. A moment below the publisher's counts as the publisher's. A poll that gives
    /// None counts its moment too. Takes no memory and never fails.
    pub fn poll(&mut self, now: u64) -> Option<ArrayVec<u8, 1600>>
        ensures published { (p : Setup A) (calls : List Call) → PublisherStandsAfter p calls self.old →
            MatchOption result
            (PublishesNone p (calls ++ call now Polled ∷ []) (length calls))
            (λ o. PublishesOctets p (calls ++ call now Polled ∷ []) (length calls) o.items) }
        ensures stands { (p : Setup A) (calls : List Call) → PublisherStandsAfter p calls self.old →
            PublisherStandsAfter p (calls ++ call now Polled ∷ []) self.new }
    {
        if self.poll_held(now) {
            Some(self.held())
        } else {
            None
        }
    }

    /// Asks for a frame as `poll` does, and answers whether there is one. `held_frame` then lends its octets.
    pub fn poll_held(&mut self, now: u64) -> bool
        ensures published { (p : Setup A) (calls : List Call) → PublisherStandsAfter p calls self.old → IsTrue result →
            PublishesOctets p (calls ++ call now Polled ∷ []) (length calls) (octets_held self.new) }
        ensures none { (p : Setup A) (calls : List Call) → PublisherStandsAfter p calls self.old → result ≡ false →
            PublishesNone p (calls ++ call now Polled ∷ []) (length calls) }
        ensures stands { (p : Setup A) (calls : List Call) → PublisherStandsAfter p calls self.old →
            PublisherStandsAfter p (calls ++ call now Polled ∷ []) self.new }
    {
        self.take_poll(now)
    }

    /// The octets of the frame that was given last, by a change or a poll; none before the first.
    pub fn held_frame(&self) -> &[u8]
        ensures { result.now ≡ octets_held self.now }
    {
        let Publisher { kept, .. } = self;
        kept.as_slice()
    }

    // The octets of the frame that was given last, once more.
    fn held(&self) -> ArrayVec<u8, 1600>
        ensures { result.items ≡ octets_held self.now }
    {
        let Publisher { kept, .. } = self;
        copied(kept.as_slice())
    }

    // A change, by what is held.
    fn take_change(
        &mut self,
        now: u64,
        t: UtcTime,
        values: ValueList<A>,
    ) -> Result<(), (PublishFault, ValueList<A>)>
        ensures state { OnOk result (self.new ≡ change_state self.old (change t values) now) }
        ensures accepted { OnOk result (IsAccepted self.old.control self.old.table self.old.next (change t values)) }
        ensures refused { IfErr result (λ e. IsRefusal self.old.control self.old.table self.old.next (change t values) e.0) }
        ensures handed_back { IfErr result (λ e. e.1 ≡ values) }
        ensures unchanged { OnErr result (self.new ≡ self.old) }
    {
        let frame = match write_first(&self.control, &self.table, self.next, t, &values) {
            Ok(frame) => frame,
            Err(fault) => return Err((fault, values)),
        };
        let now = self.moment.max(now);
        let last = Last {
            t,
            values,
            state: self.next,
            sequence: 0,
            step: 0,
            given_at: now,
        };
        self.next = next_number(self.next);
        self.moment = now;
        self.last = Some(last);
        self.kept = frame;
        Ok(())
    }

    // A poll, by what is held.
    fn take_poll(&mut self, now: u64) -> bool
        ensures given { result ≡ is_some (poll_frame self.old now) }
        ensures state { self.new ≡ poll_state self.old now }
    {
        let now = self.moment.max(now);
        self.moment = now;
        match &mut self.last {
            None => false,
            Some(last) => {
                know_steps(&self.table);
                let wait_ms = self.table.at(last.step).wait_ms;
                if wait_is_over(last.given_at, wait_ms, now) {
                    go_on(&self.control, &self.table, last, now, &mut self.kept);
                    true
                } else {
                    false
                }
            }
        }
    }
}
