//! The run of an engine over a reader of items: an item is asked for once the text of the item before
//! stands written.
ghost use Rattle.std.specs.Prelude.{◌≡◌, ◌<◌, ◌^◌, ◌⊎◌, ◌++◌, ℕ, Bool, List, [], Some, None, Ok, false, IfOk, IfSome, IsOk, OnErr, OnOk, length, take, if◌then◌else◌};
ghost use Rattle.list_core.specs.declared.device.InputEnd.{InputEnd};
ghost use Rattle.list_core.specs.Device.{GivesOctets};
ghost use Rattle.list_core.specs.ItemReader.{item_state};
ghost use Rattle.list_core.specs.ReadItems.{AnswerOf};
ghost use Rattle.engine_core.specs.Ending.{ending_by_fault, is_write_fault};
ghost use Rattle.engine_core.specs.EngineText.{Alike, Allowed, ItemText, Text, exactly, has_finding};
ghost use Rattle.engine_core.specs.Input.{reader_of};
ghost use Rattle.engine_core.specs.Run.{LeavesRefused, Writes, list_input};
ghost use Rattle.engine_core.specs.RunOver.{EndsThere, HaltsAtEnd, Leaves, RunsOver, Stops, ending_by_halt, fault_by_halt, stopped_at};
ghost use Rattle.engine_core.specs.computed.EngineStep.{LineWrites, PutsLine, StepWrites, Takes, is_failed_write, stops_by};

use crate::ending::Ending;
use crate::stopped::{Halt, Stopped};
use list_core::{
    InputFault, ItemFault, ItemReader, LineRules, ReadError, ReadItems, Sink, Source, put_all,
};
use std::alloc::{AllocError, Allocator};

/// What an engine writes for an item, and last at the end of its input or on a fault of it. A value stands after some items.
pub trait Engine<A: Allocator, F: InputFault> {
    /// What the input gives.
    type Item: Drop;

    /// What it may write of an item, by those before it.
    ghost allows: { Self → Allowed Self.Item F.Refusal F };

    /// The engine was handed these items.
    ghost stands: { Self → List (ℕ × Self.Item) → Type 0 };

    /// Appends the text of the next item, and answers whether the item is a finding; or why it is
    /// refused. Memory is wanted for a text, and for what is kept, alone: an item that writes and keeps nothing asks for none.
    /// Where it is refused, the line's earlier text remains. An item that is used up may be left as spare.
    fn put_item(
        &mut self,
        line: &mut Vec<u8, A>,
        number: u64,
        item: Self::Item,
        spare: &mut Option<Self::Item>,
    ) -> Result<bool, ReadError<F::Refusal>>
        ensures same { Alike (allows self.old) (allows self.new) }
        ensures step { (before : List (ℕ × Self.Item)) → stands self.old before →
            Takes F.refused (allows self.old) (stands self.new) before (number, item) result line.old.items line.new.items }
        ensures kept { OnErr result (take (length line.old.items) line.new.items ≡ line.old.items) };

    /// Appends the line at the end of the input that stands at a position, and answers whether it is a finding; or nothing, where
    /// there is none.
    fn put_end(&self, line: &mut Vec<u8, A>, at: u128) -> Result<Option<bool>, AllocError>
        ensures ends { (items : List (ℕ × Self.Item)) → stands self.now items → (lines : List ItemText) × (allows self.now).at_end items lines }
        ensures line { (items : List (ℕ × Self.Item)) → stands self.now items → (lines : List ItemText) → (allows self.now).at_end items lines → PutsLine lines at result line.old.items line.new.items }
        ensures few { IfOk result (λ o. IfSome o (λ _. at < 2 ^ 66)) };

    /// Appends the last text on a fault. Where memory is refused, the line's earlier text remains.
    fn put_last(&self, line: &mut Vec<u8, A>, fault: &F) -> Result<(), AllocError>
        ensures text { OnOk result (line.new.items ≡ line.old.items ++ (allows self.now).last fault.now) }
        ensures kept { OnErr result (take (length line.old.items) line.new.items ≡ line.old.items) }
        ensures quiet { (allows self.now).last fault.now ≡ [] → IsOk result };
}

/// How a run goes on after an answer of the reader, or at its end.
#[derive(Drop)]
pub enum Next<F> {
    /// An item's text was written; the item is a finding or not.
    Wrote(bool),
    /// The input has ended.
    Ended,
    /// The run ends here.
    Stop(Halt<F>),
}

// The ending at a fault.
fn ending_for<F: InputFault>(fault: &F) -> Ending
    ensures { result ≡ ending_by_fault F.failed fault.now }
{
    if fault.is_failed_read() {
        Ending::ReadFault
    } else {
        Ending::InputFault
    }
}

// Writes the last text on a fault, with which the run ends.
fn answer_fault<A: Allocator, F: InputFault + Drop, E: Engine<A, F>, W: Sink>(
    engine: &E,
    line: &mut Vec<u8, A>,
    fault: F,
    writer: &mut W,
) -> Halt<F>
    requires { W.failed writer.old ≡ false }
    ensures stops { Stops ((E.allows engine.now).last fault ≡ [] → ⊥) (λ text closing. (text ≡ (E.allows engine.now).last fault) × (closing ≡ Some fault)) result (W.contents writer.old) (W.contents writer.new) }
    ensures fails { W.failed writer.new ≡ is_failed_write result }
{
    line.clear();
    match engine.put_last(line, &fault) {
        Ok(()) => match put_all(writer, line.as_slice()) {
            Ok(()) => Halt::Fault(fault),
            Err(_) => Halt::WriteFault,
        },
        Err(_) => Halt::Memory,
    }
}

// Writes the text of an item, or the last text where it is refused. Inlined, so that an item is not moved for it.
#[inline(always)]
fn answer_item<A: Allocator, F: InputFault + Drop, E: Engine<A, F>, W: Sink>(
    engine: &mut E,
    line: &mut Vec<u8, A>,
    number: u64,
    item: E::Item,
    spare: &mut Option<E::Item>,
    writer: &mut W,
) -> Next<F>
    requires { W.failed writer.old ≡ false }
    ensures same { Alike (E.allows engine.old) (E.allows engine.new) }
    ensures step { (before : List (ℕ × E.Item)) → E.stands engine.old before →
        StepWrites F.refused (E.allows engine.old) (E.stands engine.new) before (Ok (Some (number, item))) result (W.contents writer.old) (W.contents writer.new) }
    ensures fails { W.failed writer.new ≡ stops_by is_failed_write result }
{
    line.clear();
    match engine.put_item(line, number, item, spare) {
        Ok(found) => match put_all(writer, line.as_slice()) {
            Ok(()) => Next::Wrote(found),
            Err(_) => Next::Stop(Halt::WriteFault),
        },
        Err(ReadError::Fault(cause)) => {
            Next::Stop(answer_fault(engine, line, F::of_refused(number, cause), writer))
        }
        Err(ReadError::Memory(_)) => Next::Stop(Halt::Memory),
    }
}

// Takes the next item of the input and writes its text, or the last text on a fault.
fn answer_next<
    A: Allocator + Copy,
    F: InputFault + Drop,
    I: ReadItems<A, Fault = F>,
    E: Engine<A, F, Item = I::Item>,
    W: Sink,
>(
    alloc: A,
    engine: &mut E,
    line: &mut Vec<u8, A>,
    items: &mut I,
    spare: &mut Option<I::Item>,
    writer: &mut W,
) -> Next<F>
    requires { W.failed writer.old ≡ false }
    ensures same { Alike (E.allows engine.old) (E.allows engine.new) }
    ensures step { (answer : AnswerOf I.Item F) × I.answers items.old answer items.new
        × ((before : List (ℕ × I.Item)) → E.stands engine.old before →
        StepWrites F.refused (E.allows engine.old) (E.stands engine.new) before answer result (W.contents writer.old) (W.contents writer.new)) }
    ensures fewer { (found : Bool) → result ≡ Next.Wrote found → I.most items.new < I.most items.old }
    ensures fails { W.failed writer.new ≡ stops_by is_failed_write result }
{
    match items.read_item(alloc, spare) {
        Ok(None) => Next::Ended,
        Ok(Some(item)) => answer_item(engine, line, items.item_number(), item, spare, writer),
        Err(ReadError::Fault(fault)) => Next::Stop(answer_fault(engine, line, fault, writer)),
        Err(ReadError::Memory(_)) => Next::Stop(Halt::Memory),
    }
}

/// The ending of a run that answered its whole input.
pub fn ending_where(found: bool) -> Ending
    ensures { result ≡ (if found then Ending.Findings else Ending.Done) }
{
    if found {
        Ending::Findings
    } else {
        Ending::Done
    }
}

/// How a run ends that stops early, and the fault by which it does.
pub fn ended_by<F: InputFault>(halt: Halt<F>) -> (Ending, Option<F>)
    ensures ending { result.0 ≡ ending_by_halt F.failed halt }
    ensures fault { result.1 ≡ fault_by_halt halt }
{
    match halt {
        Halt::Fault(fault) => (ending_for(&fault), Some(fault)),
        Halt::WriteFault => (Ending::WriteFault, None),
        Halt::Memory => (Ending::Memory, None),
    }
}

// Writes the line at the end of the input that stands at a position.
fn answer_line<A: Allocator, F: InputFault, E: Engine<A, F>, W: Sink>(
    engine: &E,
    line: &mut Vec<u8, A>,
    at: u128,
    writer: &mut W,
) -> Next<F>
    requires { W.failed writer.old ≡ false }
    ensures ends { (items : List (ℕ × E.Item)) → E.stands engine.now items → (lines : List ItemText) × (E.allows engine.now).at_end items lines }
    ensures line { (items : List (ℕ × E.Item)) → E.stands engine.now items → (lines : List ItemText) → (E.allows engine.now).at_end items lines → LineWrites lines at result (W.contents writer.old) (W.contents writer.new) }
    ensures few { (found : Bool) → result ≡ Next.Wrote found → at < 2 ^ 66 }
    ensures fails { W.failed writer.new ≡ stops_by is_failed_write result }
{
    line.clear();
    let found = match engine.put_end(line, at) {
        Ok(Some(found)) => found,
        Ok(None) => return Next::Ended,
        Err(_) => return Next::Stop(Halt::Memory),
    };
    match put_all(writer, line.as_slice()) {
        Ok(()) => Next::Wrote(found),
        Err(_) => Next::Stop(Halt::WriteFault),
    }
}

// Writes the lines at the end of the input, one after another, where something was found before or nothing was; and answers how that ended.
// Never inlined, so that a run keeps its registers.
#[inline(never)]
fn close<A: Allocator, F: InputFault, E: Engine<A, F>, W: Sink>(
    engine: &E,
    line: &mut Vec<u8, A>,
    found: bool,
    writer: &mut W,
) -> (Ending, Option<F>)
    requires works { W.failed writer.old ≡ false }
    ensures closes { (items : List (ℕ × E.Item)) → E.stands engine.now items → (texts : List ItemText) → has_finding texts ≡ found →
        EndsThere (E.allows engine.now) items texts (Ok None) result.0 result.1 (W.contents writer.old) (W.contents writer.new)
        ⊎ HaltsAtEnd (E.allows engine.now) items (Ok None) result.0 result.1 (W.contents writer.old) (W.contents writer.new) }
    ensures fault { W.failed writer.new ≡ is_write_fault result.0 }
{
    let mut finds = found;
    let mut at = 0;
    'lines: loop {
        match answer_line(engine, line, at, writer) {
            Next::Wrote(is_found) => {
                finds |= is_found;
                at += 1;
            }
            Next::Ended => return (ending_where(finds), None),
            Next::Stop(halt) => return ended_by(halt),
        }
    }
}

/// Writes the first text, then the text of each item, and the last text where the input has a fault or an item is refused, or the
/// lines at its end; and answers how that ended. The reader of the items is lent: that of a list holds 8,192 octets, so each move of
/// it needs as much of the stack.
pub fn run_on<
    A: Allocator + Copy,
    F: InputFault + Drop,
    I: ReadItems<A, Fault = F>,
    E: Engine<A, F, Item = I::Item>,
    W: Sink,
>(alloc: A, engine: &mut E, first: &[u8], items: &mut I, writer: &mut W) -> (Ending, Option<F>)
    requires works { W.failed writer.old ≡ false }
    requires first { first.now ≡ (E.allows engine.old).first }
    requires fresh { E.stands engine.old [] }
    ensures text { RunsOver (reader_of I.answers I.number F.refused F.failed) (E.allows engine.old) items.old (stopped_at result.0 result.1 items.new) (W.contents writer.old) (W.contents writer.new) }
    ensures fault { W.failed writer.new ≡ is_write_fault result.0 }
{
    match put_all(writer, first) {
        Ok(()) => {}
        Err(_) => return ended_by(Halt::WriteFault),
    }
    let mut line = Vec::new(alloc);
    let mut spare = None;
    let mut found = false;
    'answers: loop {
        match answer_next(alloc, engine, &mut line, items, &mut spare, writer) {
            Next::Wrote(is_finding) => found |= is_finding,
            Next::Ended => return close(engine, &mut line, found, writer),
            Next::Stop(halt) => return ended_by(halt),
        }
    }
}

/// Writes the first text, then the text of each item of a reader in its turn, and the last text where
/// the input has a fault or an item is refused, or the lines at its end. Hands out how that ended, the fault by which it did, and the reader.
pub fn run_over<
    A: Allocator + Copy,
    F: InputFault + Drop,
    I: ReadItems<A, Fault = F>,
    E: Engine<A, F, Item = I::Item> + Drop,
    W: Sink,
>(alloc: A, mut engine: E, first: &[u8], mut items: I, writer: &mut W) -> Stopped<I, F>
    requires works { W.failed writer.old ≡ false }
    requires first { first.now ≡ (E.allows engine).first }
    requires fresh { E.stands engine [] }
    ensures text { RunsOver (reader_of I.answers I.number F.refused F.failed) (E.allows engine) items result (W.contents writer.old) (W.contents writer.new) }
    ensures fault { W.failed writer.new ≡ is_write_fault result.ending }
{
    let (ending, fault) = run_on(alloc, &mut engine, first, &mut items, writer);
    Stopped {
        ending,
        fault,
        reader: items,
    }
}

/// Writes the first text, then the text of each item of a list in its turn, and the last text where
/// the list has a fault or an item is refused. Hands out how that ended, the fault by which it did, and the reader of the items.
pub fn run_to_stop<
    A: Allocator + Copy,
    G: LineRules<A> + Drop,
    E: Engine<A, ItemFault<G::Cause>, Item = G::Item> + Drop,
    R: Source,
    W: Sink,
>(
    alloc: A,
    rules: G,
    mut engine: E,
    first: &[u8],
    reader: R,
    writer: &mut W,
) -> Stopped<ItemReader<R, G>, ItemFault<G::Cause>>
    requires open { R.ending reader ≡ InputEnd.Open }
    requires works { W.failed writer.old ≡ false }
    requires first { first.now ≡ (E.allows engine).first }
    requires fresh { E.stands engine [] }
    ensures text { (t : Text G.Item G.Cause) → Alike (E.allows engine) (exactly t) → (given : List ℕ) × GivesOctets (R.left reader) (item_state R.left R.ending result.reader).left given
        × Leaves (list_input G.rules rules) (exactly t) result.ending result.fault (item_state R.left R.ending result.reader).ending given (W.contents writer.old) (W.contents writer.new) }
    ensures read_fault { result.ending ≡ Ending.ReadFault → (item_state R.left R.ending result.reader).ending ≡ InputEnd.Failed }
    ensures fault { W.failed writer.new ≡ is_write_fault result.ending }
{
    let mut items = ItemReader::new(reader, rules);
    let (ending, fault) = run_on(alloc, &mut engine, first, &mut items, writer);
    Stopped {
        ending,
        fault,
        reader: items,
    }
}

/// Writes the first text, then the text of each item of a list in its turn, and the last text where
/// the list has a fault or an item is refused.
pub fn run<
    A: Allocator + Copy,
    G: LineRules<A> + Drop,
    E: Engine<A, ItemFault<G::Cause>, Item = G::Item> + Drop,
    R: Source,
    W: Sink,
>(alloc: A, rules: G, engine: E, first: &[u8], reader: R, writer: &mut W) -> (Ending, R)
    requires open { R.ending reader ≡ InputEnd.Open }
    requires works { W.failed writer.old ≡ false }
    requires first { first.now ≡ (E.allows engine).first }
    requires fresh { E.stands engine [] }
    ensures text { (t : Text G.Item G.Cause) → Alike (E.allows engine) (exactly t) → (given : List ℕ) × GivesOctets (R.left reader) (R.left result.1) given
        × Writes G.rules rules t result.0 (R.ending result.1) given (W.contents writer.old) (W.contents writer.new) }
    ensures read_fault { result.0 ≡ Ending.ReadFault → R.ending result.1 ≡ InputEnd.Failed }
    ensures fault { W.failed writer.new ≡ is_write_fault result.0 }
{
    run_to_stop(alloc, rules, engine, first, reader, writer).into_source()
}

/// Writes one text alone and reads nothing, where a run is refused.
pub fn refuse<R, W: Sink>(text: &[u8], reader: R, writer: &mut W) -> (Ending, R)
    requires { W.failed writer.old ≡ false }
    ensures text { LeavesRefused text.now result.0 (W.contents writer.old) (W.contents writer.new) }
    ensures reader { result.1 ≡ reader }
    ensures fault { W.failed writer.new ≡ is_write_fault result.0 }
{
    match put_all(writer, text) {
        Ok(()) => (Ending::InputFault, reader),
        Err(_) => (Ending::WriteFault, reader),
    }
}
