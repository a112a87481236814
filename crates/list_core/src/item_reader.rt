//! The items of a list, one at a time, by the rules of its kind.
ghost use Rattle.std.specs.Prelude.{◌≡◌, ◌≢◌, ◌+◌, [], MatchOption};

use crate::device::Source;
use crate::line_reader::LineReader;
use crate::line_rules::{ItemFault, LineRules};
use crate::read_error::ReadError;
use std::alloc::Allocator;

/// What one line gave.
#[derive(Drop)]
enum Tried<X, C> {
    /// The line has no item and was taken off.
    Skipped,
    /// The answer to the caller.
    Answered(Result<Option<X>, ReadError<ItemFault<C>>>),
}

/// Reads a list item by item. It holds 8,192 octets at most.
#[derive(Drop)]
pub struct ItemReader<R, G> {
    lines: LineReader<R>,
    rules: G,
    number: u64,
}

impl<R: Source, G> ItemReader<R, G> {
    ghost use Rattle.list_core.specs.ItemReader.{AnswersItem, item_number, item_state, item_number_told};
    ghost use Rattle.list_core.specs.ReadItems.{told_as};
    ghost use Rattle.list_core.specs.computed.PrivateCalls.{Tries};

    /// A reader of the list that the source gives.
    pub fn new(reader: R, rules: G) -> Self
        ensures left { (item_state R.left R.ending result).left ≡ R.left reader }
        ensures ending { (item_state R.left R.ending result).ending ≡ R.ending reader }
        ensures held { (item_state R.left R.ending result).held ≡ [] }
        ensures taken { (item_state R.left R.ending result).taken ≡ 0 }
        ensures settled { (item_state R.left R.ending result).settled ≡ rules }
        ensures number { item_number result ≡ 0 }
    {
        ItemReader {
            lines: LineReader::new(reader),
            rules,
            number: 0,
        }
    }

    /// The number of the line last answered or refused, 0 before the first.
    pub fn line_number(&self) -> u64
        ensures { result ≡ item_number self.now }
    {
        self.number
    }

    /// The octets that are held from the start of a line on, if that line is the next one. The line of a fault of the list is,
    /// and these octets begin with it, or with its first 4,097 octets where it is longer.
    pub fn held_from(&self, line: u64) -> Option<&[u8]>
        ensures { MatchOption result (line ≢ (item_state R.left R.ending self.now).taken + 1)
            (λ octets. (line ≡ (item_state R.left R.ending self.now).taken + 1) × (octets.now ≡ (item_state R.left R.ending self.now).held)) }
    {
        if line == self.lines.next_number() {
            Some(self.lines.rest())
        } else {
            None
        }
    }

    /// Tries the next line.
    #[inline(always)]
    fn try_line<A: Allocator + Copy>(
        &mut self,
        alloc: A,
        spare: &mut Option<G::Item>,
    ) -> Tried<G::Item, G::Cause>
    where
        G: LineRules<A>,
        ensures { Tries G.rules (item_state R.left R.ending self.old) (item_number self.old) result (item_state R.left R.ending self.new) (item_number self.new) }
    {
        match self.lines.fill() {
            Err(fault) => {
                self.number = fault.line;
                Tried::Answered(Err(ReadError::Fault(ItemFault::Lines(fault))))
            }
            Ok(None) => match self.rules.lacks() {
                None => Tried::Answered(Ok(None)),
                Some(cause) => {
                    self.number = self.lines.next_number();
                    Tried::Answered(Err(ReadError::Fault(ItemFault::Line(self.number, cause))))
                }
            },
            Ok(Some(size)) => match self.rules.item_in(alloc, spare, self.lines.front(size)) {
                Ok(None) => {
                    self.lines.take(size);
                    Tried::Skipped
                }
                Ok(Some(item)) => {
                    self.lines.take(size);
                    self.number = self.lines.line_number();
                    Tried::Answered(Ok(Some(item)))
                }
                Err(ReadError::Memory(error)) => Tried::Answered(Err(ReadError::Memory(error))),
                Err(ReadError::Fault(cause)) => {
                    self.number = self.lines.next_number();
                    Tried::Answered(Err(ReadError::Fault(ItemFault::Line(self.number, cause))))
                }
            },
        }
    }

    /// The next item, or None at the list's end. Lines without items are passed over. After a
    /// fault every later call answers the same fault, and after None it answers None. After want
    /// of memory the next call tries the same line again. An earlier item that is spare may be taken, for its memory.
    #[inline(always)]
    pub fn next<A: Allocator + Copy>(
        &mut self,
        alloc: A,
        spare: &mut Option<G::Item>,
    ) -> Result<Option<G::Item>, ReadError<ItemFault<G::Cause>>>
    where
        G: LineRules<A>,
        ensures item { AnswersItem G.rules (item_state R.left R.ending self.old) (told_as (item_number self.new) result) (item_state R.left R.ending self.new) }
        ensures number { item_number self.new ≡ item_number_told (told_as (item_number self.new) result) (item_number self.old) }
    {
        'tries: loop {
            match self.try_line(alloc, spare) {
                Tried::Skipped => {}
                Tried::Answered(answer) => return answer,
            }
        }
    }
}

impl<R: Source, G: Drop> ItemReader<R, G> {
    ghost use Rattle.list_core.specs.ItemReader.{item_state};

    /// The source as it stands.
    pub fn into_reader(self) -> R
        ensures left { R.left result ≡ (item_state R.left R.ending self).left }
        ensures ending { R.ending result ≡ (item_state R.left R.ending self).ending }
    {
        let ItemReader {
            lines,
            rules: _,
            number: _,
        } = self;
        lines.into_reader()
    }
}
