//! The events of a list, one at a time.
ghost use Rattle.std.specs.Prelude.{◌≡◌, [], ℕ};
ghost use Rattle.list_core.specs.declared.event.Event.{Event as SpecEvent};
ghost use Rattle.list_core.specs.declared.list_fault.ListCause.{ListCause as SpecCause};
ghost use Rattle.list_core.specs.ItemReader.{Answer};
ghost use Rattle.list_core.specs.ReadItems.{told_as};
ghost use Rattle.list_core.specs.ListReader.{IsToldAs, list_fault_of};
ghost use Rattle.list_core.specs.declared.event_lines.EventLines.TheVariants.{First};
ghost use Rattle.list_core.specs.EventLine.{event_rules};

use crate::device::Source;
use crate::event::Event;
use crate::event_lines::EventLines;
use crate::item_reader::ItemReader;
use crate::line_rules::ItemFault;
use crate::list_fault::{ListCause, ListFault};
use crate::read_error::ReadError;
use std::alloc::{AllocError, Allocator};
use thiserror::Error;

/// Why a list gives no further event.
#[derive(Debug, Drop, Error)]
pub enum ListError {
    /// The list's first fault.
    #[error(transparent)]
    Fault(ListFault),
    /// Memory was wanted. The next call tries the same line again.
    #[error("out of memory")]
    Memory(AllocError),
}

/// Reads a list event by event. It holds 8,192 octets at most.
#[derive(Drop)]
pub struct ListReader<R> {
    items: ItemReader<R, EventLines>,
}

/// The fault of a list of events, whether its lines have it or what they say.
pub fn fault_of_list(fault: &ItemFault<ListCause>) -> ListFault
    ensures { result ≡ list_fault_of fault.now }
{
    match fault {
        ItemFault::Lines(fault) => *fault,
        ItemFault::Line(line, cause) => ListFault {
            line: *line,
            cause: *cause,
        },
    }
}

/// An answer about the items of a list of events, as one about its events.
fn told_of_list<A: Allocator>(
    answer: Result<Option<Event<A>>, ReadError<ItemFault<ListCause>>>,
) -> Result<Option<Event<A>>, ListError>
    ensures { (n : ℕ) → IsToldAs n (told_as n answer) result }
{
    match answer {
        Ok(event) => Ok(event),
        Err(ReadError::Fault(fault)) => Err(ListError::Fault(fault_of_list(&fault))),
        Err(ReadError::Memory(error)) => Err(ListError::Memory(error)),
    }
}

impl<R: Source> ListReader<R> {
    ghost use Rattle.list_core.specs.ItemReader.{AnswersItem, item_number_told};
    ghost use Rattle.list_core.specs.ListReader.{list_state, list_number, IsToldAs};

    /// A reader of the list that the source gives.
    pub fn new(reader: R) -> Self
        ensures left { (list_state R.left R.ending result).left ≡ R.left reader }
        ensures ending { (list_state R.left R.ending result).ending ≡ R.ending reader }
        ensures held { (list_state R.left R.ending result).held ≡ [] }
        ensures taken { (list_state R.left R.ending result).taken ≡ 0 }
        ensures settled { (list_state R.left R.ending result).settled ≡ First }
        ensures number { list_number result ≡ 0 }
    {
        ListReader {
            items: ItemReader::new(reader, EventLines::First),
        }
    }

    /// The source as it stands.
    pub fn into_reader(self) -> R
        ensures left { R.left result ≡ (list_state R.left R.ending self).left }
        ensures ending { R.ending result ≡ (list_state R.left R.ending self).ending }
    {
        let ListReader { items } = self;
        items.into_reader()
    }

    /// The number of the line last answered or refused, 0 before the first.
    pub fn line_number(&self) -> u64
        ensures { result ≡ list_number self.now }
    {
        self.items.line_number()
    }

    /// The next event, or None at the list's end. Lines without events are passed over. After a
    /// fault every later call answers the same fault, and after None it answers None. After want
    /// of memory the next call tries the same line again.
    pub fn next<A: Allocator + Copy>(&mut self, alloc: A) -> Result<Option<Event<A>>, ListError>
        ensures event { (answer : Answer (SpecEvent A) SpecCause) × AnswersItem event_rules (list_state R.left R.ending self.old) answer (list_state R.left R.ending self.new)
            × IsToldAs (list_number self.new) answer result × (list_number self.new ≡ item_number_told answer (list_number self.old)) }
    {
        let mut spare = None;
        told_of_list(self.items.next(alloc, &mut spare))
    }
}
