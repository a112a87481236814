//! What a reader of items says, of whatever input: a list's is one.
ghost use Rattle.std.specs.Prelude.{◌≡◌, ◌<◌, ◌-◌, ℕ, Bool, IfOk, IfSome};
ghost use Rattle.list_core.specs.ItemReader.{AnswersItem, item_number, item_state};
ghost use Rattle.list_core.specs.declared.line_rules.ItemFault.TheVariants.{Line};
ghost use Rattle.list_core.specs.ReadItems.{AnswerOf, is_failed_read, is_of_source, told_as};

use crate::device::Source;
use crate::item_reader::ItemReader;
use crate::line_rules::{ItemFault, LineRules};
use crate::list_fault::ListCause;
use crate::read_error::ReadError;
use std::alloc::Allocator;

/// Why an input gives no further item: what is wrong in it, or that its source failed.
pub trait InputFault {
    /// Why an item can be refused for what it says.
    type Refusal: Drop;

    /// The fault of an input whose item of this number is refused.
    ghost refused: { ℕ → Self.Refusal → Self };

    /// Whether its source failed.
    ghost failed: { Self → Bool };

    /// The fault of an input whose item of this number is refused.
    fn of_refused(number: u64, why: Self::Refusal) -> Self
        ensures { result ≡ refused number why };

    /// Whether its source failed.
    fn is_failed_read(&self) -> bool
        ensures { result ≡ failed self.now };
}

// Whether a list stops by this cause since its source failed.
fn is_by_source(cause: ListCause) -> bool
    ensures { result ≡ is_of_source cause }
{
    match cause {
        ListCause::ReadFailed => true,
        _ => false,
    }
}

impl<C: Drop> InputFault for ItemFault<C> {
    type Refusal = C;

    ghost refused = { λ number why. Line number why };

    ghost failed = { λ f. is_failed_read f };

    fn of_refused(number: u64, why: C) -> ItemFault<C> {
        ItemFault::Line(number, why)
    }

    fn is_failed_read(&self) -> bool {
        match self {
            ItemFault::Lines(fault) => is_by_source(fault.cause),
            ItemFault::Line(_, _) => false,
        }
    }
}

/// What gives the items of an input one by one, and then how it stops.
pub trait ReadItems<A: Allocator> {
    /// What it gives.
    type Item: Drop;

    /// Why it gives no more.
    type Fault: Drop;

    /// An answer leads from how the reader stood to how it stands.
    ghost answers: { Self → AnswerOf Self.Item Self.Fault → Self → Type 0 };

    /// The number of the item last given, 0 before the first.
    ghost number: { Self → ℕ };

    /// How many items can still come at most.
    ghost most: { Self → ℕ };

    /// The next item, or None at the end of the input. An earlier item that is spare may be taken, for its memory.
    fn read_item(
        &mut self,
        alloc: A,
        spare: &mut Option<Self::Item>,
    ) -> Result<Option<Self::Item>, ReadError<Self::Fault>>
        ensures answer { answers self.old (told_as (number self.new) result) self.new }
        ensures fewer { IfOk result (λ o. IfSome o (λ _. most self.new < most self.old)) };

    /// The number of the item last given, 0 before the first.
    fn item_number(&self) -> u64
        ensures { result ≡ number self.now };
}

impl<A: Allocator + Copy, R: Source, G: LineRules<A>> ReadItems<A> for ItemReader<R, G> {
    type Item = G::Item;

    type Fault = ItemFault<G::Cause>;

    ghost answers = { λ old answer new. AnswersItem G.rules (item_state R.left R.ending old) answer (item_state R.left R.ending new) };

    ghost number = { λ s. item_number s };

    ghost most = { λ s. 1000000 - (item_state R.left R.ending s).taken };

    #[inline(always)]
    fn read_item(
        &mut self,
        alloc: A,
        spare: &mut Option<G::Item>,
    ) -> Result<Option<G::Item>, ReadError<ItemFault<G::Cause>>> {
        // Taken apart here, the answer is not moved once more.
        match self.next(alloc, spare) {
            Ok(item) => Ok(item),
            Err(ReadError::Fault(fault)) => Err(ReadError::Fault(fault)),
            Err(ReadError::Memory(error)) => Err(ReadError::Memory(error)),
        }
    }

    fn item_number(&self) -> u64 {
        self.line_number()
    }
}
