//! What the lines of a list say: the rules that a kind of list brings.
ghost use Rattle.std.specs.Prelude.{◌≡◌, ◌≤◌, length};
ghost use Rattle.list_core.specs.Items.{Rules, Says};

use crate::list_fault::ListFault;
use crate::read_error::ReadError;
use std::alloc::Allocator;

/// The first fault of a list of items.
#[derive(Drop)]
pub enum ItemFault<C> {
    /// Its lines end by a fault, whatever they say.
    Lines(ListFault),
    /// The line of this number is refused for what it says; or what must stand there is missing.
    Line(u64, C),
}

/// Rules for the lines of a list. A value stands between two lines, and tells what those before it
/// settled.
pub trait LineRules<A: Allocator> {
    /// What a line can give.
    type Item: Drop;

    /// Why a line can be refused.
    type Cause: Drop;

    /// The rules, as functions of a line and of what those before it settled.
    ghost rules: { Rules Self Self.Item Self.Cause };

    /// Reads a line, of at most 4,096 octets. Nothing is settled by a line that is refused, nor where memory is wanted.
    /// An earlier item that is spare may be taken, for its memory.
    fn item_in(
        &mut self,
        alloc: A,
        spare: &mut Option<Self::Item>,
        line: &[u8],
    ) -> Result<Option<Self::Item>, ReadError<Self::Cause>>
        requires { length line.now ≤ 4096 }
        ensures { Says rules self.old line.now result self.new };

    /// What is missing where the input ends.
    fn lacks(&self) -> Option<Self::Cause>
        ensures { result ≡ rules.lacks self.now };
}
