//! What entries are looked for by.

ghost use Rattle.std.specs.Prelude.{◌≡◌};
ghost use Rattle.std.specs.declared.cmp.Ordering.{Ordering as SpecOrdering};

use std::cmp::Ordering;

/// What is looked for among entries.
pub trait Probe<E> {
    /// How an entry stands to what is looked for.
    ghost cmp: { Self → E → SpecOrdering };

    /// How an entry stands to what is looked for: Less where it comes before, Greater where it comes behind.
    fn compare(&self, one: &E) -> Ordering
        ensures { result ≡ cmp self.now one.now };
}
