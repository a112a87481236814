//! Laws about the definitions that the contracts of this crate cite. The functions compute nothing.

ghost use Rattle.unwrap_core.specs.Laws.{BareIsLeft, EachIsUnwrapped, TakenOutIsOne, UnwrappedIsBare, UnwrappedIsOne};
ghost use Rattle.unwrap_core.specs.UnwrapEvents.{UnwrapsWhatCame};

use list_core::{Event, ReadItems};
use std::alloc::Allocator;

/// Of each frame one frame is left where tags are taken out until there is none, in whatever order; it has no tag that would be
/// taken out, and a frame that has none is left as it is.
pub fn unwrapped_is_one()
    ensures each { EachIsUnwrapped }
    ensures one { UnwrappedIsOne }
    ensures bare { UnwrappedIsBare }
    ensures left { BareIsLeft }
    ensures taken { TakenOutIsOne }
{}

/// What a reader answers that unwraps frames are the events that the reader beneath gave, one by one, with their frames unwrapped.
pub fn unwrapping_leaves_what_came<A: Allocator, I: ReadItems<A, Item = Event<A>>>()
    ensures { UnwrapsWhatCame I.answers }
{}
