//! What the entries of events are handed to, one after another: a list keeps them.

ghost use Rattle.std.specs.Prelude.{◌≡◌, ◌≤◌, ◌<◌, ◌++◌, ◌∷◌, [], List, false, OnOk, IsOk, length, vec_capacity};
ghost use Rattle.pdu_core.specs.Views.{pdu_of};
ghost use Rattle.subscribe_core.specs.declared.entry.Entry.{Entry as SpecEntry};
ghost use Rattle.subscribe_core.specs.Changes.{is_change};
ghost use Rattle.subscribe_core.specs.computed.Sinks.{act_of, append_none, append_twice, ever_more, no_more, same_room, whole_entry};

use crate::entry::{Entry, PlainEntry};
use mms_data::ValueList;
use pdu_core::GooseView;
use std::alloc::{AllocError, Allocator};

/// What entries are handed to.
pub trait EntrySink<A: Allocator + Copy> {
    /// Between how it stood and how it stands it was handed these entries and no other.
    ghost gets: { Self → List (SpecEntry A) → Self → Type 0 };

    /// Between the two it was handed entries, of which memory was refused for the last, if for any.
    ghost grows: { Self → Self → Type 0 };

    /// It wants no memory for an entry that is no change.
    ghost has_room: { Self → Type 0 };

    /// Hands over an entry that has no members.
    fn put_entry(&mut self, entry: PlainEntry) -> Result<(), AllocError>
        ensures got { OnOk result (gets self.old (whole_entry entry ∷ []) self.new) }
        ensures grown { grows self.old self.new }
        ensures quiet { is_change {A = A} (whole_entry entry) ≡ false → has_room self.old → IsOk result };

    /// Hands over the entry of an action on a frame of the block at a position. A sink that keeps it copies the members.
    fn put_act(&mut self, alloc: A, block: usize, goose: &GooseView<'_>) -> Result<(), AllocError>
        ensures got { OnOk result (gets self.old (act_of block (pdu_of goose.now) ∷ []) self.new) }
        ensures grown { grows self.old self.new };

    /// Where it was handed nothing it stays.
    ghost gets_none: { (s : Self) → gets s [] s };

    /// Entries that come after others follow them.
    ghost gets_more: { (a b c : Self) (x y : List (SpecEntry A)) → gets a x b → gets b y c → gets a (x ++ y) c };

    /// It grows by nothing.
    ghost grows_none: { (s : Self) → grows s s };

    /// It grows ever more.
    ghost grows_more: { (a b c : Self) → grows a b → grows b c → grows a c };

    /// Its room stays while it is handed nothing.
    ghost room_stays: { (a b : Self) → gets a [] b → grows a b → has_room a → has_room b };
}

impl<A: Allocator + Copy> EntrySink<A> for Vec<Entry<A>, A> {
    ghost gets = { λ a es b. b.items ≡ a.items ++ es };

    ghost grows = { λ a b. vec_capacity a ≤ vec_capacity b };

    ghost has_room = { λ a. length a.items < vec_capacity a };

    fn put_entry(&mut self, entry: PlainEntry) -> Result<(), AllocError>
        ensures got { OnOk result (self.new.items ≡ self.old.items ++ whole_entry entry ∷ []) }
        ensures grown { vec_capacity self.old ≤ vec_capacity self.new }
        ensures quiet { is_change {A = A} (whole_entry entry) ≡ false → length self.old.items < vec_capacity self.old → IsOk result }
    {
        self.push(entry.whole())?;
        Ok(())
    }

    fn put_act(&mut self, alloc: A, block: usize, goose: &GooseView<'_>) -> Result<(), AllocError>
        ensures got { OnOk result (self.new.items ≡ self.old.items ++ act_of block (pdu_of goose.now) ∷ []) }
        ensures grown { vec_capacity self.old ≤ vec_capacity self.new }
    {
        let members = ValueList::from(goose.members.to_values(alloc)?);
        self.push(Entry::Act {
            block,
            state: goose.st_num,
            sequence: goose.sq_num,
            t: goose.t,
            members,
        })?;
        Ok(())
    }

    ghost gets_none = { λ s. append_none s.items };

    ghost gets_more = { λ a b c x y first second. append_twice a.items b.items c.items x y first second };

    ghost grows_none = { λ s. no_more (vec_capacity s) };

    ghost grows_more = { λ a b c first second. ever_more (vec_capacity a) (vec_capacity b) (vec_capacity c) first second };

    ghost room_stays = { λ a b none grown room. same_room a.items b.items (vec_capacity a) (vec_capacity b) none grown room };
}
