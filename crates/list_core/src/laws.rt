//! Laws about the definitions that the contracts of this crate cite. The functions compute nothing.

ghost use Rattle.std.specs.Prelude.{◌≡◌, ℕ, ◌+◌, ◌<◌, ◌↔◌, Bool, List, ◌++◌, codes};
ghost use Rattle.list_core.specs.declared.device.InputEnd.{InputEnd};
ghost use Rattle.list_core.specs.declared.event.Event.{Event};
ghost use Rattle.list_core.specs.EventLine.{event_of, event_rules, WritesMoment, WritesOctets};
ghost use Rattle.list_core.specs.EventText.{event_text, mode_text, IsListable, HoldsOctets};
ghost use Rattle.list_core.specs.Items.{Rules, listing, put_item};
ghost use Rattle.list_core.specs.declared.event.EventKind.TheVariants.{Frame, Clock, Mode};
ghost use Rattle.list_core.specs.declared.event_lines.MomentUnit.{MomentUnit};
ghost use Rattle.list_core.specs.declared.event_lines.MomentUnit.TheVariants.{Microseconds};
ghost use Rattle.list_core.specs.declared.event_lines.EventLines.TheVariants.{First, After};
ghost use Rattle.list_core.specs.declared.line_rules.ItemFault.TheVariants as item_fault;
ghost use Rattle.list_core.specs.Lines.{finished, faulty};
ghost use Rattle.list_core.specs.declared.list_fault.ListCause.{ListCause};
ghost use Rattle.list_core.specs.declared.list_fault.ListFault.{ListFault};

use std::alloc::Allocator;

/// What `write_event` writes reads back: wherever the line of an event stands behind a first line `V2`, it is
/// listed as that event, with its line's number, before what follows.
pub fn written_event_reads_back<A: Allocator>()
    ensures { (e : Event A) → IsListable e → HoldsOctets e.kind → (ending : InputEnd) (n : ℕ) (rest : List ℕ) → n < 1000000 →
        listing event_rules (After Microseconds) ending n (event_text e ++ rest) ≡ put_item (n + 1, e) (listing event_rules (After Microseconds) ending (n + 1) rest) }
{}

/// The first line `V2` says that moments are microseconds, and is no event.
pub fn version_comes_first<A: Allocator>()
    ensures { (ending : InputEnd) (rest : List ℕ) →
        listing (event_rules {A = A}) First ending 0 (codes "V2\n" ++ rest) ≡ listing event_rules (After Microseconds) ending 1 rest }
{}

/// A list that is finished is that of a source that ended, and only a source that failed makes a
/// list stop by `ReadFailed`.
pub fn stops_tell_the_ending<S, X, C>()
    ensures finished { (rules : Rules S X C) (settled : S) (ending : InputEnd) (n : ℕ) (text : List ℕ) →
        (listing rules settled ending n text).stop ≡ finished → ending ≡ InputEnd.End }
    ensures read_failed { (rules : Rules S X C) (settled : S) (ending : InputEnd) (n : ℕ) (text : List ℕ) (fault : ListFault) →
        (listing rules settled ending n text).stop ≡ faulty (item_fault.Lines fault) → fault.cause ≡ ListCause.ReadFailed → ending ≡ InputEnd.Failed }
{}

/// What the lines of events look like: `C`, a space and the digits of a moment; `F`, a space, the digits of a moment,
/// a space and the hexadecimal digits of a frame; or `M`, a space, the digits of a moment, a space and `on` or `off`.
/// A line is an event exactly where it matches this grammar.
pub fn a_line_says_what_it_spells<A: Allocator>()
    ensures clock { (unit : MomentUnit) (line : List ℕ) (moment : ℕ) →
        (event_of {A = A} unit line ≡ Ok (Some (record { moment = moment; kind = Clock })))
        ↔ ((digits : List ℕ) × (line ≡ codes "C " ++ digits) × WritesMoment unit digits moment) }
    ensures frame { (unit : MomentUnit) (line : List ℕ) (moment : ℕ) (octets : List ℕ) →
        (event_of {A = A} unit line ≡ Ok (Some (record { moment = moment; kind = Frame octets })))
        ↔ ((digits : List ℕ) × (hex : List ℕ) × (line ≡ codes "F " ++ digits ++ codes " " ++ hex)
        × WritesMoment unit digits moment × WritesOctets hex octets) }
    ensures mode { (unit : MomentUnit) (line : List ℕ) (moment : ℕ) (on : Bool) →
        (event_of {A = A} unit line ≡ Ok (Some (record { moment = moment; kind = Mode on })))
        ↔ ((digits : List ℕ) × (line ≡ codes "M " ++ digits ++ codes " " ++ mode_text on) × WritesMoment unit digits moment) }
{}
