//! Members of Data, seen where they stand.

ghost use Rattle.std.specs.Prelude.{◌≡◌, ◌<◌, ◌≤◌, ◌+◌, ◌-◌, ◌^◌, ◌∷◌, length, slice_range, true};
ghost use Rattle.mms_data.specs.computed.Left.{AreMembers, data_in};
ghost use Rattle.mms_data.specs.Written.{written_all};

use crate::contents::known_simple;
use crate::kinds::Kind;
use crate::known::{front_header, known_kind};
use crate::time::UtcTime;
use ber_core::Header;

/// Bits where they stand: the last `unused` bits of the last octet are no part of them, and may have any value.
#[derive(Clone, Copy)]
pub struct BitView<'a> {
    pub unused: u8,
    pub octets: &'a [u8],
    pub ghost at_most_seven: { unused ≤ 7 },
}

/// A value of Data (ISO 9506-2), seen where it stands. Its octets are a part of the source.
#[derive(Clone, Copy)]
pub enum View<'a> {
    Array(Members<'a>),
    Structure(Members<'a>),
    Boolean(bool),
    Bits(BitView<'a>),
    Integer(i64),
    Unsigned(u64),
    Floating(&'a [u8]),
    Octets(&'a [u8]),
    Visible(&'a [u8]),
    BinaryTime(&'a [u8]),
    MmsText(&'a [u8]),
    Utc(UtcTime),
}

/// Members of Data that are still to come, seen where they stand: an iterator over one `View` a member, which
/// takes no memory and ends.
#[derive(Clone, Copy)]
pub struct Members<'a> {
    octets: &'a [u8],
    depth: u8,
    // Known to stand in their written form.
    written: bool,
    pub ghost bounded: { depth ≤ 16 },
    pub ghost spelled: { AreMembers depth octets.now },
    pub ghost stands: { written ≡ true → octets.now ≡ written_all (data_in depth octets.now) },
}

/// Members of Data, seen where they stand, and what was found when they were read.
#[derive(Clone, Copy)]
pub struct CountedMembers<'a> {
    /// The count of the members.
    pub count: usize,
    /// Whether they are known to stand in their written form; false says nothing.
    pub written: bool,
    /// The members.
    pub members: Members<'a>,
}

impl<'a> Members<'a> {
    ghost use Rattle.std.specs.Prelude.{◌≢◌, ℕ, List, Ok, None, IfSome, MatchOption};
    ghost use Rattle.mms_data.specs.Data.{Data, boolean, simple};
    ghost use Rattle.mms_data.specs.Meaning.{left, meaning};
    ghost use Rattle.mms_data.specs.Place.{IsPart, ViewIsPart, source_of};
    ghost use Rattle.mms_data.specs.computed.Reading.{contents_at, members_at};
    ghost use Rattle.mms_data.specs.Spelling.{SpellSome, SpellsAll};

    /// The octets of the members, where they are known to be the written forms of the members, one after the other; `None`
    /// says nothing.
    pub fn as_written(self) -> Option<&'a [u8]>
        ensures { IfSome result (λ o. o.now ≡ written_all (left self.entry)) }
    {
        if self.written {
            Some(self.octets)
        } else {
            None
        }
    }

    /// The first member, where it is a boolean of three octets, as booleans nearly always are: it is then passed. `None` where
    /// the members begin with other octets, and passes none.
    #[inline(always)]
    pub fn next_boolean(&mut self) -> Option<bool>
        ensures only { result ≡ None → (octet : ℕ) → (others : List ℕ) → (source_of self.old).now ≢ 0x83 ∷ 1 ∷ octet ∷ others }
        ensures found { MatchOption result (self.new ≡ self.old) (λ b. (left self.old ≡ simple (boolean b) ∷ left self.new) × IsPart (source_of self.new) (source_of self.old)) }
    {
        match self.octets {
            [0x83, 1, octet, rest @ ..] => {
                *self = Members {
                    octets: rest,
                    depth: self.depth,
                    written: false,
                };
                Some(*octet != 0)
            }
            _ => None,
        }
    }

    // The members that the octets from `at` to `end` spell, the first at the level, and whether they are known to stand in
    // their written form.
    pub(crate) fn new(
        octets: &'a [u8],
        at: usize,
        end: usize,
        level: u8,
        written: bool,
    ) -> Members<'a>
        requires order { at ≤ end }
        requires inside { end ≤ length octets.now }
        requires first { 1 ≤ level }
        requires last { level ≤ 17 }
        requires accepted { SpellSome level (slice_range octets.now at end) }
        requires stands { written ≡ true → slice_range octets.now at end ≡ written_all (data_in (17 - level) (slice_range octets.now at end)) }
        ensures is { left result ≡ data_in (17 - level) (slice_range octets.now at end) }
        ensures spelled { SpellsAll (left result) level (slice_range octets.now at end) }
        ensures part { IsPart (source_of result) octets.entry }
    {
        Members {
            octets: &octets[at..end],
            depth: 17 - level,
            written,
        }
    }

    // What the contents behind this header are.
    #[inline(always)]
    fn view(contents: &'a [u8], header: &Header, kind: Kind, depth: u8) -> View<'a>
        requires few { depth ≤ 16 }
        requires begins { header.now.at < header.now.contents_from }
        requires fits { header.now.contents_from + length contents.now < 2 ^ 64 }
        requires good { (d : Data) × (contents_at (members_at depth) kind header.now contents.now ≡ Ok d) }
        ensures means { contents_at (members_at depth) kind header.now contents.now ≡ Ok (meaning result) }
        ensures part { ViewIsPart result contents.entry }
    {
        match kind {
            Kind::Array => View::Array(Members {
                octets: contents,
                depth,
                written: false,
            }),
            Kind::Structure => View::Structure(Members {
                octets: contents,
                depth,
                written: false,
            }),
            Kind::Simple(kind) => known_simple(kind, contents, header.at, header.contents_from),
        }
    }

    // The first member, and those behind it.
    #[inline(always)]
    fn split(self) -> (View<'a>, Members<'a>)
        requires { 0 < length self.octets.now }
        ensures first { left self.entry ≡ meaning result.0 ∷ left result.1 }
        ensures part { ViewIsPart result.0 (source_of self.entry) }
        ensures rest { IsPart (source_of result.1) (source_of self.entry) }
    {
        let (octets, depth) = (self.octets, self.depth);
        let header = front_header(octets);
        let kind = known_kind(octets);
        let contents = &octets[header.contents_from..header.contents_to];
        // What is left comes before the view, so that a caller's choice by the view follows at once.
        let octets = &octets[header.contents_to..];
        let rest = Members {
            octets,
            depth,
            written: false,
        };
        let view = Members::view(contents, &header, kind, depth - 1);
        (view, rest)
    }
}

impl<'a> Iterator for Members<'a> {
    ghost use Rattle.std.specs.Iterator.{item_count};
    ghost use Rattle.mms_data.specs.Meaning.{left};
    ghost use Rattle.mms_data.specs.Place.{GivesView};

    type Item = View<'a>;

    ghost next_gives = { GivesView };

    ghost remaining = { item_count left };

    // Inlined, so that the view of a member is not put together where its kind alone is asked for.
    #[inline(always)]
    fn next(&mut self) -> Option<View<'a>> {
        if self.octets.is_empty() {
            return None;
        }
        let (view, rest) = self.split();
        *self = rest;
        Some(view)
    }
}
