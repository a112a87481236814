//! How many things of each kind there were, and which was the first.
ghost use Rattle.std.specs.Prelude.{◌≡◌, map, false};
ghost use Rattle.std.specs.List.{list_any};
ghost use Rattle.tally_core.specs.Tally.{Tally, again, again_of, count_one, first_one, is_of, new_kind, no_tally};

use arrayvec::ArrayVec;
use std::marker::Model;

/// How many kinds are told apart.
const MOST_KINDS: usize = 16;

/// Things that were counted.
#[derive(Clone, Copy, Debug, Default, PartialEq, Eq)]
pub struct Total {
    /// How many there were. It stops at 18,446,744,073,709,551,615.
    pub count: u64,
    /// The number of the first.
    pub first: u64,
}

impl Total {
    // The one of this number.
    fn one(number: u64) -> Total
        ensures { result ≡ first_one number }
    {
        Total {
            count: 1,
            first: number,
        }
    }

    // These and one more.
    fn again(self) -> Total
        ensures { result ≡ again self }
    {
        Total {
            count: self.count.saturating_add(1),
            first: self.first,
        }
    }
}

/// The things of one kind that were counted.
#[derive(Clone, Copy, Debug, Default, PartialEq, Eq)]
pub struct KindTotal {
    /// Their kind: the EtherType of frames, or the link type of packets.
    pub kind: u16,
    /// How many there were, and the first.
    pub total: Total,
}

/// A tally of numbered things by their kinds: how many there were of each of the first sixteen kinds, and of all others together,
/// and the numbers of the first ones. A contract sees both.
#[derive(Drop)]
pub struct KindTally {
    kinds: ArrayVec<KindTotal, MOST_KINDS>,
    others: Option<Total>,
}

impl Model for KindTally {
    ghost Value = { Tally };

    ghost view = { λ t. record { kinds = t.kinds.items; others = t.others } };
}

// Counts one more of the kinds that are this one, and answers whether there are such.
fn count_again(kinds: &mut [KindTotal], kind: u16) -> bool
    ensures kinds { kinds.new ≡ map (again_of kind) kinds.old }
    ensures found { result ≡ list_any (is_of kind) kinds.old }
    ensures none { result ≡ false → kinds.new ≡ kinds.old }
{
    let mut found = false;
    'kinds: for i in 0..kinds.len() {
        if kinds[i].kind == kind {
            kinds[i].total = kinds[i].total.again();
            found = true;
        }
    }
    found
}

impl KindTally {
    /// Nothing was counted.
    pub fn new() -> KindTally
        ensures { result ≡ no_tally }
    {
        KindTally {
            kinds: ArrayVec::new(),
            others: None,
        }
    }

    /// The kinds told apart, in the order in which they came first, and the things of each.
    pub fn kinds(&self) -> &[KindTotal]
        ensures { result.now ≡ self.now.kinds }
    {
        self.kinds.as_slice()
    }

    /// The things of all other kinds.
    pub fn others(&self) -> Option<Total>
        ensures { result ≡ self.now.others }
    {
        self.others
    }

    // Counts the one of this number, which is of none of the kinds told apart.
    fn count_new(&mut self, number: u64, kind: u16)
        ensures { self.new ≡ new_kind number kind self.old }
    {
        if self.kinds.len() < MOST_KINDS {
            self.kinds.push(KindTotal {
                kind,
                total: Total::one(number),
            });
            return;
        }
        self.others = match self.others {
            None => Some(Total::one(number)),
            Some(total) => Some(total.again()),
        };
    }

    /// Counts the one of this number, which is of this kind.
    pub fn count(&mut self, number: u64, kind: u16)
        ensures { self.new ≡ count_one number kind self.old }
    {
        if !count_again(self.kinds.as_mut_slice(), kind) {
            self.count_new(number, kind);
        }
    }
}
