//! Octets that are looked through many at a time: a loop over a known count of them has no branch, so that the compiler
//! takes them together.

ghost use Rattle.std.specs.Prelude.{◌≡◌, ◌≤◌, ◌<◌, ◌+◌, ◌-◌, ℕ, Bool, false, length};
ghost use Rattle.std.specs.List.{list_all, prefix_len};
ghost use Rattle.ber_core.specs.Contents.{is_visible};

/// What octets are looked through for.
pub trait OctetKind: Copy {
    /// Whether an octet is of the kind.
    ghost has: { Self → ℕ → Bool };

    /// Whether an octet is of the kind.
    fn has(self, octet: u8) -> bool
        ensures { result ≡ has self octet };
}

/// Visible octets: those from 20 to 7E.
#[derive(Clone, Copy)]
pub struct Visible;

impl OctetKind for Visible {
    ghost has = { λ _. is_visible };

    #[inline(always)]
    fn has(self, octet: u8) -> bool {
        0x20 <= octet && octet <= 0x7e
    }
}

// Whether all octets are of a kind. It looks at each, also behind one that is not: for few octets, or a known count.
#[inline(always)]
fn are_all_at_once<K: OctetKind>(octets: &[u8], kind: K) -> bool
    ensures { result ≡ list_all (K.has kind) octets.now }
{
    let mut good = true;
    for octet in octets {
        good &= kind.has(*octet);
    }
    good
}

// What stands behind pieces of `N` octets that are all of a kind. They are passed while more than `kept` octets are left.
#[inline(always)]
fn behind_pieces<const N: usize, K: OctetKind>(octets: &[u8], kind: K, kept: usize) -> &[u8]
    requires some { 0 < N }
    requires enough { N ≤ kept + 1 }
    ensures fewer { length result.now ≤ length octets.now }
    ensures all { list_all (K.has kind) octets.now ≡ list_all (K.has kind) result.now }
    ensures front { prefix_len (K.has kind) octets.now ≡ (length octets.now - length result.now) + prefix_len (K.has kind) result.now }
    ensures stopped { kept < length result.now → list_all (K.has kind) result.now ≡ false }
{
    let mut others = octets;
    'pieces: while kept < others.len() {
        let (piece, rest) = others.split_at(N);
        if !are_all_at_once(piece, kind) {
            return others;
        }
        others = rest;
    }
    others
}

// Whether the first `N` octets and the last `N` are of a kind, which are all, some of them perhaps twice.
#[inline(always)]
fn are_ends<const N: usize, K: OctetKind>(octets: &[u8], kind: K) -> bool
    requires least { N ≤ length octets.now }
    requires most { length octets.now ≤ N + N }
    ensures { result ≡ list_all (K.has kind) octets.now }
{
    let Some((first, _)) = octets.split_first_chunk::<N>() else {
        unreachable!()
    };
    let Some((_, last)) = octets.split_last_chunk::<N>() else {
        unreachable!()
    };
    are_all_at_once(first, kind) && are_all_at_once(last, kind)
}

/// Whether all octets are of a kind: of a short text its first ones and its last ones, of which some may be the same, and of
/// a long one those in front piece by piece.
#[inline(always)]
pub fn are_all<K: OctetKind>(octets: &[u8], kind: K) -> bool
    ensures { result ≡ list_all (K.has kind) octets.now }
{
    let others = behind_pieces::<16, K>(octets, kind, 32);
    match others.len() {
        0..=3 => are_all_at_once(others, kind),
        4..=7 => are_ends::<4, K>(others, kind),
        8..=15 => are_ends::<8, K>(others, kind),
        16..=32 => are_ends::<16, K>(others, kind),
        _ => false,
    }
}

// How many octets in front are of a kind, octet by octet. A call of its own, since its loop is slower where it is inlined.
#[inline(never)]
fn short_front_count<K: OctetKind>(octets: &[u8], kind: K) -> usize
    ensures counted { result ≡ prefix_len (K.has kind) octets.now }
    ensures inside { result ≤ length octets.now }
{
    for at in 0..octets.len() {
        if !kind.has(octets[at]) {
            return at;
        }
    }
    octets.len()
}

/// How many octets in front are of a kind: first by many, then by fewer.
#[inline(always)]
pub fn front_count<K: OctetKind>(octets: &[u8], kind: K) -> usize
    ensures counted { result ≡ prefix_len (K.has kind) octets.now }
    ensures inside { result ≤ length octets.now }
{
    let others = behind_pieces::<64, K>(octets, kind, 63);
    let others = behind_pieces::<16, K>(others, kind, 15);
    let others = behind_pieces::<4, K>(others, kind, 3);
    octets.len() - others.len() + short_front_count(others, kind)
}
