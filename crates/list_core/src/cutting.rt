//! The octet that divides lines or fields.
ghost use Rattle.std.specs.Prelude.{◌≡◌, ◌≤◌, ◌<◌, ◌∷◌, length, take, true, IfSome};
ghost use Rattle.list_core.specs.Cuts.{HasNo, cut_at, parts_after};
ghost use Rattle.list_core.specs.computed.PrivateOctets.{IsFirstPlace};

/// How many octets are passed over at once where none of them is the wanted one.
const PIECE: usize = 64;

/// The same where fewer are left.
const SHORT_PIECE: usize = 16;

/// The same where fewer still are left.
const FEW: usize = 4;

/// The place of the first such octet.
pub(crate) fn first_place(octets: &[u8], wanted: u8) -> Option<usize>
    ensures { IsFirstPlace wanted octets.now result }
{
    let start = pass_pieces(octets, 0, PIECE, wanted);
    let start = pass_pieces(octets, start, SHORT_PIECE, wanted);
    let start = pass_pieces(octets, start, FEW, wanted);
    match find_each(&octets[start..], wanted) {
        Some(at) => Some(start + at),
        None => None,
    }
}

/// The part in front of the first divider, and what follows that; or all, where there is none.
pub fn cut_first(octets: &[u8], divider: u8) -> (&[u8], Option<&[u8]>)
    ensures parts { cut_at divider octets.now ≡ result.0.now ∷ parts_after divider result.1 }
    ensures front { length result.0.now ≤ length octets.now }
    ensures rest { IfSome result.1 (λ rest. length rest.now ≤ length octets.now) }
{
    cut_there(octets, first_place(octets, divider), divider)
}

/// The same where the first part is short: it looks at octet by octet.
pub(crate) fn cut_short(octets: &[u8], divider: u8) -> (&[u8], Option<&[u8]>)
    ensures { cut_at divider octets.now ≡ result.0.now ∷ parts_after divider result.1 }
{
    cut_there(octets, find_each(octets, divider), divider)
}

/// The part in front of the first divider, whose place is known, and what follows that.
fn cut_there(octets: &[u8], first: Option<usize>, divider: u8) -> (&[u8], Option<&[u8]>)
    requires { IsFirstPlace divider octets.now first }
    ensures parts { cut_at divider octets.now ≡ result.0.now ∷ parts_after divider result.1 }
    ensures front { length result.0.now ≤ length octets.now }
    ensures rest { IfSome result.1 (λ rest. length rest.now ≤ length octets.now) }
{
    match first {
        Some(at) => (&octets[..at], Some(&octets[at + 1..])),
        None => (octets, None),
    }
}

/// The place of the first such octet, octet by octet. A call of its own, since its loop is slower where it is inlined.
#[inline(never)]
fn find_each(octets: &[u8], wanted: u8) -> Option<usize>
    ensures { IsFirstPlace wanted octets.now result }
{
    octets.iter().position(|octet| *octet == wanted)
}

/// Where the first piece of this size with the wanted octet begins, of those behind octets without it. Inlined, so that the
/// compiler knows the size.
#[inline(always)]
fn pass_pieces(octets: &[u8], from: usize, piece: usize, wanted: u8) -> usize
    requires some { 0 < piece }
    requires from { from ≤ length octets.now }
    requires passed { HasNo wanted (take from octets.now) }
    ensures within { result ≤ length octets.now }
    ensures before { HasNo wanted (take result octets.now) }
{
    let mut start = from;
    'pieces: while octets.len() - start >= piece && lacks(&octets[start..start + piece], wanted) {
        start += piece;
    }
    start
}

/// Whether none of the octets is the wanted one. It looks at each, which the compiler does for several at once.
#[inline(always)]
fn lacks(octets: &[u8], wanted: u8) -> bool
    ensures { result ≡ true → HasNo wanted octets.now }
{
    let mut lacks = true;
    for octet in octets {
        lacks &= *octet != wanted;
    }
    lacks
}
