//! Whether octets are those that are held but for two numbers.

ghost use Rattle.std.specs.Prelude.{◌≡◌, length, slice_range, true};
ghost use Rattle.repeat_core.specs.Alike.{AreAlike};
ghost use Rattle.repeat_core.specs.Noted.{IsPlaced};

use crate::notes::Notes;

// Whether the octets up to sqNum are those that are held but for the contents of timeAllowedtoLive. A call of its own, since these
// seldom differ.
#[cold]
#[inline(never)]
fn are_alike_but_live(held: &[u8], octets: &[u8], notes: &Notes) -> bool
    requires placed { IsPlaced (length held.now) notes.now }
    requires size { length octets.now ≡ length held.now }
    ensures front { result ≡ true → slice_range octets.now 0 notes.now.live.contents_from ≡ slice_range held.now 0 notes.now.live.contents_from }
    ensures middle { result ≡ true → slice_range octets.now notes.now.live.contents_to notes.now.sq_num.contents_from ≡ slice_range held.now notes.now.live.contents_to notes.now.sq_num.contents_from }
{
    let live = &notes.live;
    let behind = notes.sq_num.contents_from;
    octets[..live.contents_from] == held[..live.contents_from]
        && octets[live.contents_to..behind] == held[live.contents_to..behind]
}

/// Whether the octets are those that are held but for the contents of timeAllowedtoLive and sqNum. The last octet before sqNum, which
/// is one of stNum, differs most often, and is compared first.
#[inline(always)]
pub(crate) fn are_alike(held: &[u8], octets: &[u8], notes: &Notes) -> bool
    requires { IsPlaced (length held.now) notes.now }
    ensures { result ≡ true → AreAlike held.now octets.now notes.now }
{
    let sq_num = &notes.sq_num;
    if octets.len() != held.len() || octets[sq_num.at - 1] != held[sq_num.at - 1] {
        return false;
    }
    if octets[sq_num.contents_to..] != held[sq_num.contents_to..] {
        return false;
    }
    octets[..sq_num.contents_from] == held[..sq_num.contents_from]
        || are_alike_but_live(held, octets, notes)
}
