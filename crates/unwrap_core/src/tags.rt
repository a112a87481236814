//! Which tag of a frame is taken out.
ghost use Rattle.std.specs.Prelude.{◌≡◌, ◌≤◌, ◌+◌, ◌==◌, ◌||◌, None, false, length, IfSome, option_map};
ghost use Rattle.frame_core.specs.Envelope.{word_at};
ghost use Rattle.unwrap_core.specs.Unwrapped.{is_hsr_tag_at, is_vlan_tag_at, tag_behind, tag_in};

use byteorder::{BigEndian, ByteOrder};

/// The place behind the two addresses.
const BEHIND_ADDRESSES: usize = 12;

/// The place behind the addresses and a VLAN tag.
const BEHIND_TAG: usize = 16;

/// How many octets an HSR tag has: its EtherType, path and size, and the sequence number.
const HSR_TAG: usize = 6;

/// How many octets a VLAN tag has: the word that announces it, and the control word.
const VLAN_TAG: usize = 4;

/// The EtherType that announces an HSR tag (IEC 62439-3).
const HSR: u16 = 0x892f;

/// The word that announces a VLAN tag of a customer (IEEE 802.1Q).
const CUSTOMER: u16 = 0x8100;

/// The word that announces a VLAN tag of a provider (IEEE 802.1Q).
const PROVIDER: u16 = 0x88a8;

/// The greatest second octet of these three words.
const GREATEST_SECOND: u16 = 0xa8;

/// How many octets a frame has at least that has a tag to be taken out: the addresses, a tag, and the word behind it.
const LEAST: usize = 18;

/// A tag of a frame.
#[derive(Clone, Copy)]
pub(crate) struct Tag {
    /// The place where it stands.
    pub place: usize,
    /// How many octets it has.
    pub count: usize,
}

// Whether an HSR tag stands at a place, and an EtherType behind it.
#[inline(always)]
fn is_hsr_tag_at(octets: &[u8], place: usize) -> bool
    requires { place ≤ 16 }
    ensures { result ≡ is_hsr_tag_at place octets.now }
{
    octets.len() >= place + HSR_TAG + 2 && BigEndian::read_u16(&octets[place..]) == HSR
}

// Whether a VLAN tag stands at a place, as far as the word that announces it.
#[inline(always)]
fn is_vlan_tag_at(octets: &[u8], place: usize) -> bool
    requires { place ≤ 16 }
    ensures { result ≡ is_vlan_tag_at place octets.now }
{
    if octets.len() < place + 2 {
        return false;
    }
    let word = BigEndian::read_u16(&octets[place..]);
    word == CUSTOMER || word == PROVIDER
}

// The tag that is taken out where a VLAN tag stands behind the addresses.
fn tag_behind(octets: &[u8]) -> Option<Tag>
    ensures { option_map (λ t. (t.place, t.count)) result ≡ tag_behind octets.now }
{
    if is_hsr_tag_at(octets, BEHIND_TAG) {
        return Some(Tag {
            place: BEHIND_TAG,
            count: HSR_TAG,
        });
    }
    if is_vlan_tag_at(octets, BEHIND_TAG) {
        return Some(Tag {
            place: BEHIND_ADDRESSES,
            count: VLAN_TAG,
        });
    }
    None
}

/// The tag that is taken out of a frame first: an HSR tag behind the addresses, one behind a VLAN tag, or a VLAN tag before another.
#[inline(always)]
pub(crate) fn tag_in(octets: &[u8]) -> Option<Tag>
    ensures tag { option_map (λ t. (t.place, t.count)) result ≡ tag_in octets.now }
    ensures within { IfSome result (λ t. t.place + t.count ≤ length octets.now) }
{
    if is_hsr_tag_at(octets, BEHIND_ADDRESSES) {
        return Some(Tag {
            place: BEHIND_ADDRESSES,
            count: HSR_TAG,
        });
    }
    if is_vlan_tag_at(octets, BEHIND_ADDRESSES) {
        return tag_behind(octets);
    }
    None
}

// Whether a word announces a tag. That the EtherTypes of GOOSE and of Sampled Values do not is seen by their second octet alone.
#[inline(always)]
fn announces_tag(word: u16) -> bool
    ensures { result ≡ (word == 0x892f || (word == 0x8100 || word == 0x88a8)) }
{
    word % 256 <= GREATEST_SECOND && (word == HSR || word == CUSTOMER || word == PROVIDER)
}

/// Whether a tag may be taken out of a frame, by the words that would announce one: a quick test, which nearly every frame without
/// such a tag fails.
#[inline(always)]
pub(crate) fn may_have_tag(octets: &[u8]) -> bool
    ensures { result ≡ false → tag_in octets.now ≡ None }
{
    if octets.len() < LEAST {
        return false;
    }
    let word = BigEndian::read_u16(&octets[BEHIND_ADDRESSES..]);
    if word == CUSTOMER {
        return announces_tag(BigEndian::read_u16(&octets[BEHIND_TAG..]));
    }
    word == HSR || word == PROVIDER
}
