//! The order in which senders and streams are held.

ghost use Rattle.std.specs.Prelude.{◌≡◌};
ghost use Rattle.std.specs.Cmp.Lexicographic.{slice_cmp};
ghost use Rattle.std.specs.Ordering.{nat_cmp, ordering_then};
ghost use Rattle.loss_engine.specs.KeySaid.{key_said};
ghost use Rattle.loss_engine.specs.computed.KeyOrder.{app_id_of, key_cmp, name_cmp, name_of, rank_of, source_of};

use crate::key::Key;
use std::cmp::Ordering;

impl<'a> Key<'a> {
    // APPID.
    fn app_id(self) -> u16
        ensures { result ≡ app_id_of (key_said self.entry) }
    {
        match self {
            Key::Sender(sender) => sender.app_id,
            Key::Stream(stream) => stream.app_id,
        }
    }

    // The gocbRef or the svID.
    fn name(self) -> &'a [u8]
        ensures { result.now ≡ name_of (key_said self.entry) }
    {
        match self {
            Key::Sender(sender) => sender.reference,
            Key::Stream(stream) => stream.id,
        }
    }

    // Of streams, senders and simulated ones of the same APPID and name, streams come first.
    fn rank(self) -> u8
        ensures { result ≡ rank_of (key_said self.entry) }
    {
        match self {
            Key::Sender(sender) => 1 + u8::from(sender.simulation),
            Key::Stream(_) => 0,
        }
    }

    // The source address, which a sender has none of.
    fn source(&self) -> &[u8]
        ensures { result.now ≡ source_of (key_said self.now) }
    {
        match self {
            Key::Sender(_) => b"",
            Key::Stream(stream) => stream.source.as_slice(),
        }
    }
}

// How two names stand to one another. Most names of an input are as long as many others, and few of different lengths alike.
fn compare_names(own: &[u8], other: &[u8]) -> Ordering
    ensures { result ≡ name_cmp own.now other.now }
{
    match own.len().cmp(&other.len()) {
        Ordering::Equal => own.cmp(other),
        differing => differing,
    }
}

// How two of the same APPID and name stand to one another.
fn compare_rest(own: Key<'_>, other: Key<'_>) -> Ordering
    ensures { result ≡ ordering_then (nat_cmp (rank_of (key_said own.entry)) (rank_of (key_said other.entry))) (slice_cmp nat_cmp (source_of (key_said own.entry)) (source_of (key_said other.entry))) }
{
    match own.rank().cmp(&other.rank()) {
        Ordering::Equal => own.source().cmp(other.source()),
        differing => differing,
    }
}

// How two of the same APPID stand to one another.
fn compare_behind(own: Key<'_>, other: Key<'_>) -> Ordering
    ensures { result ≡ ordering_then (name_cmp (name_of (key_said own.entry)) (name_of (key_said other.entry)))
        (ordering_then (nat_cmp (rank_of (key_said own.entry)) (rank_of (key_said other.entry))) (slice_cmp nat_cmp (source_of (key_said own.entry)) (source_of (key_said other.entry)))) }
{
    match compare_names(own.name(), other.name()) {
        Ordering::Equal => compare_rest(own, other),
        differing => differing,
    }
}

/// How a key stands to another in the order in which they are held: by APPID, then by the length of the name and the name, then
/// by the rest.
pub fn compare_keys(own: Key<'_>, other: Key<'_>) -> Ordering
    ensures { result ≡ key_cmp (key_said own.entry) (key_said other.entry) }
{
    match own.app_id().cmp(&other.app_id()) {
        Ordering::Equal => compare_behind(own, other),
        differing => differing,
    }
}
