//! Reading a stated count of octets.
ghost use Rattle.std.specs.Prelude.{◌≡◌, ◌<◌, false, true, ⊤, length};
ghost use Rattle.std.specs.Io.KnownBytes.{Consumes};
ghost use Rattle.list_core.specs.declared.device.InputEnd.{InputEnd};
ghost use Rattle.capture_core.specs.computed.Filling.{Fills, Passes, ReadsPart};

use list_core::{InputEnd, Source};
use std::alloc::AllocError;

/// How far a stated count of octets was read.
#[derive(Clone, Copy)]
pub(crate) enum Filled {
    /// All of them.
    Whole,
    /// So many, and the source has ended.
    Short(usize),
}

// Reads until `into` is full, or the source has ended, as often as it takes.
#[inline(never)]
fn fill_by_reads<R: Source>(reader: &mut R, into: &mut [u8]) -> Filled
    ensures { Fills (R.left reader.old) (R.ending reader.old) result into.new (R.left reader.new) (R.ending reader.new) }
{
    let mut count = 0;
    'reads: while count < into.len() {
        match reader.ending() {
            InputEnd::Open => {}
            _ => return Filled::Short(count),
        }
        match reader.read_some(&mut into[count..]) {
            Ok(more) if more > 0 => count += more,
            _ => return Filled::Short(count),
        }
    }
    Filled::Whole
}

// Reads to all of `into` what the source has at hand, and answers whether it did. Where it did not, nothing was taken.
#[inline(always)]
fn take_at_hand<R: Source>(reader: &mut R, into: &mut [u8]) -> bool
    requires { R.ending reader.old ≡ InputEnd.Open }
    ensures taken { result ≡ true → Consumes (R.left reader.old) (R.left reader.new) into.new }
    ensures kept { result ≡ false → R.left reader.new ≡ R.left reader.old }
    ensures ending { R.ending reader.new ≡ R.ending reader.old }
{
    let count = into.len();
    match reader.at_hand().get(..count) {
        Some(octets) => into.copy_from_slice(octets),
        None => return false,
    }
    reader.take_at_hand(count)
}

// Reads until `into` is full, or the source has ended: at once where the source has all of it at hand, as nearly always.
#[inline(always)]
pub(crate) fn fill<R: Source>(reader: &mut R, into: &mut [u8]) -> Filled
    ensures { Fills (R.left reader.old) (R.ending reader.old) result into.new (R.left reader.new) (R.ending reader.new) }
{
    match reader.ending() {
        InputEnd::Open if take_at_hand(reader, into) => Filled::Whole,
        _ => fill_by_reads(reader, into),
    }
}

/// How many octets are read over at a time, where they are not at hand.
const READ_OVER: usize = 512;

// Reads over so many octets, a piece at a time, and answers whether they were there.
#[inline(never)]
fn skip_by_reads<R: Source>(reader: &mut R, size: usize) -> bool
    ensures { Passes (R.left reader.old) (R.ending reader.old) size result (R.left reader.new) (R.ending reader.new) }
{
    let mut piece = [0u8; READ_OVER];
    let mut left = size;
    'pieces: while left > 0 {
        let count = left.min(READ_OVER);
        match fill(reader, &mut piece[..count]) {
            Filled::Whole => left -= count,
            Filled::Short(_) => return false,
        }
    }
    true
}

// Reads over so many octets, and answers whether they were there. Those at hand are not looked at.
pub(crate) fn skip<R: Source>(reader: &mut R, size: usize) -> bool
    ensures { Passes (R.left reader.old) (R.ending reader.old) size result (R.left reader.new) (R.ending reader.new) }
{
    match reader.ending() {
        InputEnd::Open if reader.take_at_hand(size) => true,
        _ => skip_by_reads(reader, size),
    }
}

/// The source has ended before so many octets as are wanted.
#[derive(Clone, Copy)]
pub(crate) struct Short;

/// Why a part of a capture is not had.
#[derive(Clone, Copy)]
pub(crate) enum Unread {
    /// The source has ended before its last octet.
    Short,
    /// Memory was wanted.
    Memory(AllocError),
}

impl From<Short> for Unread {
    ghost use Rattle.std.specs.Prelude.{◌≡◌};
    ghost use Rattle.capture_core.specs.declared.filling.Unread.{Unread as SpecUnread};
    ghost use Rattle.capture_core.specs.declared.filling.Unread.TheVariants as unread;

    ghost from_gives = { λ s u. u ≡ unread.Short };

    fn from(_short: Short) -> Unread {
        Unread::Short
    }
}

// Reads until `into` is full.
pub(crate) fn take<R: Source>(reader: &mut R, into: &mut [u8]) -> Result<(), Short>
    ensures { ReadsPart (λ _ octets. octets ≡ into.new) (length into.old) (R.left reader.old) (R.ending reader.old) result (R.left reader.new) (R.ending reader.new) }
{
    match fill(reader, into) {
        Filled::Whole => Ok(()),
        Filled::Short(_) => Err(Short),
    }
}

// Reads over so many octets.
pub(crate) fn pass<R: Source>(reader: &mut R, size: usize) -> Result<(), Short>
    ensures { ReadsPart (λ _ _. ⊤) size (R.left reader.old) (R.ending reader.old) result (R.left reader.new) (R.ending reader.new) }
{
    if skip(reader, size) {
        Ok(())
    } else {
        Err(Short)
    }
}
