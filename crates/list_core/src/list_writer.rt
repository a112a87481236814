//! Writing an event as its line.
ghost use Rattle.std.specs.Prelude.{◌≡◌, ◌+◌, ◌*◌, ◌^◌, ◌<◌, ◌≤◌, ◌↔◌, true, false, length, ◌++◌, ◌∷◌, [], codes};
ghost use Rattle.std.specs.Fmt.{decimal};
ghost use Rattle.arrayvec.specs.ArrayVec.{array_vec_len};
ghost use Rattle.hex.specs.Hex.{encode_lower};
ghost use Rattle.list_core.specs.EventText.{event_text, kind_text, IsListable};
ghost use Rattle.list_core.specs.WriteAnswer.{WritesListable, write_failed};
ghost use Rattle.list_core.specs.declared.event.EventKind.TheVariants.{Frame, Clock, Mode};

use crate::device::Sink;
use crate::event::{Event, EventKind};
use crate::hexadecimal::write_digits;
use crate::whole_write::{WriteFault, put_all};
use arrayvec::ArrayVec;
use itoa::Buffer;
use std::alloc::Allocator;

/// The most octets of a written line: its letter, two spaces, 18 digits, 4,000 digits and LF.
const LONGEST: usize = 4022;

/// The greatest moment of a list.
const LAST_MOMENT: u64 = 999_999_999_999_999_999;

/// The most octets of a frame in a list.
const LONGEST_FRAME: usize = 2000;

/// What stands where digits are about to be written.
const BLANK: [u8; 2 * LONGEST_FRAME] = [0; 2 * LONGEST_FRAME];

/// Appends octets in hexadecimal.
fn push_hex(line: &mut ArrayVec<u8, LONGEST>, octets: &[u8])
    requires size { length octets.now ≤ 2000 }
    requires room { array_vec_len line.old + 2 * length octets.now ≤ 4022 }
    ensures items { line.new.items ≡ line.old.items ++ encode_lower octets.now }
    ensures size { array_vec_len line.new ≡ array_vec_len line.old + 2 * length octets.now }
{
    let start = line.len();
    line.try_extend_from_slice(&BLANK[..2 * octets.len()])
        .unwrap();
    let _fits = write_digits(octets, &mut line.as_mut_slice()[start..]);
}

/// Makes the line of a frame in an empty one.
#[tactic(auto, using(crate::proofs::Decimals::decimal_short))]
fn list_frame(line: &mut ArrayVec<u8, LONGEST>, moment: u64, frame: &[u8])
    requires empty { line.old.items ≡ [] }
    requires moment { moment < 10 ^ 18 }
    requires frame { length frame.now ≤ 2000 }
    ensures { line.new.items ≡ codes "F " ++ decimal moment ++ codes " " ++ encode_lower frame.now ++ 10 ∷ [] }
{
    line.push(b'F');
    line.push(b' ');
    line.try_extend_from_slice(Buffer::new().format(moment).as_bytes())
        .unwrap();
    line.push(b' ');
    push_hex(line, frame);
    line.push(b'\n');
}

/// The line of a clock moment.
#[tactic(auto, using(crate::proofs::Decimals::decimal_short))]
fn listed_clock(moment: u64) -> ArrayVec<u8, LONGEST>
    requires { moment < 10 ^ 18 }
    ensures { result.items ≡ codes "C " ++ decimal moment ++ 10 ∷ [] }
{
    let mut line = ArrayVec::new();
    line.push(b'C');
    line.push(b' ');
    line.try_extend_from_slice(Buffer::new().format(moment).as_bytes())
        .unwrap();
    line.push(b'\n');
    line
}

/// The line of a mode.
#[tactic(auto, using(crate::proofs::Decimals::decimal_short))]
fn listed_mode(moment: u64, on: bool) -> ArrayVec<u8, LONGEST>
    requires { moment < 10 ^ 18 }
    ensures { result.items ≡ kind_text {A = Unit {0}} (decimal moment) (Mode on) }
{
    let mut line = ArrayVec::new();
    line.push(b'M');
    line.push(b' ');
    line.try_extend_from_slice(Buffer::new().format(moment).as_bytes())
        .unwrap();
    line.push(b' ');
    line.push(b'o');
    if on {
        line.push(b'n');
    } else {
        line.push(b'f');
        line.push(b'f');
    }
    line.push(b'\n');
    line
}

/// Writes an event as its one line: the moment in microseconds without leading zeros, the octets in
/// lower case hexadecimal, and LF. Such a line belongs behind a first line `V2`. Takes no memory.
/// `NotListable` exactly where the moment is over 999,999,999,999,999,999 microseconds or the frame
/// has 0 octets or over 2,000; nothing was written then. `WriteFailed` after a prefix of the line was
/// written.
pub fn write_event<A: Allocator, W: Sink>(
    writer: &mut W,
    event: &Event<A>,
) -> Result<(), WriteFault>
    requires { W.failed writer.old ≡ false }
    ensures written { WritesListable (IsListable event.now) (event_text event.now) result (W.contents writer.old) (W.contents writer.new) }
    ensures unchanged { result ≡ Err WriteFault.NotListable → writer.new ≡ writer.old }
    ensures fault { W.failed writer.new ≡ write_failed result }
{
    match &event.kind {
        EventKind::Clock => write_clock(writer, event.moment),
        EventKind::Frame(octets) => write_frame(writer, event.moment, octets.as_slice()),
        EventKind::Mode(on) => write_mode(writer, event.moment, *on),
    }
}

/// Writes a clock moment as its line.
fn write_clock<W: Sink>(writer: &mut W, moment: u64) -> Result<(), WriteFault>
    requires { W.failed writer.old ≡ false }
    ensures written { WritesListable (moment < 10 ^ 18) (codes "C " ++ decimal moment ++ 10 ∷ []) result (W.contents writer.old) (W.contents writer.new) }
    ensures unchanged { result ≡ Err WriteFault.NotListable → writer.new ≡ writer.old }
    ensures fault { W.failed writer.new ≡ write_failed result }
{
    if moment > LAST_MOMENT {
        return Err(WriteFault::NotListable);
    }
    put_all(writer, listed_clock(moment).as_slice())
}

/// Writes a mode as its line.
fn write_mode<W: Sink>(writer: &mut W, moment: u64, on: bool) -> Result<(), WriteFault>
    requires { W.failed writer.old ≡ false }
    ensures written { WritesListable (moment < 10 ^ 18) (kind_text {A = Unit {0}} (decimal moment) (Mode on)) result (W.contents writer.old) (W.contents writer.new) }
    ensures unchanged { result ≡ Err WriteFault.NotListable → writer.new ≡ writer.old }
    ensures fault { W.failed writer.new ≡ write_failed result }
{
    if moment > LAST_MOMENT {
        return Err(WriteFault::NotListable);
    }
    put_all(writer, listed_mode(moment, on).as_slice())
}

/// Whether a line can hold a frame and its moment.
fn has_line(moment: u64, frame: &[u8]) -> bool
    ensures { (result ≡ true) ↔ ((moment < 10 ^ 18) × ((0 < length frame.now) × (length frame.now ≤ 2000))) }
{
    moment <= LAST_MOMENT && !frame.is_empty() && frame.len() <= LONGEST_FRAME
}

/// Writes a frame as its one line, as `write_event` does where an event holds it. Takes no memory. `NotListable` exactly
/// where the moment is over 999,999,999,999,999,999 microseconds or the frame has 0 octets or over 2,000; nothing was
/// written then. `WriteFailed` after a prefix of the line was written.
pub fn write_frame<W: Sink>(writer: &mut W, moment: u64, frame: &[u8]) -> Result<(), WriteFault>
    requires { W.failed writer.old ≡ false }
    ensures written { WritesListable ((moment < 10 ^ 18) × ((0 < length frame.now) × (length frame.now ≤ 2000)))
        (codes "F " ++ decimal moment ++ codes " " ++ encode_lower frame.now ++ 10 ∷ []) result (W.contents writer.old) (W.contents writer.new) }
    ensures unchanged { result ≡ Err WriteFault.NotListable → writer.new ≡ writer.old }
    ensures fault { W.failed writer.new ≡ write_failed result }
{
    // What no line can say is refused before there is room for a line.
    if !has_line(moment, frame) {
        return Err(WriteFault::NotListable);
    }
    FrameLines::new().put_line(writer, moment, frame)
}

/// Where the lines of frames are put together, one after the other.
#[derive(Drop)]
pub struct FrameLines {
    line: ArrayVec<u8, LONGEST>,
}

impl FrameLines {
    ghost use Rattle.std.specs.Prelude.{◌≡◌, ◌*◌, ◌^◌, ◌<◌, ◌≤◌, false, length, ◌++◌, ◌∷◌, [], codes};
    ghost use Rattle.std.specs.Fmt.{decimal};
    ghost use Rattle.hex.specs.Hex.{encode_lower};
    ghost use Rattle.list_core.specs.WriteAnswer.{WritesListable, write_failed};

    /// Room for a line, made once: clearing it for each line would take longer than what is written.
    pub fn new() -> FrameLines {
        FrameLines {
            line: ArrayVec::new(),
        }
    }

    /// Writes a frame as its one line, as the function `write_frame` does.
    ///
    /// # Errors
    ///
    /// `NotListable` exactly where the moment is over 999,999,999,999,999,999 microseconds or the frame has 0 octets or over
    /// 2,000; nothing was written then. `WriteFailed` after a prefix of the line was written.
    pub fn write_frame<W: Sink>(
        &mut self,
        writer: &mut W,
        moment: u64,
        frame: &[u8],
    ) -> Result<(), WriteFault>
        requires { W.failed writer.old ≡ false }
        ensures written { WritesListable ((moment < 10 ^ 18) × ((0 < length frame.now) × (length frame.now ≤ 2000)))
            (codes "F " ++ decimal moment ++ codes " " ++ encode_lower frame.now ++ 10 ∷ []) result (W.contents writer.old) (W.contents writer.new) }
        ensures unchanged { result ≡ Err WriteFault.NotListable → writer.new ≡ writer.old }
        ensures fault { W.failed writer.new ≡ write_failed result }
    {
        if !has_line(moment, frame) {
            return Err(WriteFault::NotListable);
        }
        self.put_line(writer, moment, frame)
    }

    /// Writes a frame that a line can hold.
    fn put_line<W: Sink>(
        &mut self,
        writer: &mut W,
        moment: u64,
        frame: &[u8],
    ) -> Result<(), WriteFault>
        requires works { W.failed writer.old ≡ false }
        requires listable { (moment < 10 ^ 18) × ((0 < length frame.now) × (length frame.now ≤ 2000)) }
        ensures written { WritesListable ((moment < 10 ^ 18) × ((0 < length frame.now) × (length frame.now ≤ 2000)))
            (codes "F " ++ decimal moment ++ codes " " ++ encode_lower frame.now ++ 10 ∷ []) result (W.contents writer.old) (W.contents writer.new) }
        ensures fault { W.failed writer.new ≡ write_failed result }
    {
        self.line.clear();
        list_frame(&mut self.line, moment, frame);
        put_all(writer, self.line.as_slice())
    }
}
