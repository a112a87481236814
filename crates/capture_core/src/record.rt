//! The records of a capture.
ghost use Rattle.std.specs.Prelude.{◌≡◌, ◌≢◌, ◌<◌, ◌≤◌, ◌^◌, [], length, Option, Result, IfErr};
ghost use Rattle.list_core.specs.declared.device.InputEnd.{InputEnd};
ghost use Rattle.capture_core.specs.Capture.{CaptureRecord, microseconds_of, moment_in_head};
ghost use Rattle.capture_core.specs.RecordAnswers.{IsRecordToldAs, ReadsRecord};
ghost use Rattle.capture_core.specs.computed.PrivateCalls.{StopsBy, short_stop};
ghost use Rattle.capture_core.specs.declared.capture_fault.CaptureFault as fault;
ghost use Rattle.capture_core.specs.declared.capture_fault.CaptureCause.TheVariants as cause;

use crate::capture_fault::{CaptureCause, CaptureFault, cut_in};
use crate::filling::{Filled, fill, skip};
use crate::form::{CaptureForm, FractionUnit};
use crate::numbers::long_at;
use list_core::{InputEnd, Source};

/// The most octets of a frame that a list can hold.
pub const LONGEST_FRAME: usize = 2000;

/// The most octets of a record.
const LONGEST_RECORD: usize = 262_144;

/// The most records of a capture.
const MOST_RECORDS: u64 = 999_999;

/// A record of a capture.
#[derive(Clone, Copy, Debug, PartialEq, Eq)]
pub enum Captured {
    /// A frame of 1 to 2,000 octets.
    Frame {
        /// When it was captured, in microseconds.
        moment: u64,
        /// How many octets it has.
        size: usize,
    },
    /// A record that no list can hold: it has no octets, or over 2,000.
    LeftOut {
        /// How many octets it has.
        size: usize,
    },
}

// Microseconds of a fraction of a second.
fn microseconds_of(unit: FractionUnit, fraction: u32) -> u64
    ensures value { result ≡ microseconds_of unit fraction }
    ensures short { result < 2 ^ 32 }
{
    match unit {
        FractionUnit::Microseconds => fraction as u64,
        FractionUnit::Nanoseconds => (fraction / 1000) as u64,
    }
}

// The moment in the head of a record.
pub(crate) fn moment_in(form: CaptureForm, head: &[u8]) -> u64
    requires { length head.now ≡ 16 }
    ensures value { result ≡ moment_in_head form head.now }
    ensures short { result < 10 ^ 18 }
{
    let seconds = long_at(form.order, head, 0) as u64;
    let fraction = long_at(form.order, head, 4);
    seconds * 1_000_000 + microseconds_of(form.unit, fraction)
}

// The answer where the source ended so many octets into the head of a record.
fn answer_short(
    before: u64,
    count: usize,
    ending: InputEnd,
) -> Result<Option<Captured>, CaptureFault>
    requires few { before ≤ 999999 }
    requires closed { ending ≢ InputEnd.Open }
    ensures stop { StopsBy result (short_stop ending before count) }
    ensures failed { IfErr result (λ f. f.cause ≡ cause.ReadFailed → ending ≡ InputEnd.Failed) }
{
    if count > 0 && before >= MOST_RECORDS {
        return Err(CaptureCause::TooManyRecords.in_record(before + 1));
    }
    match ending {
        InputEnd::End if count == 0 => Ok(None),
        _ => Err(cut_in(before + 1, ending)),
    }
}

// Reads the octets of a record, behind its head.
fn read_octets<R: Source>(
    reader: &mut R,
    form: CaptureForm,
    before: u64,
    head: &[u8],
    frame: &mut [u8; LONGEST_FRAME],
) -> Result<Option<Captured>, CaptureFault>
    requires head { length head.now ≡ 16 }
    requires few { before < 999999 }
    ensures record { (answer : Result (Option CaptureRecord) fault.CaptureFault) × IsRecordToldAs answer result frame.new
        × ReadsRecord form before head.now (R.left reader.old) (R.ending reader.old) answer (R.left reader.new) (R.ending reader.new) }
    ensures failed { IfErr result (λ f. f.cause ≡ cause.ReadFailed → R.ending reader.new ≡ InputEnd.Failed) }
{
    let size = long_at(form.order, head, 8) as usize;
    if size > LONGEST_RECORD {
        return Err(CaptureCause::RecordLength.in_record(before + 1));
    }
    if size == 0 || size > LONGEST_FRAME {
        if skip(reader, size) {
            return Ok(Some(Captured::LeftOut { size }));
        }
        return Err(cut_in(before + 1, reader.ending()));
    }
    match fill(reader, &mut frame[..size]) {
        Filled::Whole => Ok(Some(Captured::Frame {
            moment: moment_in(form, head),
            size,
        })),
        Filled::Short(_) => Err(cut_in(before + 1, reader.ending())),
    }
}

/// Reads the record behind `before` others, of a capture in this form, or answers None at the capture's end. The octets
/// of a frame are put to the front of `frame`; a record of 0 or over 2,000 octets is read over. Takes no memory.
///
/// `TooManyRecords` where an octet stands after 999,999 records; `CaptureShort` where the source ends inside the record;
/// `RecordLength` where its captured length is over 262,144; `ReadFailed` where the source failed before that was seen.
/// No octet behind the record is read, and none behind its head where `TooManyRecords` or `RecordLength` is answered.
pub fn read_record<R: Source>(
    reader: &mut R,
    form: CaptureForm,
    before: u64,
    frame: &mut [u8; LONGEST_FRAME],
) -> Result<Option<Captured>, CaptureFault>
    requires few { before ≤ 999999 }
    ensures record { (answer : Result (Option CaptureRecord) fault.CaptureFault) × IsRecordToldAs answer result frame.new
        × ReadsRecord form before [] (R.left reader.old) (R.ending reader.old) answer (R.left reader.new) (R.ending reader.new) }
    ensures failed { IfErr result (λ f. f.cause ≡ cause.ReadFailed → R.ending reader.new ≡ InputEnd.Failed) }
{
    let mut head = [0u8; 16];
    match fill(reader, &mut head) {
        Filled::Short(count) => answer_short(before, count, reader.ending()),
        Filled::Whole => {
            if before >= MOST_RECORDS {
                return Err(CaptureCause::TooManyRecords.in_record(before + 1));
            }
            read_octets(reader, form, before, &head, frame)
        }
    }
}
