//! The records of the classic form as packets.
ghost use Rattle.std.specs.Prelude.{◌≡◌, [], length};
ghost use Rattle.capture_core.specs.Packets.{Packet};
ghost use Rattle.capture_core.specs.computed.OneRead.{IsFramePacket, IsNextEvent, IsRecordEvent, ReadsToKeep, Told, next_record, record_front};

use crate::body::read_event;
use crate::capture_fault::{CaptureCause, CaptureFault, cut_in, ended_in};
use crate::filling::{Filled, Unread, fill};
use crate::form::CaptureForm;
use crate::numbers::long_at;
use crate::packet_block::LONGEST_PACKET;
use crate::record::moment_in;
use list_core::{Event, ReadError, Source};
use std::alloc::Allocator;

// Reads what follows the head of a record.
fn read_captured<R: Source, A: Allocator + Copy>(
    reader: &mut R,
    alloc: A,
    spare: &mut Option<Event<A>>,
    form: CaptureForm,
    number: u64,
    head: &[u8],
) -> Result<Event<A>, ReadError<CaptureFault>>
    requires { length head.now ≡ 16 }
    ensures { (told : Told Packet) × IsRecordEvent told result
        × ReadsToKeep IsFramePacket (λ z octets. record_front form z number octets) head.now (R.left reader.old) (R.ending reader.old) told (R.left reader.new) (R.ending reader.new) }
{
    let size = long_at(form.order, head, 8) as usize;
    if size > LONGEST_PACKET {
        return Err(ReadError::Fault(CaptureCause::RecordLength.in_record(number)));
    }
    match read_event(reader, alloc, spare, moment_in(form, head), size) {
        Ok(event) => Ok(event),
        Err(Unread::Short) => Err(ReadError::Fault(cut_in(number, reader.ending()))),
        Err(Unread::Memory(error)) => Err(ReadError::Memory(error)),
    }
}

// Reads a record, or answers None at the capture's end. The number is that of the record.
pub(crate) fn read_packet_record<R: Source, A: Allocator + Copy>(
    reader: &mut R,
    alloc: A,
    spare: &mut Option<Event<A>>,
    form: CaptureForm,
    number: u64,
) -> Result<Option<Event<A>>, ReadError<CaptureFault>>
    ensures { (told : Told Packet) × IsNextEvent told result
        × ReadsToKeep IsFramePacket (λ z octets. next_record form z number octets) [] (R.left reader.old) (R.ending reader.old) told (R.left reader.new) (R.ending reader.new) }
{
    let mut head = [0u8; 16];
    match fill(reader, &mut head) {
        Filled::Short(0) => match ended_in(number, reader.ending()) {
            None => Ok(None),
            Some(fault) => Err(ReadError::Fault(fault)),
        },
        Filled::Short(_) => Err(ReadError::Fault(cut_in(number, reader.ending()))),
        Filled::Whole => match read_captured(reader, alloc, spare, form, number, &head) {
            Ok(event) => Ok(Some(event)),
            Err(error) => Err(error),
        },
    }
}
