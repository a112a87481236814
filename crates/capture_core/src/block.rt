//! Blocks of pcapng, one at a time.
ghost use Rattle.std.specs.Prelude.{◌≡◌, ◌≤◌, ◌-◌, [], length};
ghost use Rattle.capture_core.specs.Blocks.{Block, first_block, is_bad_length, next_block, section_header};
ghost use Rattle.capture_core.specs.computed.Filling.{ReadsPart};
ghost use Rattle.capture_core.specs.computed.Sections.{settled};
ghost use Rattle.capture_core.specs.computed.OneRead.{IsBlockTold, IsFrameBlock, IsNextBlock, IsVersionTold, ReadsFront, ReadsToKeep, Told, order_of_magic, section_told, version_rest};

use crate::body::{Said, read_end, read_rest};
use crate::capture_fault::{CaptureCause, CaptureFault, cut_in, ended_in};
use crate::filling::{Filled, Short, Unread, fill, pass, take};
use crate::form::OctetOrder;
use crate::numbers::{long_at, short_at};
use crate::packet_block::Section;
use list_core::{Event, ReadError, Source};
use std::alloc::Allocator;

/// The type of a section header block, the same in both orders (draft-ietf-opsawg-pcapng, 4.1).
pub(crate) const SECTION_HEADER: u32 = 0x0a0d_0d0a;

/// The byte-order magic of a section header.
const BYTE_ORDER_MAGIC: u32 = 0x1a2b_3c4d;

/// The least total length of a block, and of a section header.
const LEAST: u32 = 12;

const LEAST_SECTION_HEADER: u32 = 28;

/// The greatest total length of a block.
const LONGEST_BLOCK: u32 = 16_777_216;

/// The major version of a section.
const MAJOR_VERSION: u16 = 1;

// Whether no block has this total length.
pub(crate) fn is_bad_length(least: u32, total: u32) -> bool
    ensures { result ≡ is_bad_length least total }
{
    total < least || total % 4 != 0 || total > LONGEST_BLOCK
}

// The order in which the byte-order magic stands.
fn order_of_magic(magic: &[u8]) -> Option<OctetOrder>
    requires { length magic.now ≡ 4 }
    ensures { result ≡ order_of_magic magic.now }
{
    if long_at(OctetOrder::BigEndian, magic, 0) == BYTE_ORDER_MAGIC {
        Some(OctetOrder::BigEndian)
    } else if long_at(OctetOrder::LittleEndian, magic, 0) == BYTE_ORDER_MAGIC {
        Some(OctetOrder::LittleEndian)
    } else {
        None
    }
}

// Reads what follows the byte-order magic of a section header, and says what is wrong with it.
fn read_version<R: Source>(
    reader: &mut R,
    order: OctetOrder,
    why: CaptureCause,
    total: u32,
) -> Result<Result<(), CaptureCause>, Short>
    requires { 28 ≤ total }
    ensures { ReadsPart (λ r rest. IsVersionTold order r (version_rest order why total rest)) (total - 12) (R.left reader.old) (R.ending reader.old) result (R.left reader.new) (R.ending reader.new) }
{
    let mut versions = [0u8; 4];
    take(reader, &mut versions)?;
    pass(reader, total as usize - 20)?;
    if !read_end(reader, order, total)? {
        return Ok(Err(CaptureCause::BlockLength));
    }
    if short_at(order, &versions, 0) == MAJOR_VERSION {
        Ok(Ok(()))
    } else {
        Ok(Err(why))
    }
}

// Reads what follows the first eight octets of a section header, and answers the order of its numbers.
pub(crate) fn read_section<R: Source>(
    reader: &mut R,
    head: &[u8],
    number: u64,
    why: CaptureCause,
) -> Result<OctetOrder, CaptureFault>
    requires { length head.now ≡ 8 }
    ensures { ReadsFront (λ z octets. section_header z number why octets) head.now (R.left reader.old) (R.ending reader.old) (section_told result) (R.left reader.new) (R.ending reader.new) }
{
    let mut magic = [0u8; 4];
    match take(reader, &mut magic) {
        Ok(()) => {}
        Err(Short) => return Err(cut_in(number, reader.ending())),
    }
    let Some(order) = order_of_magic(&magic) else {
        return Err(why.in_record(number));
    };
    let total = long_at(order, head, 4);
    if is_bad_length(LEAST_SECTION_HEADER, total) {
        return Err(CaptureCause::BlockLength.in_record(number));
    }
    match read_version(reader, order, why, total) {
        Ok(Ok(())) => Ok(order),
        Ok(Err(cause)) => Err(cause.in_record(number)),
        Err(Short) => Err(cut_in(number, reader.ending())),
    }
}

// Reads what follows the first eight octets of a block.
fn read_behind<R: Source, A: Allocator + Copy>(
    reader: &mut R,
    alloc: A,
    spare: &mut Option<Event<A>>,
    section: Section,
    number: u64,
    head: &[u8],
) -> Result<Said<A>, ReadError<CaptureFault>>
    requires { length head.now ≡ 8 }
    ensures { (told : Told Block) × IsBlockTold told result
        × ReadsToKeep IsFrameBlock (λ z octets. first_block z number (settled section.entry) octets) head.now (R.left reader.old) (R.ending reader.old) told (R.left reader.new) (R.ending reader.new) }
{
    let kind = long_at(section.order, head, 0);
    if kind == SECTION_HEADER {
        return match read_section(reader, head, number, CaptureCause::BlockForm) {
            Ok(order) => Ok(Said::Begins(order)),
            Err(fault) => Err(ReadError::Fault(fault)),
        };
    }
    let total = long_at(section.order, head, 4);
    if is_bad_length(LEAST, total) {
        return Err(ReadError::Fault(CaptureCause::BlockLength.in_record(number)));
    }
    match read_rest(reader, alloc, spare, section, kind, total) {
        Ok(Ok(said)) => Ok(said),
        Ok(Err(cause)) => Err(ReadError::Fault(cause.in_record(number))),
        Err(Unread::Short) => Err(ReadError::Fault(cut_in(number, reader.ending()))),
        Err(Unread::Memory(error)) => Err(ReadError::Memory(error)),
    }
}

// Reads a block, or answers None at the capture's end. The number is that of a fault.
pub(crate) fn read_block<R: Source, A: Allocator + Copy>(
    reader: &mut R,
    alloc: A,
    spare: &mut Option<Event<A>>,
    section: Section,
    number: u64,
) -> Result<Option<Said<A>>, ReadError<CaptureFault>>
    ensures { (told : Told Block) × IsNextBlock told result
        × ReadsToKeep IsFrameBlock (λ z octets. next_block z number (settled section.entry) octets) [] (R.left reader.old) (R.ending reader.old) told (R.left reader.new) (R.ending reader.new) }
{
    let mut head = [0u8; 8];
    match fill(reader, &mut head) {
        Filled::Short(0) => match ended_in(number, reader.ending()) {
            None => Ok(None),
            Some(fault) => Err(ReadError::Fault(fault)),
        },
        Filled::Short(_) => Err(ReadError::Fault(cut_in(number, reader.ending()))),
        Filled::Whole => match read_behind(reader, alloc, spare, section, number, &head) {
            Ok(said) => Ok(Some(said)),
            Err(error) => Err(error),
        },
    }
}
