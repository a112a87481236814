//! How a capture begins: its first four octets tell its form.
ghost use Rattle.std.specs.Prelude.{◌≡◌, ◌++◌, [], length};
ghost use Rattle.capture_core.specs.Blocks.{section_header};
ghost use Rattle.capture_core.specs.computed.OneRead.{ReadsFront, capture_front, classic_front, form_told, section_told, start_told};
ghost use Rattle.capture_core.specs.declared.capture_fault.CaptureCause.TheVariants as cause;

use crate::block::{SECTION_HEADER, read_section};
use crate::capture_fault::{CaptureCause, CaptureFault, cut_in};
use crate::filling::{Short, take};
use crate::form::{CaptureForm, OctetOrder};
use crate::header::{form_at, judge};
use crate::numbers::long_at;
use list_core::Source;

/// The form of a capture.
#[derive(Clone, Copy)]
pub(crate) enum Start {
    /// Records of the classic form.
    Records(CaptureForm),
    /// Blocks of pcapng, of which the first section has numbers of this order.
    Blocks(OctetOrder),
}

// A header of the classic form, of its magic number and what follows it.
fn header_with(magic: &[u8], rest: &[u8]) -> [u8; 24]
    requires magic { length magic.now ≡ 4 }
    requires rest { length rest.now ≡ 20 }
    ensures { result ≡ magic.now ++ rest.now }
{
    let mut header = [0u8; 24];
    header[..4].copy_from_slice(magic);
    header[4..].copy_from_slice(rest);
    header
}

// The first eight octets of a section header, of its type and its total length.
fn head_with(magic: &[u8], total: &[u8]) -> [u8; 8]
    requires magic { length magic.now ≡ 4 }
    requires total { length total.now ≡ 4 }
    ensures { result ≡ magic.now ++ total.now }
{
    let mut head = [0u8; 8];
    head[..4].copy_from_slice(magic);
    head[4..].copy_from_slice(total);
    head
}

// Reads what follows the magic number of the classic form.
fn read_classic<R: Source>(reader: &mut R, magic: &[u8]) -> Result<CaptureForm, CaptureFault>
    requires { length magic.now ≡ 4 }
    ensures { ReadsFront classic_front magic.now (R.left reader.old) (R.ending reader.old) (form_told result) (R.left reader.new) (R.ending reader.new) }
{
    let mut rest = [0u8; 20];
    match take(reader, &mut rest) {
        Ok(()) => {}
        Err(Short) => return Err(cut_in(0, reader.ending())),
    }
    let header = header_with(magic, &rest);
    match judge(&header) {
        Some(form) => Ok(form),
        None => Err(CaptureCause::CaptureHeader.in_record(0)),
    }
}

// Reads what follows the type of the first section header.
fn read_first_section<R: Source>(reader: &mut R, magic: &[u8]) -> Result<OctetOrder, CaptureFault>
    requires { length magic.now ≡ 4 }
    ensures { ReadsFront (λ z octets. section_header z 0 cause.CaptureHeader octets) magic.now (R.left reader.old) (R.ending reader.old) (section_told result) (R.left reader.new) (R.ending reader.new) }
{
    let mut total = [0u8; 4];
    match take(reader, &mut total) {
        Ok(()) => {}
        Err(Short) => return Err(cut_in(0, reader.ending())),
    }
    let head = head_with(magic, &total);
    read_section(reader, &head, 0, CaptureCause::CaptureHeader)
}

// Reads the header of a capture, or its first block.
pub(crate) fn read_start<R: Source>(reader: &mut R) -> Result<Start, CaptureFault>
    ensures { ReadsFront capture_front [] (R.left reader.old) (R.ending reader.old) (start_told result) (R.left reader.new) (R.ending reader.new) }
{
    let mut magic = [0u8; 4];
    match take(reader, &mut magic) {
        Ok(()) => {}
        Err(Short) => return Err(cut_in(0, reader.ending())),
    }
    if form_at(&magic).is_some() {
        return match read_classic(reader, &magic) {
            Ok(form) => Ok(Start::Records(form)),
            Err(fault) => Err(fault),
        };
    }
    if long_at(OctetOrder::BigEndian, &magic, 0) != SECTION_HEADER {
        return Err(CaptureCause::CaptureHeader.in_record(0));
    }
    match read_first_section(reader, &magic) {
        Ok(order) => Ok(Start::Blocks(order)),
        Err(fault) => Err(fault),
    }
}
