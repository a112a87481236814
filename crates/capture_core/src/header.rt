//! The header of a capture.
ghost use Rattle.std.specs.Prelude.{◌≡◌, ◌≤◌, length, IfErr};
ghost use Rattle.list_core.specs.declared.device.InputEnd.{InputEnd};
ghost use Rattle.capture_core.specs.Header.{form_in, form_of, header_of, is_read_in, unit_of};
ghost use Rattle.capture_core.specs.RecordAnswers.{ReadsHeader};
ghost use Rattle.capture_core.specs.declared.capture_fault.CaptureCause.TheVariants as cause;

use crate::capture_fault::{CaptureCause, CaptureFault, cut_in};
use crate::filling::{Filled, fill};
use crate::form::{CaptureForm, FractionUnit, OctetOrder};
use crate::numbers::{long_at, short_at};
use list_core::Source;

/// The magic number where fractions of a second are microseconds.
const MICROSECONDS: u32 = 0xa1b2_c3d4;

/// The magic number where they are nanoseconds.
const NANOSECONDS: u32 = 0xa1b2_3c4d;

// The unit of fractions that a magic number announces.
fn unit_in(magic: u32) -> Option<FractionUnit>
    ensures { result ≡ unit_of magic }
{
    match magic {
        MICROSECONDS => Some(FractionUnit::Microseconds),
        NANOSECONDS => Some(FractionUnit::Nanoseconds),
        _ => None,
    }
}

// The form of a header whose magic number stands in this order.
fn form_by(order: OctetOrder, header: &[u8]) -> Option<CaptureForm>
    requires { 4 ≤ length header.now }
    ensures { result ≡ form_in order header.now }
{
    match unit_in(long_at(order, header, 0)) {
        Some(unit) => Some(CaptureForm { order, unit }),
        None => None,
    }
}

// The form of a header, by its magic number.
pub(crate) fn form_at(header: &[u8]) -> Option<CaptureForm>
    requires { 4 ≤ length header.now }
    ensures { result ≡ form_of header.now }
{
    match form_by(OctetOrder::BigEndian, header) {
        Some(form) => Some(form),
        None => form_by(OctetOrder::LittleEndian, header),
    }
}

// Whether a header of this order has version 2.4 and link type 1.
fn is_read_in(order: OctetOrder, header: &[u8]) -> bool
    requires { 24 ≤ length header.now }
    ensures { result ≡ is_read_in order header.now }
{
    short_at(order, header, 4) == 2
        && short_at(order, header, 6) == 4
        && long_at(order, header, 20) % 65536 == 1
}

// The form of a header that is read.
pub(crate) fn judge(header: &[u8]) -> Option<CaptureForm>
    requires { 24 ≤ length header.now }
    ensures { result ≡ header_of header.now }
{
    match form_at(header) {
        Some(form) => {
            if is_read_in(form.order, header) {
                Some(form)
            } else {
                None
            }
        }
        None => None,
    }
}

/// Reads the header of a capture, 24 octets, and answers how the numbers behind it are written. `CaptureShort` where the
/// source ends before them; else `CaptureHeader` where the magic number, the version or the link type is another than
/// libpcap's, 2.4 and 1 (Ethernet, in the low 16 bits). `ReadFailed` where the source failed. No octet behind the header
/// is read, whatever is answered. Takes no memory.
pub fn read_header<R: Source>(reader: &mut R) -> Result<CaptureForm, CaptureFault>
    ensures header { ReadsHeader (R.left reader.old) (R.ending reader.old) result (R.left reader.new) (R.ending reader.new) }
    ensures failed { IfErr result (λ f. f.cause ≡ cause.ReadFailed → R.ending reader.new ≡ InputEnd.Failed) }
{
    let mut header = [0u8; 24];
    match fill(reader, &mut header) {
        Filled::Short(_) => Err(cut_in(0, reader.ending())),
        Filled::Whole => match judge(&header) {
            Some(form) => Ok(form),
            None => Err(CaptureFault {
                number: 0,
                cause: CaptureCause::CaptureHeader,
            }),
        },
    }
}
