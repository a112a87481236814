//! The names of causes, as they are written.
ghost use Rattle.std.specs.Prelude.{◌≡◌, ◌≤◌, length};
ghost use Rattle.text_core.specs.CaptureNames.{name_of_capture_cause};
ghost use Rattle.text_core.specs.Names.{name_of_cause, name_of_list_cause};

use ber_core::Cause;
use capture_core::CaptureCause;
use list_core::ListCause;

/// The name of the cause for which octets of a frame are refused.
pub fn cause_name(cause: Cause) -> &'static [u8]
    ensures { result.now ≡ name_of_cause cause }
{
    match cause {
        Cause::Ends => b"Ends",
        Cause::HighTag => b"HighTag",
        Cause::Indefinite => b"Indefinite",
        Cause::LengthForm => b"LengthForm",
        Cause::LengthPastEnd => b"LengthPastEnd",
        Cause::IntegerLength => b"IntegerLength",
        Cause::UnexpectedTag => b"UnexpectedTag",
        Cause::BooleanLength => b"BooleanLength",
        Cause::IntegerRange => b"IntegerRange",
        Cause::BitUnused => b"BitUnused",
        Cause::FixedLength => b"FixedLength",
        Cause::NotVisible => b"NotVisible",
        Cause::TooDeep => b"TooDeep",
        Cause::ElementMissing => b"ElementMissing",
        Cause::ExtraOctets => b"ExtraOctets",
        Cause::EntryCount => b"EntryCount",
        Cause::AsduCount => b"AsduCount",
        Cause::FrameTooLong => b"FrameTooLong",
        Cause::EtherType => b"EtherType",
        Cause::LengthField => b"LengthField",
        Cause::Truncated => b"Truncated",
    }
}

/// The name of the cause for which a line of a list is refused.
pub fn list_cause_name(cause: ListCause) -> &'static [u8]
    ensures { result.now ≡ name_of_list_cause cause }
{
    match cause {
        ListCause::LineTooLong => b"LineTooLong",
        ListCause::LineForm => b"LineForm",
        ListCause::Moment => b"Moment",
        ListCause::Hex => b"Hex",
        ListCause::ListTooLong => b"ListTooLong",
        ListCause::ReadFailed => b"ReadFailed",
    }
}

/// The name of the cause for which a capture is refused, of 14 octets at most.
pub fn capture_cause_name(cause: CaptureCause) -> &'static [u8]
    ensures name { result.now ≡ name_of_capture_cause cause }
    ensures short { length result.now ≤ 14 }
{
    match cause {
        CaptureCause::CaptureHeader => b"CaptureHeader",
        CaptureCause::CaptureShort => b"CaptureShort",
        CaptureCause::RecordLength => b"RecordLength",
        CaptureCause::TooManyRecords => b"TooManyRecords",
        CaptureCause::ReadFailed => b"ReadFailed",
        CaptureCause::BlockForm => b"BlockForm",
        CaptureCause::BlockLength => b"BlockLength",
        CaptureCause::Interface => b"Interface",
        CaptureCause::PacketTime => b"PacketTime",
    }
}
