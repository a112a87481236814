//! Why a capture is refused, and in which record.
ghost use Rattle.std.specs.Prelude.{◌≡◌, ◌≢◌};
ghost use Rattle.list_core.specs.declared.device.InputEnd.{InputEnd};
ghost use Rattle.list_core.specs.Lines.{faulty};
ghost use Rattle.capture_core.specs.Capture.{cut, ended, fault_in};
ghost use Rattle.capture_core.specs.Packets.{stop_of};
ghost use Rattle.capture_core.specs.declared.capture_fault.CaptureCause.TheVariants as cause;

use list_core::InputEnd;
use thiserror::Error;

/// Why a capture is refused.
#[derive(Clone, Copy, Debug, PartialEq, Eq, Error)]
pub enum CaptureCause {
    /// The magic number, the version or the link type is none that is read.
    #[error("the header is not that of a libpcap capture (2.4, of Ethernet), nor with --capture of a pcapng capture (1)")]
    CaptureHeader,
    /// The input ends inside the header or inside a record.
    #[error("the capture is cut off")]
    CaptureShort,
    /// The captured length is over 262,144.
    #[error("the captured length is over 262144")]
    RecordLength,
    /// An octet stands after the capture's last record, number 999,999.
    #[error("the capture has over 999999 records")]
    TooManyRecords,
    /// The source failed.
    #[error("reading failed")]
    ReadFailed,
    /// A block has no form of its type, or it begins no section.
    #[error("a block has not the form of its type")]
    BlockForm,
    /// A block's total length is none that a block has, or the one behind its body is another.
    #[error("the total length of a block is wrong")]
    BlockLength,
    /// A packet is of an interface that its section does not describe.
    #[error("a packet is of an interface that is not described")]
    Interface,
    /// A packet's time is before 1970, or has over 18 digits of microseconds.
    #[error("the time of a packet is before 1970 or after 999999999999999999 microseconds")]
    PacketTime,
}

/// The first fault of a capture: the record's number, and what is wrong there.
#[derive(Clone, Copy, Debug, PartialEq, Eq, Error)]
#[error("record {number}: {cause}")]
pub struct CaptureFault {
    /// The number of the record, from 1; 0 is the header.
    pub number: u64,
    /// What is wrong with it.
    pub cause: CaptureCause,
}

impl CaptureCause {
    /// The fault of this cause in a record.
    pub(crate) fn in_record(self, number: u64) -> CaptureFault
        ensures { faulty result ≡ fault_in number self }
    {
        CaptureFault {
            number,
            cause: self,
        }
    }
}

// The fault of a source that ended before this record, if it failed.
pub(crate) fn ended_in(number: u64, ending: InputEnd) -> Option<CaptureFault>
    requires { ending ≢ InputEnd.Open }
    ensures { ended ending number ≡ stop_of result }
{
    match ending {
        InputEnd::Failed => Some(CaptureCause::ReadFailed.in_record(number)),
        _ => None,
    }
}

// The fault where the source ended inside this record.
pub(crate) fn cut_in(number: u64, ending: InputEnd) -> CaptureFault
    requires { ending ≢ InputEnd.Open }
    ensures fault { cut ending number ≡ faulty result }
    ensures failed { result.cause ≡ cause.ReadFailed → ending ≡ InputEnd.Failed }
{
    let cause = match ending {
        InputEnd::Failed => CaptureCause::ReadFailed,
        _ => CaptureCause::CaptureShort,
    };
    CaptureFault { number, cause }
}
