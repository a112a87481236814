//! What the faults of a capture say to a person.

use crate::frame::sentences::says;
use capture_core::{CaptureCause, CaptureFault};
use std::process::Abort;

#[test]
fn faults_of_captures_name_the_record_and_the_cause(rt: HostRuntime) {
    for (cause, sentence) in [
        (
            CaptureCause::CaptureHeader,
            "record 7: the header is not that of a libpcap capture (2.4, of Ethernet), nor with --capture of a pcapng capture (1)",
        ),
        (
            CaptureCause::CaptureShort,
            "record 7: the capture is cut off",
        ),
        (
            CaptureCause::RecordLength,
            "record 7: the captured length is over 262144",
        ),
        (
            CaptureCause::TooManyRecords,
            "record 7: the capture has over 999999 records",
        ),
        (CaptureCause::ReadFailed, "record 7: reading failed"),
        (
            CaptureCause::BlockForm,
            "record 7: a block has not the form of its type",
        ),
        (
            CaptureCause::BlockLength,
            "record 7: the total length of a block is wrong",
        ),
        (
            CaptureCause::Interface,
            "record 7: a packet is of an interface that is not described",
        ),
        (
            CaptureCause::PacketTime,
            "record 7: the time of a packet is before 1970 or after 999999999999999999 microseconds",
        ),
    ] {
        let fault = CaptureFault { number: 7, cause };
        assert!(rt; says(rt.alloc(), fault, sentence), "{sentence}");
    }
}
