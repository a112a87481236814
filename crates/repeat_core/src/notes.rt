//! What is noted of a frame of GOOSE beside its octets.

use ber_core::Header;
use mms_data::UtcTime;

/// A part of octets, from one place to another.
#[derive(Clone, Copy)]
pub struct Part {
    pub from: usize,
    pub to: usize,
}

/// What is noted of a frame of GOOSE: where its parts stand, and the values that do not change while it is repeated.
#[derive(Clone, Copy)]
pub struct Notes {
    /// The place of the EtherType.
    pub ether_type: usize,
    /// The place behind the APDU.
    pub end: usize,
    /// Where timeAllowedtoLive stands.
    pub live: Header,
    /// Where sqNum stands.
    pub sq_num: Header,
    /// Where the octets of gocbRef stand.
    pub gocb_ref: Part,
    /// Where the octets of datSet stand.
    pub dat_set: Part,
    /// Whether goID is there.
    pub has_go_id: bool,
    /// Where its octets stand then.
    pub go_id: Part,
    /// t.
    pub t: UtcTime,
    /// stNum.
    pub st_num: u32,
    /// simulation.
    pub simulation: bool,
    /// confRev.
    pub conf_rev: u32,
    /// ndsCom.
    pub nds_com: bool,
    /// The count of the members.
    pub entries: usize,
    /// Where the members stand.
    pub members: Part,
}

impl Part {
    // No octets.
    const NONE: Part = Part { from: 0, to: 0 };
}

impl Notes {
    /// Of no frame.
    pub const NONE: Notes = Notes {
        ether_type: 0,
        end: 0,
        live: NO_HEADER,
        sq_num: NO_HEADER,
        gocb_ref: Part::NONE,
        dat_set: Part::NONE,
        has_go_id: false,
        go_id: Part::NONE,
        t: UtcTime {
            seconds: 0,
            fraction: 0,
            quality: 0,
        },
        st_num: 0,
        simulation: false,
        conf_rev: 0,
        nds_com: false,
        entries: 0,
        members: Part::NONE,
    };
}

// Of no element.
const NO_HEADER: Header = Header {
    at: 0,
    identifier: 0,
    contents_from: 0,
    contents_to: 0,
};
