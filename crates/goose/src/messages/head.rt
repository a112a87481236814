//! What to do about an input that ended a run, where its first octets tell.

use task_engine::Advice;

/// How files begin that are compressed: the first octets, four at most, and what to do.
const COMPRESSED: [(&[u8], Advice); 4] = [
    (&[0x1F, 0x8B], Advice::Gzip),
    (&[0xFD, 0x37, 0x7A, 0x58], Advice::Xz),
    (&[0x28, 0xB5, 0x2F, 0xFD], Advice::Zstd),
    (&[0x42, 0x5A, 0x68], Advice::Bzip2),
];

/// How a list begins: with its version, a comment or an event.
const LIST_HEADS: [&[u8]; 5] = [b"V2", b"#", b"F ", b"C ", b"M "];

/// How a pcapng capture begins.
const PCAPNG_HEAD: [u8; 4] = [0x0A, 0x0D, 0x0D, 0x0A];

/// How libpcap captures begin: microseconds and nanoseconds, in either octet order.
const CAPTURE_HEADS: [[u8; 4]; 4] = [
    [0xA1, 0xB2, 0xC3, 0xD4],
    [0xD4, 0xC3, 0xB2, 0xA1],
    [0xA1, 0xB2, 0x3C, 0x4D],
    [0x4D, 0x3C, 0xB2, 0xA1],
];

/// What a command reads.
#[derive(Clone, Copy, Debug, PartialEq, Eq)]
pub enum Intake {
    /// A list.
    List,
    /// A list, and a capture where `--capture` says so.
    ListOrCapture,
    /// A capture in place of a list.
    Packets,
    /// A script.
    Script,
    /// A capture in the classic form.
    Records,
}

// Whether an input begins as a capture in the classic form.
fn is_classic(head: &[u8]) -> bool {
    CAPTURE_HEADS
        .iter()
        .any(|magic| head.starts_with(magic.as_slice()))
}

// What the first octets of a text tell.
fn by_text(head: &[u8]) -> Option<Advice> {
    if head.starts_with(&[0xEF, 0xBB, 0xBF]) {
        return Some(Advice::ByteOrderMark);
    }
    if head.starts_with(&[0xFF, 0xFE]) || head.starts_with(&[0xFE, 0xFF]) {
        return Some(Advice::Utf16);
    }
    None
}

// Whether an input begins as a list does.
fn begins_list(head: &[u8]) -> bool {
    LIST_HEADS.iter().any(|first| head.starts_with(first))
}

// The type of the link that the header of a capture in the classic form tells (its last 4 octets, of which the lower 16 bits
// count), if it is whole and this is not Ethernet.
fn other_link(head: &[u8]) -> Option<u16> {
    if !is_classic(head) {
        return None;
    }
    let link = head.get(20..24)?;
    // The magic numbers begin with A1 where the octet that counts most comes first.
    let number = if head.starts_with(&[0xA1]) {
        u16::from_be_bytes([link[2], link[3]])
    } else {
        u16::from_le_bytes([link[0], link[1]])
    };
    if number == 1 { None } else { Some(number) }
}

// What the first octets of a capture tell.
fn by_capture(head: &[u8]) -> Option<Advice> {
    match other_link(head) {
        Some(number) => Some(Advice::LinkType(number)),
        None => None,
    }
}

/// What to do about an input that begins with these octets, 24 where it has as many, if they tell.
pub fn advice_by_head(intake: Intake, head: &[u8]) -> Option<Advice> {
    for (first, advice) in COMPRESSED {
        if head.starts_with(first) {
            return Some(advice);
        }
    }
    let is_pcapng = head.starts_with(PCAPNG_HEAD.as_slice());
    match intake {
        Intake::ListOrCapture if is_pcapng || is_classic(head) => Some(Advice::AddCapture),
        Intake::Packets if begins_list(head) => Some(Advice::LeaveCapture),
        Intake::Packets => by_capture(head),
        _ if is_pcapng => Some(Advice::Pcapng),
        Intake::Records => by_capture(head),
        Intake::List | Intake::Script if is_classic(head) => Some(Advice::Capture),
        _ => by_text(head),
    }
}
