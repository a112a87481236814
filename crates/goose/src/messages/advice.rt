//! What to do about an input that ended a run, as a sentence.

use std::fmt;
use task_engine::Advice;

/// What to do, to be told to a person.
#[derive(Clone, Copy)]
pub struct Advised(pub Advice);

// What there is to say.
fn sentence(advice: Advice) -> &'static str {
    match advice {
        Advice::Gzip => "The input is compressed by gzip: zcat FILE | goose .. reads what is in it",
        Advice::Xz => "The input is compressed by xz: xzcat FILE | goose .. reads what is in it",
        Advice::Zstd =>
            "The input is compressed by zstd: zstdcat FILE | goose .. reads what is in it",
        Advice::Bzip2 =>
            "The input is compressed by bzip2: bzcat FILE | goose .. reads what is in it",
        Advice::Pcapng =>
            "The input is a pcapng capture: make a libpcap capture of it by editcap -F pcap FILE - or tcpdump -r FILE -w -, and give that to goose import",
        Advice::Capture => "The input is a libpcap capture: goose import writes it as a list",
        Advice::AddCapture => "The input is a capture: add --capture, and it is read",
        Advice::LeaveCapture => "The input is a list: leave --capture out",
        Advice::LinkType(_) => "Its link type is not Ethernet",
        Advice::ByteOrderMark =>
            "The input begins with a byte order mark, which no list or script has: tail -c +4 FILE leaves it out",
        Advice::Utf16 =>
            "The input is a text in UTF-16: iconv -f UTF-16 -t ASCII FILE makes a list or script of it",
        Advice::CarriageReturns =>
            "A line ends with LF, and here CR is in its place: tr '\\r' '\\n' < FILE fixes that",
        Advice::Tabs =>
            "Fields are divided by one space, and here is a tab: tr '\\t' ' ' < FILE fixes that",
        Advice::Blanks => "The line ends with a space: sed 's/ *\\r*$//' FILE leaves it out",
        Advice::SecondVersion =>
            "V2 must be the first line: join lists of one version alone, with V2 once",
        Advice::Apart =>
            "The octets of a frame are written in one piece, with nothing between them",
        Advice::ScriptAsList => "The input is a script: goose publish writes its frames as a list",
        Advice::ListAsScript =>
            "The line is a list's, and publish reads a script: 'control,..' comes first",
        Advice::ListForms =>
            "A line is 'F TIME OCTETS', 'C TIME', 'M TIME on', 'M TIME off', '# ..' or empty",
        Advice::ScriptForms =>
            "First comes 'control,..', then 'step,WAIT,LIVE', then 'change,TIME,T,MEMBERS' and 'poll,TIME'",
        Advice::Split =>
            "A list holds no more: goose show --capture and its kin read a capture of any length",
    }
}

/// The usual name of the type of a link, where a capture often has it.
pub fn link_name(number: u16) -> Option<&'static str> {
    match number {
        105 => Some("IEEE802_11, Wi-Fi"),
        113 => Some("LINUX_SLL, the interface any"),
        127 => Some("IEEE802_11_RADIOTAP, Wi-Fi"),
        276 => Some("LINUX_SLL2, the interface any"),
        _ => None,
    }
}

impl fmt::Display for Advised {
    fn fmt<W: fmt::Write>(&self, f: &mut fmt::Formatter<W>) -> fmt::Result {
        match self.0 {
            Advice::LinkType(number) => {
                write!(f, "The link type is {number}")?;
                if let Some(name) = link_name(number) {
                    write!(f, " ({name})")?;
                }
                f.write_str(", and only 1 (Ethernet) is read: capture on the network card itself")
            }
            advice => f.write_str(sentence(advice)),
        }
    }
}
