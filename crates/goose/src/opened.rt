//! What a run reads: standard input, or a file by its name. The first octets can be looked at before they are read.
ghost use Rattle.std.specs.Prelude.{◌≡◌, None};

use arrayvec::ArrayVec;
use std::fs::File;
use std::io::{self, Read, Stdin};

/// How many octets tell whether a file is a capture.
const HEAD: usize = 4;

/// The first octets of captures: of classic ones, in either order of octets, with microseconds and with nanoseconds, and of pcapng.
const CAPTURES: [[u8; HEAD]; 5] = [
    [0xa1, 0xb2, 0xc3, 0xd4],
    [0xd4, 0xc3, 0xb2, 0xa1],
    [0xa1, 0xb2, 0x3c, 0x4d],
    [0x4d, 0x3c, 0xb2, 0xa1],
    [0x0a, 0x0d, 0x0d, 0x0a],
];

/// Standard input, or a file.
#[derive(Drop)]
pub enum Opened {
    /// Standard input.
    Standard(Stdin),
    /// A file.
    File(File),
}

impl Opened {
    /// What this name stands for: `-`, and no name, for standard input, else a file, which is opened.
    pub fn by_name(rt: &HostRuntime, name: Option<&str>) -> io::Result<Opened> {
        match name {
            None | Some("-") => Ok(Opened::Standard(rt.stdin())),
            Some(name) => Ok(Opened::File(File::open(rt, name)?)),
        }
    }

    /// Whether it is a regular file, of which the same can be read twice.
    pub fn is_regular(&self) -> bool {
        match self {
            Opened::Standard(_) => false,
            Opened::File(file) => match file.metadata() {
                Ok(metadata) => metadata.is_file(),
                Err(_) => false,
            },
        }
    }
}

impl Read for Opened {
    ghost remaining = { λ _. None };

    fn read(&mut self, buf: &mut [u8]) -> io::Result<usize> {
        match self {
            Opened::Standard(device) => device.read(buf),
            Opened::File(file) => file.read(buf),
        }
    }
}

/// A reader whose first octets can be looked at.
#[derive(Drop)]
pub struct Begun<R: Drop> {
    reader: R,
    // The octets that were looked at, and how many of them were read since.
    head: ArrayVec<u8, HEAD>,
    given: usize,
}

impl<R: Read + Drop> Begun<R> {
    /// A reader of which nothing was looked at.
    pub fn new(reader: R) -> Begun<R> {
        Begun {
            reader,
            head: ArrayVec::new(),
            given: 0,
        }
    }

    /// A reader of which the first octets were looked at, and whether they are those of a capture.
    pub fn looked_at(mut reader: R) -> io::Result<(Begun<R>, bool)> {
        let mut head = [0u8; HEAD];
        let mut count = 0usize;
        for _ in 0..HEAD {
            if count >= HEAD {
                break;
            }
            match reader.read(&mut head[count..])? {
                0 => break,
                more => count = count.saturating_add(more),
            }
        }
        let count = count.min(HEAD);
        let mut begun = Begun::new(reader);
        let _ = begun.head.try_extend_from_slice(&head[..count]);
        let is_capture = count == HEAD && CAPTURES.contains(&head);
        Ok((begun, is_capture))
    }
}

impl<R: Read + Drop> Read for Begun<R> {
    ghost remaining = { λ _. None };

    fn read(&mut self, buf: &mut [u8]) -> io::Result<usize> {
        let head = self.head.as_slice();
        let from = self.given.min(head.len());
        let count = (head.len() - from).min(buf.len());
        if count == 0 {
            return self.reader.read(buf);
        }
        buf[..count].copy_from_slice(&head[from..from + count]);
        self.given = from + count;
        Ok(count)
    }
}
