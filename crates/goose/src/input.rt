//! Standard input of a run: before each read the output is handed on. The first octets are kept beside, and why a read failed,
//! so that a message can speak of them.
ghost use Rattle.std.specs.Prelude.{◌≡◌};

use crate::output::Output;
use arrayvec::ArrayVec;
use std::cell::{Cell, RefCell};
use std::io::{self, Error, Read, Write};

/// How many octets a read asks for at most.
pub const BLOCK: usize = 65536;

/// How many of the first octets are kept: as many as the header of a classic capture has.
const HEAD: usize = 24;

/// What is kept of an input for a message.
#[derive(Drop)]
pub struct Seen {
    head: RefCell<ArrayVec<u8, HEAD>>,
    failure: Cell<Option<Error>>,
}

impl Seen {
    /// Nothing was read.
    pub fn new() -> Seen {
        Seen {
            head: RefCell::new(ArrayVec::new()),
            failure: Cell::new(None),
        }
    }

    // Keeps what was read, as far as it is among the first octets.
    fn add(&self, read: &[u8]) {
        if let Ok(mut head) = self.head.try_borrow_mut() {
            let missing = HEAD.saturating_sub(head.len()).min(read.len());
            let _ = head.try_extend_from_slice(&read[..missing]);
        }
    }

    /// The first octets of the input, 24 where it has as many.
    pub fn into_head(self) -> ArrayVec<u8, HEAD> {
        self.head.into_inner()
    }

    /// Why a read failed, if one did.
    pub fn failure(&self) -> Option<Error> {
        self.failure.get()
    }
}

/// A reader that hands on an output before each read: what was written is on its way before the program waits for more.
#[derive(Drop)]
pub struct Input<'a, R: Drop, W: Write + Drop> {
    reader: R,
    output: &'a Output<W>,
    seen: &'a Seen,
}

impl<'a, R: Drop, W: Write + Drop> Input<'a, R, W> {
    /// A reader of this reader, that hands on this output, and keeps here what it has seen.
    pub fn new(reader: R, output: &'a Output<W>, seen: &'a Seen) -> Input<'a, R, W> {
        Input {
            reader,
            output,
            seen,
        }
    }
}

impl<R: Read + Drop, W: Write + Drop> Read for Input<'_, R, W> {
    ghost remaining = { λ s. R.remaining s.reader };

    fn read(&mut self, buf: &mut [u8]) -> io::Result<usize> {
        self.output.hand_on()?;
        match self.reader.read(buf) {
            Ok(count) => {
                self.seen.add(&buf[..count]);
                Ok(count)
            }
            Err(error) => {
                self.seen.failure.set(Some(error));
                Err(error)
            }
        }
    }
}
