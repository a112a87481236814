//! Standard output of a run, of which the input knows: what was written is handed on before a read that may wait.

use std::alloc::Global;
use std::cell::{Cell, RefCell};
use std::io::{self, BufWriter, Error, ErrorKind, Write};

/// How many octets of text are held until they are handed on.
const BLOCK: usize = 65536;

/// A writer with a buffer. After a failure nothing is written and handed on any more.
#[derive(Drop)]
pub struct Output<W: Write + Drop> {
    writer: RefCell<BufWriter<W, Global>>,
    failure: Cell<Option<Error>>,
}

impl<W: Write + Drop> Output<W> {
    /// An output that has not failed, and the error where memory is refused for its buffer.
    pub fn new(alloc: Global, writer: W) -> io::Result<Output<W>> {
        let writer = BufWriter::with_capacity(alloc, BLOCK, writer)?;
        Ok(Output {
            writer: RefCell::new(writer),
            failure: Cell::new(None),
        })
    }

    /// Hands on what is held.
    pub fn hand_on(&self) -> io::Result<()> {
        if self.failure.get().is_some() {
            return Err(Error::from(ErrorKind::Other));
        }
        let handed = match self.writer.try_borrow_mut() {
            Ok(mut writer) => writer.flush(),
            Err(_) => Err(Error::from(ErrorKind::Other)),
        };
        if let Err(error) = handed {
            self.failure.set(Some(error));
        }
        handed
    }

    /// Why a write failed, if one did.
    pub fn failure(&self) -> Option<Error> {
        self.failure.get()
    }

    /// Lets go of what is held without writing it: a buffer that is dropped would be written once more.
    pub fn let_go(self) {
        let (_writer, _unwritten) = self.writer.into_inner().into_parts();
    }
}

impl<W: Write + Drop> Write for &Output<W> {
    fn write(&mut self, buf: &[u8]) -> io::Result<usize> {
        if self.failure.get().is_some() {
            return Err(Error::from(ErrorKind::Other));
        }
        let written = match self.writer.try_borrow_mut() {
            Ok(mut writer) => writer.write(buf),
            Err(_) => Err(Error::from(ErrorKind::Other)),
        };
        if let Err(error) = written {
            self.failure.set(Some(error));
        }
        written
    }

    fn flush(&mut self) -> io::Result<()> {
        self.hand_on()
    }
}
