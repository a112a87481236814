//! Why a device failed, as a sentence.

use arrayvec::ArrayString;
use std::fmt::Write;
use std::{fmt, io};

/// The most octets of what the system says of an error.
const LONGEST_REASON: usize = 320;

/// A read or a write that failed.
#[derive(Clone, Copy)]
pub enum Failure {
    /// Standard input could not be read.
    Read(io::Error),
    /// Standard output could not be written.
    Write(io::Error),
}

impl Failure {
    /// Whether nobody reads standard output any more, as behind `| head`.
    pub fn is_reader_gone(&self) -> bool {
        match self {
            Failure::Read(_) => false,
            Failure::Write(error) => error.kind() == io::ErrorKind::BrokenPipe,
        }
    }
}

/// A file that cannot be read, by its name.
#[derive(Clone, Copy)]
pub struct Unread<'a> {
    /// The name.
    pub file: &'a str,
    /// Why.
    pub error: io::Error,
}

impl fmt::Display for Unread<'_> {
    fn fmt<W: fmt::Write>(&self, f: &mut fmt::Formatter<W>) -> fmt::Result {
        write!(f, "{}: ", self.file)?;
        write_reason(f, &self.error)
    }
}

// Writes what the system says of an error, without its number.
fn write_reason<W: fmt::Write>(f: &mut fmt::Formatter<W>, error: &io::Error) -> fmt::Result {
    let mut said = ArrayString::<LONGEST_REASON>::new();
    write!(said, "{error}")?;
    match said.as_str().split_once(" (os error ") {
        Some((reason, _)) => f.write_str(reason),
        None => f.write_str(said.as_str()),
    }
}

impl fmt::Display for Failure {
    fn fmt<W: fmt::Write>(&self, f: &mut fmt::Formatter<W>) -> fmt::Result {
        match self {
            Failure::Read(error) => {
                f.write_str("cannot read: ")?;
                write_reason(f, error)
            }
            Failure::Write(error) => {
                f.write_str("cannot write: ")?;
                write_reason(f, error)
            }
        }
    }
}
