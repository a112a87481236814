//! The console: what is said to a person goes out whole, also where the system is not ready for it.

use crate::patient::Patient;
use std::fmt::Display;
use std::io::{self, Eprint, Print, Write};

/// Standard output and standard error for texts to a person: each is one text, which is waited for.
#[derive(Clone, Copy)]
pub struct Console<'a> {
    rt: &'a HostRuntime,
}

impl<'a> Console<'a> {
    /// The console of this runtime.
    pub fn of(rt: &'a HostRuntime) -> Console<'a> {
        Console { rt }
    }
}

impl Eprint for Console<'_> {
    fn eprint<D: Display + Drop>(&self, value: D) -> io::Result<()> {
        match format!(in self.rt.alloc(); "{value}") {
            Ok(text) => Patient::new(self.rt, self.rt.stderr()).write_all(text.as_bytes()),
            Err(_) => self.rt.eprint(value),
        }
    }

    fn eprintln<D: Display + Drop>(&self, value: D) -> io::Result<()> {
        self.eprint(format_args!("{value}\n"))
    }
}

impl Print for Console<'_> {
    fn print<D: Display + Drop>(&self, value: D) -> io::Result<()> {
        match format!(in self.rt.alloc(); "{value}") {
            Ok(text) => self.write_all(text.as_bytes()),
            Err(_) => self.rt.print(value),
        }
    }

    fn println<D: Display + Drop>(&self, value: D) -> io::Result<()> {
        self.print(format_args!("{value}\n"))
    }

    fn write_all(&self, bytes: &[u8]) -> io::Result<()> {
        Patient::new(self.rt, self.rt.stdout()).write_all(bytes)
    }
}
