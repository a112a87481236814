//! What is made piece by piece is read like a file.
ghost use Rattle.std.specs.Prelude.{◌≡◌, None};

use list_core::{DeviceFault, InputEnd, Source};
use std::alloc::{AllocError, Global};

/// How many pieces are made at once.
const PIECES: usize = 64;

/// What makes a text or a capture piece by piece.
pub trait Maker {
    /// Appends the next piece, and answers whether there was one.
    fn append(&mut self, made: &mut Vec<u8, Global>) -> Result<bool, AllocError>;
}

/// What a maker makes, as octets to be read.
#[derive(Drop)]
pub struct Feed<M: Maker + Drop> {
    maker: M,
    made: Vec<u8, Global>,
    at: usize,
    ending: InputEnd,
}

/// The feed of a maker of which nothing was read.
pub fn feed_of<M: Maker + Drop>(alloc: Global, maker: M) -> Feed<M>
    ensures { result.ending ≡ InputEnd.Open }
{
    Feed {
        maker,
        made: Vec::new(alloc),
        at: 0,
        ending: InputEnd::Open,
    }
}

// Appends several pieces, as far as there are some.
fn append_several<M: Maker>(maker: &mut M, made: &mut Vec<u8, Global>) -> Result<(), AllocError> {
    for _piece in 0..PIECES {
        if !maker.append(made)? {
            break;
        }
    }
    Ok(())
}

impl<M: Maker + Drop> Feed<M> {
    // Makes more where all was read.
    fn fill(&mut self) -> Result<(), AllocError>
        ensures { self.new.ending ≡ self.old.ending }
    {
        if self.at < self.made.len() {
            return Ok(());
        }
        self.made.clear();
        self.at = 0;
        append_several(&mut self.maker, &mut self.made)
    }

    // What was made and not read.
    fn rest(&self) -> &[u8] {
        match self.made.get(self.at..) {
            Some(rest) => rest,
            None => &[],
        }
    }
}

impl<M: Maker + Drop> Source for Feed<M> {
    ghost left = { λ _. None };

    ghost ending = { λ s. s.ending };

    fn read_some(&mut self, into: &mut [u8]) -> Result<usize, DeviceFault> {
        match self.fill() {
            Ok(()) => {}
            Err(_) => {
                self.ending = InputEnd::Failed;
                return Err(DeviceFault);
            }
        }
        let rest = self.rest();
        let count = rest.len().min(into.len());
        into[..count].copy_from_slice(&rest[..count]);
        self.at = self.at.saturating_add(count);
        if count == 0 {
            self.ending = InputEnd::End;
        }
        Ok(count)
    }

    fn ending(&self) -> InputEnd {
        self.ending
    }
}
