//! Sources over readers of the standard library that read ahead.
ghost use Rattle.std.specs.Prelude.{◌≡◌};
ghost use Rattle.std.specs.Io.Buffered.{reader_remaining};
ghost use Rattle.list_core.specs.declared.device.InputEnd.{InputEnd};

use crate::device::{DeviceFault, InputEnd, Source};
use crate::std_io::FromRead;
use std::alloc::Allocator;
use std::io::{BufRead, BufReader, Read};

/// A source of what a reader gives that reads ahead: what it has read ahead is at hand. No read is tried again.
#[derive(Drop)]
pub struct FromBuffered<R, A: Allocator> {
    source: FromRead<BufReader<R, A>>,
}

impl<R: Read, A: Allocator> FromBuffered<R, A> {
    /// An open source of what the reader gives.
    pub fn new(reader: BufReader<R, A>) -> FromBuffered<R, A>
        ensures left { ⟦<FromBuffered<R, A> as Source>⟧.left result ≡ reader_remaining R.remaining reader }
        ensures open { ⟦<FromBuffered<R, A> as Source>⟧.ending result ≡ InputEnd.Open }
    {
        FromBuffered {
            source: FromRead::new(reader),
        }
    }
}

impl<R: Read, A: Allocator> Source for FromBuffered<R, A> {
    ghost left = { λ s. reader_remaining R.remaining s.source.reader };

    ghost ending = { λ s. s.source.ending };

    fn read_some(&mut self, into: &mut [u8]) -> Result<usize, DeviceFault> {
        self.source.read_some(into)
    }

    fn ending(&self) -> InputEnd {
        self.source.ending
    }

    #[inline(always)]
    fn at_hand(&self) -> &[u8] {
        self.source.reader.buffer()
    }

    #[inline(always)]
    fn take_at_hand(&mut self, count: usize) -> bool {
        if self.source.reader.buffer().len() < count {
            return false;
        }
        self.source.reader.consume(count);
        true
    }
}
