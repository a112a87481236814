//! The lines of a list, one at a time.
ghost use Rattle.std.specs.Prelude.{◌≡◌, ◌≢◌, ℕ, ◌+◌, ◌-◌, ◌<◌, ◌≤◌, ◌⊎◌, List, [], ◌++◌, length, take, slice_range, drop, MatchOption, MatchResult, IfNone, IfSome, IfOk};
ghost use Rattle.std.specs.Io.KnownBytes.{Consumes};
ghost use Rattle.list_core.specs.declared.device.InputEnd.{InputEnd};
ghost use Rattle.list_core.specs.Cuts.{HasNo};
ghost use Rattle.list_core.specs.computed.PrivateOctets.{IsFirstPlace, TakesTo};
ghost use Rattle.list_core.specs.Lines.{without_cr};
ghost use Rattle.list_core.specs.Device.{ending_after, KeepsOrForgets, GivesOctets, OnlyOpen};

use crate::cutting::first_place;
use crate::device::{DeviceFault, InputEnd, Source};
use crate::first_line::{LONGEST_LINE, judge, size_without_cr};
use crate::list_fault::{ListCause, ListFault};

/// How many octets a reader of lines holds at most.
const CAPACITY: usize = 8192;

/// Lines of a source, one at a time.
#[derive(Drop)]
pub struct LineReader<R> {
    reader: R,
    buffer: [u8; CAPACITY],
    start: usize,
    end: usize,
    taken: u64,
    number: u64,
    ghost sized: { length buffer ≡ 8192 },
    ghost ordered: { start ≤ end },
    ghost within: { end ≤ 8192 },
    ghost few: { taken ≤ 1000000 },
}

impl<R: Source> LineReader<R> {
    ghost use Rattle.list_core.specs.Reader.{held, stream, OnlyWanting, AnswersLine, lent_line, reader_number, line_number_told};
    ghost use Rattle.list_core.specs.computed.PrivateCalls.{StandsFirst, number_after, line_at};
    ghost use Rattle.std.specs.Borrow.{sem};
    ghost use Rattle.std.specs.Io.BufRead.{Rests};
    ghost use Rattle.list_core.specs.contracts.line_reader.LineReader.{the_row};

    pub fn new(reader: R) -> Self
        ensures left { (stream R.left R.ending result).left ≡ R.left reader }
        ensures ending { (stream R.left R.ending result).ending ≡ R.ending reader }
        ensures held { (stream R.left R.ending result).held ≡ [] }
        ensures taken { (stream R.left R.ending result).taken ≡ 0 }
        ensures number { reader_number result ≡ 0 }
    {
        LineReader {
            reader,
            buffer: [0; CAPACITY],
            start: 0,
            end: 0,
            taken: 0,
            number: 0,
        }
    }

    pub fn into_reader(self) -> R
        ensures left { R.left result ≡ (stream R.left R.ending self).left }
        ensures ending { R.ending result ≡ (stream R.left R.ending self).ending }
    {
        let LineReader {
            reader,
            buffer: _,
            start: _,
            end: _,
            taken: _,
            number: _,
        } = self;
        reader
    }

    /// Makes room after what is held.
    fn make_room(&mut self)
        requires { self.old.end - self.old.start ≤ 4096 }
        ensures held { held self.new ≡ held self.old }
        ensures room { self.new.end < 8192 }
        ensures reader { self.new.reader ≡ self.old.reader }
        ensures taken { self.new.taken ≡ self.old.taken }
        ensures number { self.new.number ≡ self.old.number }
    {
        if self.end == CAPACITY {
            self.buffer.copy_within(self.start..self.end, 0);
            self.end -= self.start;
            self.start = 0;
        }
    }

    /// Reads once, to the end of what is held.
    fn refill(&mut self) -> Result<usize, DeviceFault>
        requires open { R.ending self.old.reader ≡ InputEnd.Open }
        requires room { self.old.end - self.old.start ≤ 4096 }
        ensures given { MatchResult result
            (λ n. (given : List ℕ) × (length given ≡ n) × Consumes (R.left self.old.reader) (R.left self.new.reader) given
            × (held self.new ≡ held self.old ++ given))
            (λ _. KeepsOrForgets (R.left self.old.reader) (R.left self.new.reader) × (held self.new ≡ held self.old)) }
        ensures ending { R.ending self.new.reader ≡ ending_after result }
        ensures taken { self.new.taken ≡ self.old.taken }
        ensures number { self.new.number ≡ self.old.number }
    {
        self.make_room();
        let from = self.end;
        match self.reader.read_some(&mut self.buffer[from..]) {
            Ok(count) => {
                self.end += count;
                Ok(count)
            }
            Err(fault) => Err(fault),
        }
    }

    /// The place of the first LF in what is held, of which the front has none.
    #[inline(always)]
    fn look(&self, scanned: usize) -> Option<usize>
        requires within { scanned ≤ length (held self.now) }
        requires before { HasNo 10 (take scanned (held self.now)) }
        ensures { IsFirstPlace 10 (held self.now) result }
    {
        let held = &self.buffer[self.start..self.end];
        match first_place(&held[scanned..], b'\n') {
            Some(at) => Some(scanned + at),
            None => None,
        }
    }

    /// Reads until a line is whole or too long, or the source has ended, and says where its LF is.
    #[inline(always)]
    fn grow(&mut self) -> Option<usize>
        ensures given { (given : List ℕ) × (held self.new ≡ held self.old ++ given) × OnlyOpen (R.ending self.old.reader) given (R.ending self.new.reader)
            × MatchOption result (TakesTo (R.ending self.new.reader) (R.left self.old.reader) (R.left self.new.reader) given)
            (λ _. Consumes (R.left self.old.reader) (R.left self.new.reader) given)
            × OnlyWanting (R.left self.old.reader) (R.ending self.old.reader) (held self.old) given (R.left self.new.reader) (R.ending self.new.reader) }
        ensures line { IsFirstPlace 10 (held self.new) result }
        ensures none { IfNone result ((4096 < length (held self.new)) ⊎ (R.ending self.new.reader ≢ InputEnd.Open)) }
        ensures taken { self.new.taken ≡ self.old.taken }
        ensures number { self.new.number ≡ self.old.number }
    {
        let mut scanned = 0;
        'reads: loop {
            if let Some(at) = self.look(scanned) {
                return Some(at);
            }
            scanned = self.end - self.start;
            if scanned > LONGEST_LINE {
                return None;
            }
            match self.reader.ending() {
                InputEnd::Open => {}
                _ => return None,
            }
            match self.refill() {
                Ok(count) if count > 0 => {}
                _ => return None,
            }
        }
    }

    /// The number of the next line.
    pub(crate) fn next_number(&self) -> u64
        ensures { result ≡ self.now.taken + 1 }
    {
        self.taken + 1
    }

    /// Notes that the next line is refused.
    pub(crate) fn refuse(&mut self, cause: ListCause) -> ListFault
        ensures fault { (result.line ≡ self.old.taken + 1) × (result.cause ≡ cause) }
        ensures number { self.new.number ≡ result.line }
        ensures stream { stream R.left R.ending self.new ≡ stream R.left R.ending self.old }
    {
        let line = self.taken + 1;
        self.number = line;
        ListFault { line, cause }
    }

    /// Holds what stands first: a line of so many octets, the end, or a fault. Takes nothing off.
    #[inline(always)]
    pub(crate) fn fill(&mut self) -> Result<Option<usize>, ListFault>
        ensures given { (given : List ℕ) × (held self.new ≡ held self.old ++ given) × OnlyOpen (R.ending self.old.reader) given (R.ending self.new.reader)
            × MatchResult result (λ _. Consumes (R.left self.old.reader) (R.left self.new.reader) given)
            (λ _. GivesOctets (R.left self.old.reader) (R.left self.new.reader) given)
            × OnlyWanting (R.left self.old.reader) (R.ending self.old.reader) (held self.old) given (R.left self.new.reader) (R.ending self.new.reader) }
        ensures front { StandsFirst (stream R.left R.ending self.new) result }
        ensures bounded { length (held self.new) ≤ 8192 }
        ensures taken { self.new.taken ≡ self.old.taken }
        ensures number { self.new.number ≡ number_after self.old.number result }
    {
        let first = self.grow();
        let ending = self.reader.ending();
        let held = &self.buffer[self.start..self.end];
        match judge(held, first, self.taken, ending) {
            Ok(front) => Ok(front),
            Err(cause) => Err(self.refuse(cause)),
        }
    }

    /// Takes the first line off, of so many octets.
    pub(crate) fn take(&mut self, size: usize)
        requires within { size ≤ length (held self.old) }
        requires few { self.old.taken < 1000000 }
        ensures held { held self.new ≡ drop (size + 1) (held self.old) }
        ensures off { held self.old ≡ take (size + 1) (held self.old) ++ held self.new }
        ensures reader { self.new.reader ≡ self.old.reader }
        ensures taken { self.new.taken ≡ self.old.taken + 1 }
        ensures number { self.new.number ≡ self.old.taken + 1 }
        ensures start { self.old.start + size ≤ self.old.end }
        ensures buffer { self.new.buffer ≡ self.old.buffer }
    {
        self.taken += 1;
        self.number = self.taken;
        self.start = self.end.min(self.start + size + 1);
    }

    /// Takes the first line off, and says where it lies.
    fn advance(&mut self) -> Result<Option<(usize, usize)>, ListFault>
        ensures stream { AnswersLine (stream R.left R.ending self.old) (line_at self.new.buffer result) (stream R.left R.ending self.new) }
        ensures within { IfOk result (λ o. IfSome o (λ p. (p.0 ≤ p.1) × (p.1 ≤ 8192))) }
        ensures number { self.new.number ≡ line_number_told (stream R.left R.ending self.old) (line_at self.new.buffer result) self.old.number }
    {
        match self.fill() {
            Err(fault) => Err(fault),
            Ok(None) => Ok(None),
            Ok(Some(size)) => {
                let start = self.start;
                let end = start + self.front_size(size);
                self.take(size);
                Ok(Some((start, end)))
            }
        }
    }

    /// The first line, of so many octets, without a CR at its end.
    pub(crate) fn front(&self, size: usize) -> &[u8]
        requires { size ≤ length (held self.now) }
        ensures line { result.now ≡ without_cr (take size (held self.now)) }
        ensures size { length result.now ≤ size }
    {
        let end = self.front_size(size);
        let held = &self.buffer[self.start..self.end];
        &held[..end]
    }

    /// How many octets the first line has without a CR at its end.
    fn front_size(&self, size: usize) -> usize
        requires { size ≤ length (held self.now) }
        ensures size { result ≤ size }
        ensures line { take result (held self.now) ≡ without_cr (take size (held self.now)) }
    {
        let held = &self.buffer[self.start..self.end];
        size_without_cr(&held[..size])
    }

    /// What lies in the buffer at these places.
    fn part(&self, start: usize, end: usize) -> &[u8]
        requires order { start ≤ end }
        requires within { end ≤ 8192 }
        ensures { result.now ≡ slice_range self.now.buffer start end }
    {
        let buffer = &self.buffer;
        &buffer[start..end]
    }

    /// The next line, without its ending.
    pub fn next_line(&mut self) -> Result<Option<&[u8]>, ListFault>
        ensures* stream { sem 𝓛 (Rests (the_row R.row) self.entry (λ new.
            AnswersLine (stream R.left R.ending self.old) (lent_line result) (stream R.left R.ending new)
            × (reader_number new ≡ line_number_told (stream R.left R.ending self.old) (lent_line result) (reader_number self.old)))) }
    {
        match self.advance() {
            Err(fault) => Err(fault),
            Ok(None) => Ok(None),
            Ok(Some((start, end))) => Ok(Some(self.part(start, end))),
        }
    }

    /// The octets that are held and not answered, from the start of the next line on.
    pub(crate) fn rest(&self) -> &[u8]
        ensures { result.now ≡ held self.now }
    {
        &self.buffer[self.start..self.end]
    }

    /// The number of the line last answered or refused, 0 before the first.
    pub fn line_number(&self) -> u64
        ensures { result ≡ reader_number self.now }
    {
        self.number
    }
}
