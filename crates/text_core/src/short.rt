//! A short text, made from its end to its front in an array on the stack and appended as a whole: what stands in it costs no
//! call and no look at the room of the line.
ghost use Rattle.std.specs.Prelude.{◌≡◌, ℕ, ◌+◌, ◌-◌, ◌*◌, ◌≤◌, List, [], ◌++◌, length, drop, true};
ghost use Rattle.std.specs.Fmt.{decimal};
ghost use Rattle.std.specs.List.{flat_map};
ghost use Rattle.hex.specs.Hex.{encode_lower};
ghost use Rattle.text_core.specs.Pieces.{AppendsText, boolean_text, decimal_or_dash, escaped, four_digits};
ghost use Rattle.text_core.specs.ValueText.{time_or_dash, time_text};

use crate::pieces::{BLOCK, DIGITS, are_plain, block_digits};
use itoa::write_digits;
use mms_data::UtcTime;
use std::alloc::{AllocError, Allocator};
use std::marker::Model;

/// How many octets a short text has at most.
const ROOM: usize = 160;

/// A short text, of at most 160 octets. What is put into it is prepended.
#[derive(Drop)]
pub struct ShortText {
    octets: [u8; ROOM],
    start: usize,
}

impl Model for ShortText {
    ghost Value = { List ℕ };

    ghost view = { λ s. drop s.start s.octets };

    ghost invariant = { λ s. (length s.octets ≡ 160) × (s.start ≤ 160) };
}

impl ShortText {
    /// A text of no octets.
    #[inline(always)]
    pub fn new() -> ShortText
        ensures { result ≡ [] }
    {
        ShortText {
            octets: [0; ROOM],
            start: ROOM,
        }
    }

    /// Takes out all octets, so that the text is one of none again, in the same memory.
    #[inline(always)]
    pub fn clear(&mut self)
        ensures { self.new ≡ [] }
    {
        self.start = ROOM;
    }

    /// Puts octets in front.
    #[inline(always)]
    pub fn put(&mut self, octets: &[u8])
        requires { length self.old + length octets.now ≤ 160 }
        ensures text { self.new ≡ octets.now ++ self.old }
        ensures size { length self.new ≡ length self.old + length octets.now }
    {
        let end = self.start;
        self.start = end - octets.len();
        self.octets[self.start..end].copy_from_slice(octets);
    }

    /// Puts a number in decimal in front, of at most 20 digits.
    #[inline(always)]
    pub fn put_decimal(&mut self, number: u64)
        requires { length self.old + 20 ≤ 160 }
        ensures text { self.new ≡ decimal number ++ self.old }
        ensures size { length self.new ≤ length self.old + 20 }
    {
        self.start = write_digits(number, &mut self.octets, self.start);
    }

    /// Puts a number in decimal in front, or a dash.
    #[inline(always)]
    pub fn put_decimal_if(&mut self, number: Option<u16>)
        requires { length self.old + 20 ≤ 160 }
        ensures text { self.new ≡ decimal_or_dash number ++ self.old }
        ensures size { length self.new ≤ length self.old + 20 }
    {
        match number {
            Some(number) => self.put_decimal(number as u64),
            None => self.put(b"-"),
        }
    }

    /// Puts a truth value in words in front.
    #[inline(always)]
    pub fn put_boolean(&mut self, is_true: bool)
        requires { length self.old + 5 ≤ 160 }
        ensures text { self.new ≡ boolean_text is_true ++ self.old }
        ensures size { length self.new ≤ length self.old + 5 }
    {
        if is_true {
            self.put(b"true");
        } else {
            self.put(b"false");
        }
    }

    /// Puts at most 32 octets in lower case hexadecimal in front.
    #[inline(always)]
    pub fn put_hexadecimal(&mut self, octets: &[u8])
        requires short { length octets.now ≤ 32 }
        requires room { length self.old + 2 * length octets.now ≤ 160 }
        ensures text { self.new ≡ encode_lower octets.now ++ self.old }
        ensures size { length self.new ≡ length self.old + 2 * length octets.now }
    {
        let mut block = [0; BLOCK];
        block[..octets.len()].copy_from_slice(octets);
        self.put(&block_digits::<BLOCK, DIGITS>(&block)[..2 * octets.len()]);
    }

    // Puts `N` octets in front, and then `N` others so far in front of their place that the first `from` of these are not over
    // them. The compiler copies so many without a call.
    #[inline(always)]
    fn put_halves<const N: usize>(&mut self, first: &[u8; N], from: usize, last: &[u8; N])
        requires order { from ≤ N }
        requires room { length self.old + N + from ≤ 160 }
        ensures { self.new ≡ first.now ++ (drop (N - from) last.now ++ self.old) }
    {
        let end = self.start;
        self.start = end - N - from;
        self.octets[end - N..end].copy_from_slice(last);
        self.octets[self.start..self.start + N].copy_from_slice(first);
    }

    // Puts a text of `N` octets to twice as many in front, where it is plain, and answers whether: its last ones and its first
    // ones, of which some may be the same.
    #[inline(always)]
    fn put_short<const N: usize>(&mut self, text: &[u8]) -> bool
        requires least { N ≤ length text.now }
        requires most { length text.now ≤ N + N }
        requires room { length self.old + N + N ≤ 160 }
        ensures put { result ≡ true → self.new ≡ flat_map escaped text.now ++ self.old }
        ensures size { length self.new ≤ length self.old + N + N }
    {
        let Some((first, _)) = text.split_first_chunk::<N>() else {
            unreachable!()
        };
        let Some((_, last)) = text.split_last_chunk::<N>() else {
            unreachable!()
        };
        if are_plain(first) && are_plain(last) {
            self.put_halves::<N>(first, text.len() - N, last);
            return true;
        }
        false
    }

    /// Puts a text of 2 to 32 octets in front, where it is written as it is, and answers whether.
    #[inline(always)]
    pub fn put_plain(&mut self, text: &[u8]) -> bool
        requires { length self.old + 32 ≤ 160 }
        ensures put { result ≡ true → self.new ≡ flat_map escaped text.now ++ self.old }
        ensures size { length self.new ≤ length self.old + 32 }
    {
        match text.len() {
            2..=3 => self.put_short::<2>(text),
            4..=7 => self.put_short::<4>(text),
            8..=16 => self.put_short::<8>(text),
            17..=32 => self.put_short::<16>(text),
            _ => false,
        }
    }

    /// Puts a number in four hexadecimal digits in front.
    #[inline(always)]
    pub fn put_four_digits(&mut self, number: u16)
        requires { length self.old + 4 ≤ 160 }
        ensures text { self.new ≡ four_digits number ++ self.old }
        ensures size { length self.new ≡ length self.old + 4 }
    {
        self.put_hexadecimal(&[(number / 256) as u8, (number % 256) as u8]);
    }

    /// Puts a moment in front.
    #[inline(always)]
    pub fn put_utc(&mut self, time: UtcTime)
        requires { length self.old + 16 ≤ 160 }
        ensures text { self.new ≡ time_text time ++ self.old }
        ensures size { length self.new ≡ length self.old + 16 }
    {
        self.put_hexadecimal(&time.to_octets());
    }

    /// Puts a moment in front, or a dash.
    #[inline(always)]
    pub fn put_utc_if(&mut self, time: Option<UtcTime>)
        requires { length self.old + 16 ≤ 160 }
        ensures text { self.new ≡ time_or_dash time ++ self.old }
        ensures size { length self.new ≤ length self.old + 16 }
    {
        match time {
            Some(time) => self.put_utc(time),
            None => self.put(b"-"),
        }
    }

    /// The text.
    #[inline(always)]
    pub fn as_slice(&self) -> &[u8]
        ensures { result.now ≡ self.now }
    {
        &self.octets[self.start..]
    }

    /// Appends the text to a line.
    #[inline(always)]
    pub fn append_to<A: Allocator>(&self, out: &mut Vec<u8, A>) -> Result<(), AllocError>
        ensures { AppendsText result out.old.items out.new.items self.now }
    {
        out.extend_from_slice(self.as_slice())
    }
}
