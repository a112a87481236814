//! A frame that is held.

ghost use Rattle.std.specs.Prelude.{◌≡◌, ◌≤◌, ◌+◌, if◌then◌else◌, is_some, length, slice_range, true, IfSome};
ghost use Rattle.pdu_core.specs.Goose.{SpellsGoose};
ghost use Rattle.pdu_core.specs.Views.{pdu_of};
ghost use Rattle.pdu_core.specs.Written.{written_goose};
ghost use Rattle.repeat_core.specs.Again.{IsAgain, ShowsAgain};
ghost use Rattle.repeat_core.specs.Beside.{IsKeptOf, Repeats};
ghost use Rattle.repeat_core.specs.Noted.{IsPlaced, noted_frame, noted_pdu};
ghost use Rattle.repeat_core.specs.Standing.{HasEnvelopeAt, Stands};
ghost use Rattle.repeat_core.specs.WrittenAround.{IsWrittenAround};

use crate::again::Again;
use crate::alike::are_alike;
use crate::beside::Beside;
use crate::notes::Notes;
use crate::noting::notes_of;
use crate::numbers::number_at;
use frame_core::{ApduView, VlanTag, see_frame};
use pdu_core::GooseView;
use std::alloc::Allocator;
use std::cell::Cell;

/// A place for a frame of GOOSE that is held: its octets and what is noted of it, while it is good.
#[derive(Drop)]
pub(crate) struct Held<A: Allocator, B: Beside> {
    octets: Vec<u8, A>,
    notes: Notes,
    good: bool,
    /// The stNum of the last frame that belongs here.
    pub st_num: u32,
    // Whether it was seen to stand in its written form.
    written: bool,
    // Whether a frame repeated it.
    repeated: Cell<bool>,
    beside: Option<B>,
    ghost placed: { good ≡ true → IsPlaced (length octets.items) notes },
    ghost known: { good ≡ true → ∥ Stands octets.items notes ∥₁ },
    ghost suited: { good ≡ true → ∥ IfSome beside (λ b. B.suits b (noted_frame octets.items notes 0 0)) ∥₁ },
    ghost around: { good ≡ true → written ≡ true → ∥ IsWrittenAround (noted_pdu octets.items notes 0 0) octets.items notes ∥₁ },
}

impl<A: Allocator, B: Beside + Drop> Held<A, B> {
    /// A place where nothing is held.
    pub fn new(alloc: A) -> Held<A, B> {
        Held {
            octets: Vec::new(alloc),
            notes: Notes::NONE,
            good: false,
            st_num: 0,
            written: false,
            repeated: Cell::new(false),
            beside: None,
        }
    }

    // The timeAllowedtoLive and the sqNum of octets that are those of the frame that is held, but for these two.
    #[inline(always)]
    fn numbers(&self, octets: &[u8]) -> Option<(u32, u32)>
        ensures good { IfSome result (λ _. self.now.good ≡ true) }
        ensures shown { IfSome result (λ x. ShowsAgain octets.now self.now.notes x.0 x.1 self.now.written) }
        ensures same { IfSome result (λ _. noted_frame octets.now self.now.notes 0 0 ≡ noted_frame self.now.octets.items self.now.notes 0 0) }
    {
        if !self.good || !are_alike(self.octets.as_slice(), octets, &self.notes) {
            return None;
        }
        let live = number_at(octets, &self.notes.live)?;
        let sq_num = number_at(octets, &self.notes.sq_num)?;
        Some((live, sq_num))
    }

    /// What is known of octets that are those of the frame that is held, but for the two numbers.
    #[inline(always)]
    pub fn again(&self, octets: &[u8]) -> Option<Again<'_, B>>
        ensures again { IfSome result (λ again. IsAgain again octets.now) }
        ensures repeats { IfSome result (λ again. Repeats B.suits again octets.now) }
    {
        let (live, sq_num) = self.numbers(octets)?;
        self.repeated.set(true);
        Some(Again {
            notes: &self.notes,
            live,
            sq_num,
            written: self.written,
            beside: self.beside.as_ref(),
        })
    }

    /// Keeps this beside the frame that is held, where the octets, of whose frame it is, are those of that but for the two numbers;
    /// else lets it go.
    pub fn put_beside(&mut self, octets: &[u8], beside: B)
        requires { IsKeptOf B.suits beside octets.now }
    {
        if self.numbers(octets).is_some() {
            self.beside = Some(beside);
        }
    }

    /// Whether a frame of so many octets in this state may be held in place of the one that is: not where that is of the same state
    /// and size, since then what its sender sends, or another, is not alike within a state.
    #[inline(always)]
    pub fn has_room(&self, st_num: u32, size: usize) -> bool {
        self.notes.st_num != st_num || self.octets.len() != size
    }

    /// Whether a frame in this state may follow the one that is held, which was repeated: then it is likely to be repeated too.
    #[inline(always)]
    pub fn is_followed_by(&self, st_num: u32) -> bool {
        self.repeated.get() && self.notes.st_num.wrapping_add(1) == st_num
    }

    /// Holds the frame in these octets, where it is one of GOOSE. Where there is no memory for it, nothing is held. Reads it once more, so that a frame that is read need not be kept for this.
    #[inline(never)]
    pub fn hold(&mut self, octets: &[u8]) {
        let Ok(frame) = see_frame(octets, true) else {
            return;
        };
        let ApduView::Goose(goose) = &frame.apdu else {
            return;
        };
        let end = octets.len() - frame.trailer.len();
        self.keep(octets, ether_type_place(&frame.tag), end, goose);
    }

    // Holds the frame of GOOSE that was seen in these octets, its EtherType at a place and its APDU up to another.
    fn keep(&mut self, octets: &[u8], ether_type: usize, end: usize, goose: &GooseView<'_>)
        requires envelope { HasEnvelopeAt octets.now ether_type end }
        requires ordered { ether_type + 10 ≤ end }
        requires inside { end ≤ length octets.now }
        requires spelled { SpellsGoose {A = Unit {0}} (pdu_of goose.now) (slice_range octets.now (ether_type + 10) end) }
        requires written { goose.now.written ≡ true → slice_range octets.now (ether_type + 10) end ≡ written_goose (pdu_of {A = Unit {0}} goose.now) }
    {
        self.good = false;
        self.repeated.set(false);
        self.beside = None;
        self.octets.clear();
        let Ok(notes) = notes_of(octets, ether_type, end, goose) else {
            return;
        };
        if self.octets.extend_from_slice(octets).is_err() {
            return;
        }
        self.notes = notes;
        self.written = goose.written;
        self.good = true;
    }
}

// Where the EtherType of a frame stands, by its tag.
fn ether_type_place(tag: &Option<VlanTag>) -> usize
    ensures { result ≡ (if is_some tag.now then 16 else 12) }
{
    match tag {
        Some(_) => 16,
        None => 12,
    }
}
