//! The memory of frames.

ghost use Rattle.std.specs.Prelude.{◌≡◌, Err, IfErr, IfOk, IfSome, false, true};
ghost use Rattle.ber_core.specs.computed.Reading.{Gives};
ghost use Rattle.ber_core.specs.declared.fault.Fault.{Fault};
ghost use Rattle.frame_core.specs.Frame.{SpellsFrame};
ghost use Rattle.frame_core.specs.FrameFault.{FrameFault};
ghost use Rattle.frame_core.specs.FrameViews.{FrameIsPart, ShowsFrame, apdu_of, frame_of, is_written};
ghost use Rattle.frame_core.specs.Written.{ApduIsSpellable, written_frame};
ghost use Rattle.frame_core.specs.computed.FrameReading.{frame_at};
ghost use Rattle.frame_core.specs.computed.WrittenTest.{fits};
ghost use Rattle.frame_core.specs.declared.frame.Frame.{Frame};

use crate::again::Again;
use crate::beside::Beside;
use crate::held::Held;
use ber_core::Fault;
use byteorder::{BigEndian, ByteOrder};
use frame_core::{ApduView, FrameView, see_frame, view_frame};
use std::alloc::Allocator;

// How many frames are held at most: a place has a number of one octet.
const PLACES: usize = 256;

/// Frames of GOOSE that are held, one at each place: a frame that repeats the one at its place, but for timeAllowedtoLive and
/// sqNum, is answered without being read again. Where there is no memory for it, each frame is read. Something may be kept beside a
/// frame that is held.
#[derive(Drop)]
pub struct FrameMemory<A: Allocator, B: Beside> {
    alloc: A,
    held: Vec<Held<A, B>, A>,
    asked: bool,
}

// The place of a frame, by its source address and its APPID: a wrong guess costs a comparison.
#[inline(always)]
fn place_of(octets: &[u8]) -> usize {
    if octets.len() < 20 {
        return 0;
    }
    let source = BigEndian::read_u32(&octets[8..]);
    let untagged = BigEndian::read_u16(&octets[14..]);
    let tagged = BigEndian::read_u16(&octets[18..]);
    let sender = source
        .wrapping_mul(2)
        .wrapping_add(u32::from(untagged))
        .wrapping_add(u32::from(tagged));
    ((sender ^ (sender / 256)) % 256) as usize
}

impl<A: Allocator + Copy, B: Beside + Drop> FrameMemory<A, B> {
    ghost use Rattle.repeat_core.specs.Again.{IsAgain};
    ghost use Rattle.repeat_core.specs.Beside.{IsKeptOf, Repeats};

    /// A memory that holds no frame yet. Asks for no memory: its places are asked for with the first frame of GOOSE that is read.
    pub fn new(alloc: A) -> FrameMemory<A, B> {
        FrameMemory {
            alloc,
            held: Vec::new(alloc),
            asked: false,
        }
    }

    /// A memory that holds no frame and asks for none of its places: each frame is read.
    pub fn without(alloc: A) -> FrameMemory<A, B> {
        FrameMemory {
            alloc,
            held: Vec::new(alloc),
            asked: true,
        }
    }

    // Asks for the places, once. Where there is no memory for them there is none.
    #[inline(never)]
    fn set_up(&mut self) {
        if self.asked {
            return;
        }
        self.asked = true;
        let Ok(mut held) = Vec::with_capacity(self.alloc, PLACES) else {
            return;
        };
        for _ in 0..PLACES {
            if held.push(Held::new(self.alloc)).is_err() {
                break;
            }
        }
        self.held = held;
    }

    /// Takes note of the frame that was seen in these octets, which are alike to none that is held: it may be held from now on. It
    /// is where the one before it at its place had the same stNum, or where its stNum is the next one to that of a frame that is held
    /// and was repeated: so a new state of a sender that repeats is held at once, and frames that never repeat are not.
    #[inline(always)]
    pub fn note(&mut self, octets: &[u8], frame: &FrameView<'_>) {
        let ApduView::Goose(goose) = &frame.apdu else {
            return;
        };
        let Some(held) = self.held.get_mut(place_of(octets)) else {
            self.set_up();
            return;
        };
        if held.st_num != goose.st_num {
            held.st_num = goose.st_num;
            if held.is_followed_by(goose.st_num) {
                held.hold(octets);
            }
        } else if held.has_room(goose.st_num, octets.len()) {
            held.hold(octets);
        }
    }

    /// What is known of octets that are alike to the frame at their place, which is all of it: `Again::frame` has it.
    #[inline(always)]
    pub fn alike(&self, octets: &[u8]) -> Option<Again<'_, B>>
        ensures again { IfSome result (λ again. IsAgain again octets.now) }

        // They spell a frame of GOOSE with the two numbers, and what is kept beside the frame that is held is of this frame as well.
        ensures repeats { IfSome result (λ again. Repeats B.suits again octets.now) }
    {
        self.held.get(place_of(octets))?.again(octets)
    }

    /// Keeps this beside the frame that is held at the place of these octets, whose frame it is of, where they are alike to that;
    /// else lets it go.
    #[cold]
    #[inline(never)]
    pub fn keep(&mut self, octets: &[u8], beside: B)
        requires { IsKeptOf B.suits beside octets.now }
    {
        if let Some(held) = self.held.get_mut(place_of(octets)) {
            held.put_beside(octets, beside);
        }
    }

    /// What `view_frame` answers. Takes no memory that it must have.
    ///
    /// # Errors
    ///
    /// Those of `view_frame`.
    #[inline(always)]
    pub fn view<'a>(&mut self, octets: &'a [u8]) -> Result<FrameView<'a>, Fault>
        // The view that is answered is of a frame that the octets spell, and such a frame is answered.
        ensures found { IfOk result (λ v. SpellsFrame {A = Unit {0}} (frame_of v) octets.now) }
        ensures only { (f : Frame (Unit {0})) → SpellsFrame f octets.now → ShowsFrame result f }

        // The same of the fault.
        ensures fault { IfErr result (λ f. FrameFault f octets.now) }
        ensures fault_only { (f : Fault) → FrameFault f octets.now → result ≡ Err f }

        // Each field of the frame has a spelling, so that nothing but its length keeps it from being written.
        ensures spellable { IfOk result (λ v. ApduIsSpellable (apdu_of {A = Unit {0}} v.apdu)) }

        // Whatever octets the view hands out are a part of the source.
        ensures parts { IfOk result (λ v. FrameIsPart v octets.entry) }

        // Whether the octets are the written form of the frame is not noted.
        ensures unnoted { IfOk result (λ v. is_written v.apdu ≡ false) }

        // For callers: the function on octets that it computes.
        ensures exact { Gives (λ v. frame_of {A = Unit {0}} v) result (frame_at octets.now) }
    {
        if let Some(again) = self.alike(octets) {
            return Ok(again.frame(octets));
        }
        let viewed = view_frame(octets);
        if let Ok(frame) = &viewed {
            self.note(octets, frame);
        }
        viewed
    }

    /// What `see_frame` answers. Takes no memory that it must have.
    ///
    /// # Errors
    ///
    /// Those of `see_frame`.
    #[inline(always)]
    pub fn see<'a>(&mut self, octets: &'a [u8], notes: bool) -> Result<FrameView<'a>, Fault>
        // The function on octets that it computes, as `view` does, whose clauses say what it finds.
        ensures exact { Gives (λ v. frame_of {A = Unit {0}} v) result (frame_at octets.now) }

        // Each field of the frame has a spelling, so that nothing but its length keeps it from being written.
        ensures spellable { IfOk result (λ v. ApduIsSpellable (apdu_of {A = Unit {0}} v.apdu)) }

        // Whatever octets the view hands out are a part of the source.
        ensures parts { IfOk result (λ v. FrameIsPart v octets.entry) }

        // The octets are the written form of the frame, which is not too long, where the view of the APDU says so; it says so
        // only where that was asked.
        ensures written { IfOk result (λ v. is_written v.apdu ≡ true → (octets.now ≡ written_frame (frame_of {A = Unit {0}} v)) × (fits (frame_of {A = Unit {0}} v) ≡ true)) }
        ensures asked { IfOk result (λ v. is_written v.apdu ≡ true → notes ≡ true) }
    {
        if let Some(again) = self.alike(octets) {
            return Ok(again.see(octets, notes));
        }
        let seen = see_frame(octets, notes);
        if let Ok(frame) = &seen {
            self.note(octets, frame);
        }
        seen
    }
}
