//! What is known of octets that are alike to a frame that is held.

ghost use Rattle.std.specs.Prelude.{◌≡◌, ◌+◌, Ok, false, slice_range, true};
ghost use Rattle.frame_core.specs.Frame.{SpellsFrame};
ghost use Rattle.frame_core.specs.FrameViews.{FrameIsPart, apdu_of, frame_of, is_written};
ghost use Rattle.frame_core.specs.Written.{ApduIsSpellable, written_frame};
ghost use Rattle.frame_core.specs.computed.FrameReading.{frame_at};
ghost use Rattle.frame_core.specs.computed.WrittenTest.{fits};
ghost use Rattle.pdu_core.specs.Written.{written_goose};
ghost use Rattle.repeat_core.specs.Noted.{noted_pdu};

use crate::notes::Notes;
use crate::numbers::is_number_short;
use crate::showing::noted_frame;
use frame_core::FrameView;

/// What is known of octets that are alike to a frame that is held: what is noted of that, and the two numbers that stand in them.
#[derive_where(Clone, Copy)]
pub struct Again<'m, B> {
    pub(crate) notes: &'m Notes,
    /// The timeAllowedtoLive that stands in them.
    pub live: u32,
    /// The sqNum that stands in them.
    pub sq_num: u32,
    pub(crate) written: bool,
    /// What is kept beside the frame that is held.
    pub beside: Option<&'m B>,
}

impl<B> Again<'_, B> {
    ghost use Rattle.repeat_core.specs.Again.{IsAgain};

    /// The frame that these octets spell. Whether they are its written form is not noted.
    #[inline(always)]
    pub fn frame<'a>(&self, octets: &'a [u8]) -> FrameView<'a>
        requires { IsAgain self.now octets.now }
        ensures found { SpellsFrame {A = Unit {0}} (frame_of result) octets.now }
        ensures spellable { ApduIsSpellable (apdu_of {A = Unit {0}} result.apdu) }
        ensures parts { FrameIsPart result octets.entry }
        ensures unnoted { is_written result.apdu ≡ false }
        ensures exact { frame_at octets.now ≡ Ok (frame_of {A = Unit {0}} result) }
    {
        noted_frame(octets, self.notes, self.live, self.sq_num, false)
    }

    // Whether these octets are known to be the written form of the frame: the one that is held is, and both numbers have the
    // fewest octets.
    #[inline(always)]
    fn is_written(&self, octets: &[u8]) -> bool
        requires { IsAgain self.now octets.now }
        ensures { result ≡ true → slice_range octets.now (self.now.notes.now.ether_type + 10) self.now.notes.now.end ≡ written_goose (noted_pdu {A = Unit {0}} octets.now self.now.notes.now self.now.live self.now.sq_num) }
    {
        self.written
            && is_number_short(octets, &self.notes.live)
            && is_number_short(octets, &self.notes.sq_num)
    }

    /// The same, and where `notes` is true, whether these octets are known to be its written form.
    #[inline(always)]
    pub fn see<'a>(&self, octets: &'a [u8], notes: bool) -> FrameView<'a>
        requires { IsAgain self.now octets.now }
        ensures exact { frame_at octets.now ≡ Ok (frame_of {A = Unit {0}} result) }
        ensures spellable { ApduIsSpellable (apdu_of {A = Unit {0}} result.apdu) }
        ensures parts { FrameIsPart result octets.entry }
        ensures written { is_written result.apdu ≡ true → (octets.now ≡ written_frame (frame_of {A = Unit {0}} result)) × (fits (frame_of {A = Unit {0}} result) ≡ true) }
        ensures asked { is_written result.apdu ≡ true → notes ≡ true }
    {
        let written = notes && self.is_written(octets);
        noted_frame(octets, self.notes, self.live, self.sq_num, written)
    }
}
