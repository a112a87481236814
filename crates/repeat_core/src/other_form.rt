//! Frames that are known not to stand in their written form.

ghost use Rattle.std.specs.Prelude.{◌≡◌, ◌≢◌, ◌≤◌, pos, length, true, IfSome};
ghost use Rattle.ber_core.specs.Written.{integer_size};
ghost use Rattle.frame_core.specs.FrameViews.{frame_of};
ghost use Rattle.frame_core.specs.Frame.{SpellsFrame};
ghost use Rattle.frame_core.specs.Written.{written_frame};
ghost use Rattle.frame_core.specs.declared.frame.Frame.{Frame};
ghost use Rattle.repeat_core.specs.Numbered.{frame_numbered, unnumbered};
ghost use Rattle.repeat_core.specs.OtherForm.{HasOtherForm};
ghost use Rattle.repeat_core.specs.computed.OtherFormOnce.{other_form_once};

use crate::beside::Beside;
use ber_core::signed_count;
use frame_core::{ApduView, FrameView, written_length};

/// Kept of a frame whose written form has another count of octets: so has that of each frame that repeats it, while timeAllowedtoLive
/// and sqNum take as many octets in it.
#[derive(Clone, Copy)]
pub struct OtherForm {
    count: usize,
    live_size: usize,
    sq_num_size: usize,
}

// How many octets a number takes in its written form.
fn size_of(number: u32) -> usize
    ensures { result ≡ integer_size (pos number) }
{
    signed_count(i128::from(number))
}

impl OtherForm {
    /// What is kept of a frame that stands in so many octets. `None` says nothing.
    pub fn of(view: &FrameView<'_>, count: usize) -> Option<OtherForm>
        ensures { IfSome result (λ k. HasOtherForm {A = Unit {0}} k (unnumbered (frame_of view.now))) }
    {
        let ApduView::Goose(goose) = &view.apdu else {
            return None;
        };
        let written = written_length(view)?;
        if written == count {
            return None;
        }
        Some(OtherForm {
            count,
            live_size: size_of(goose.live),
            sq_num_size: size_of(goose.sq_num),
        })
    }

    /// Whether a frame of so many octets with these numbers, which repeats that of which this is kept, is known to have a written form of
    /// another count.
    #[inline(always)]
    pub fn is_of(&self, count: usize, live: u32, sq_num: u32) -> bool
        ensures { result ≡ true → (f : Frame (Unit {0})) → HasOtherForm self.now f → length (written_frame (frame_numbered live sq_num f)) ≢ count }
    {
        self.count == count
            && self.live_size == size_of(live)
            && self.sq_num_size == size_of(sq_num)
    }
}

impl Beside for OtherForm {
    ghost suits = { λ k f. HasOtherForm k f };

    ghost suits_once = { λ k f. other_form_once k f };
}
