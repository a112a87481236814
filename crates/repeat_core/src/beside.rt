//! What is kept beside a frame that is held.

ghost use Rattle.std.specs.Prelude.{⊤};
ghost use Rattle.std.specs.Coded.{Unit-prop};
ghost use Rattle.frame_core.specs.declared.frame.Frame.{Frame};

/// What is kept beside a frame that is held, for all frames that are the same but for timeAllowedtoLive and sqNum.
pub trait Beside {
    /// It suits the frames that are this one but for the two numbers.
    ghost suits: { Self → Frame (Unit {0}) → Type 0 };

    /// It does so in one way only.
    ghost suits_once: { (b : Self) (f : Frame (Unit {0})) → IsProp (suits b f) };
}

/// Of a command that keeps nothing beside a frame.
#[derive(Drop)]
pub struct Nothing;

impl Beside for Nothing {
    ghost suits = { λ _ _. ⊤ };

    ghost suits_once = { λ _ _. Unit-prop };
}
