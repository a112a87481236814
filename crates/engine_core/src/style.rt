//! How what an engine writes of events is laid out.
ghost use Rattle.std.specs.Prelude.{◌≡◌};
ghost use Rattle.engine_core.specs.declared.style.Style.{Style as SpecStyle};
ghost use Rattle.engine_core.specs.declared.style.Style.TheVariants.{Lines};
ghost use Rattle.object_core.specs.declared.counted.Form.TheVariants.{Text};

use object_core::Form;

/// In which form is written, and whether lines stand behind the dates of their events.
#[derive(Clone, Copy, Debug, PartialEq, Eq)]
pub enum Style {
    /// Lines of this form alone.
    Lines(Form),
    /// Lines of text, each behind the date of its event and a space.
    Dated,
}

/// What has a style: a style itself, or a type that has but one, which the compiler knows.
pub trait HasStyle {
    /// The style that it has.
    ghost style: { Self → SpecStyle };

    /// The style that it has.
    fn style(&self) -> Style
        ensures { result ≡ style self.now };
}

impl HasStyle for Style {
    ghost style = { λ s. s };

    #[inline(always)]
    fn style(&self) -> Style {
        *self
    }
}

/// Lines of text alone.
#[derive(Clone, Copy, Debug)]
pub struct InText;

impl HasStyle for InText {
    ghost style = { λ _. Lines Text };

    #[inline(always)]
    fn style(&self) -> Style {
        Style::Lines(Form::Text)
    }
}
