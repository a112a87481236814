//! The lines at the end of the input.

ghost use Rattle.std.specs.Prelude.{◌≡◌, ℕ, ◌<◌, ◌^◌, [], IfOk, IfSome, OnErr};
ghost use Rattle.object_core.specs.declared.counted.Form.{Form};
ghost use Rattle.text_core.specs.Pieces.{AppendsText};
ghost use Rattle.engine_core.specs.computed.EngineStep.{PutsLine};
ghost use Rattle.loss_engine.specs.computed.Closing.{closing_item, is_empty_closing};
ghost use Rattle.loss_engine.specs.computed.Held.{kept_by};
ghost use Rattle.loss_engine.specs.computed.Tracking.{closings};
ghost use Rattle.loss_engine.specs.LossText.{closing_in, form_of};

use crate::key::Key;
use crate::losses::Losses;
use crate::texts::closing::{
    put_end_silent, put_samples_total, put_sender_total, put_stream_total,
};
use engine_core::Style;
use loss_core::{SenderTotals, StreamTotals};
use object_core::Form;
use std::alloc::{AllocError, Allocator};

/// What a line at the end tells of a sender or a stream.
#[derive(Clone, Copy)]
pub enum Closing<'a> {
    /// That it has not come back since a moment, or nothing.
    Silent(Key<'a>, Option<u64>),
    /// What its frames come to.
    Frames(Key<'a>, SenderTotals),
    /// What its samples come to.
    Samples(Key<'a>, StreamTotals),
    /// How many samples came.
    Counted(Key<'a>, u64),
}

impl Closing<'_> {
    // Whether it tells nothing.
    fn is_empty(&self) -> bool
        ensures { result ≡ is_empty_closing self.now }
    {
        matches!(self, Closing::Silent(_, None))
    }

    // Whether it is a finding.
    fn is_finding(&self) -> bool
        ensures { (form : Form) (end : ℕ) → result ≡ (closing_item form end self.now).is_finding }
    {
        matches!(self, Closing::Silent(_, Some(_)))
    }
}

// Appends what a line at the end tells, in a form.
fn put_form<A: Allocator>(
    out: &mut Vec<u8, A>,
    form: Form,
    end: u64,
    closing: &Closing<'_>,
) -> Result<(), AllocError>
    ensures { AppendsText result out.old.items out.new.items (closing_item form end closing.now).text }
{
    match closing {
        Closing::Silent(key, since) => put_end_silent(out, form, key, end, *since),
        Closing::Frames(key, totals) => put_sender_total(out, form, key, *totals),
        Closing::Samples(key, totals) => put_stream_total(out, form, key, *totals),
        Closing::Counted(key, samples) => put_samples_total(out, form, key, *samples),
    }
}

// Appends it in a style: behind a dash in place of a date.
fn put_styled<A: Allocator>(
    out: &mut Vec<u8, A>,
    style: Style,
    end: u64,
    closing: &Closing<'_>,
) -> Result<(), AllocError>
    ensures text { AppendsText result out.old.items out.new.items (closing_in style (closing_item (form_of style) end closing.now)).text }
    ensures quiet { OnErr result ((closing_in style (closing_item (form_of style) end closing.now)).text ≡ [] → ⊥) }
{
    if closing.is_empty() {
        return Ok(());
    }
    match style {
        Style::Lines(form) => put_form(out, form, end, closing),
        Style::Dated => {
            out.extend_from_slice(b"- ")?;
            put_form(out, Form::Text, end, closing)
        }
    }
}

/// Appends the line at the end that stands at a position, and answers whether it is a finding; or nothing, where there is none.
pub fn put_closing<A: Allocator + Copy>(
    losses: &Losses<A>,
    style: Style,
    out: &mut Vec<u8, A>,
    at: u128,
) -> Result<Option<bool>, AllocError>
    ensures line { PutsLine (closings style (kept_by losses.now)) at result out.old.items out.new.items }
    ensures few { IfOk result (λ o. IfSome o (λ _. at < 2 ^ 66)) }
{
    let Some(closing) = losses.closing_at(at) else {
        return Ok(None);
    };
    let end = losses.greatest();
    put_styled(out, style, end, &closing)?;
    Ok(Some(closing.is_finding()))
}
