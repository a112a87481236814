//! Tables of retransmission.

ghost use Rattle.std.specs.Prelude.{◌≡◌, ◌<◌, ◌↔◌, IfErr, IfNone, IfOk, IfSome, IsTrue, OnOk, length, ℕ};
ghost use Rattle.publish_core.specs.Table.{AreSteps, IsFirstBadStep, IsGood, IsTableFault, step_at};

use crate::fault::PublishFault;
use arrayvec::ArrayVec;
use std::marker::Model;

/// The most steps of a table.
pub const MOST_STEPS: usize = 16;

/// One step of retransmission.
#[derive(Clone, Copy, PartialEq, Eq, Debug, Default)]
pub struct Step {
    /// How long is waited behind a frame of this step, in milliseconds, at least 1.
    pub wait_ms: u32,
    /// How long the frame lives (timeAllowedtoLive), in milliseconds, longer than the wait.
    pub live_ms: u32,
}

/// The steps of retransmission, 1 to 16 of them. Frame k of a state has step k, and from the last step on all frames have
/// the last. A contract sees the list of the steps.
#[derive(Drop)]
pub struct Table {
    steps: ArrayVec<Step, MOST_STEPS>,
}

impl Model for Table {
    ghost use Rattle.std.specs.Prelude.{List};
    ghost use Rattle.publish_core.specs.declared.table.Step.{Step};
    ghost use Rattle.publish_core.specs.Table.{AreSteps};

    ghost Value = { List Step };

    ghost view = { λ t. t.steps.items };

    ghost invariant = { λ t. AreSteps t.steps.items };
}

// Whether the step waits, and its frame lives longer than that.
fn is_good(step: Step) -> bool
    ensures { IsTrue result ↔ IsGood step }
{
    0 < step.wait_ms && step.wait_ms < step.live_ms
}

// The position of the first step that is not good.
fn first_bad_step(steps: &[Step]) -> Option<usize>
    ensures bad { IfSome result (λ i. IsFirstBadStep steps.now i) }
    ensures good { IfNone result ((i : ℕ) → i < length steps.now → IsGood (step_at steps.now i)) }
{
    for i in 0..steps.len() {
        if !is_good(steps[i]) {
            return Some(i);
        }
    }
    None
}

impl Table {
    /// A table of these steps.
    ///
    /// # Errors
    ///
    /// `StepCount` where there is no step or more than 16; else `StepTimes` with the position of the first step that
    /// waits for nothing or does not live longer than it waits.
    pub fn new(steps: &[Step]) -> Result<Table, PublishFault>
        ensures table { IfOk result (λ t. t ≡ steps.now) }
        ensures good { OnOk result (AreSteps steps.now) }
        ensures fault { IfErr result (λ e. IsTableFault steps.now e) }
    {
        if steps.is_empty() || MOST_STEPS < steps.len() {
            return Err(PublishFault::StepCount);
        }
        if let Some(i) = first_bad_step(steps) {
            return Err(PublishFault::StepTimes(i));
        }
        let mut items = ArrayVec::new();
        let _fits = items.try_extend_from_slice(steps);
        Ok(Table { steps: items })
    }

    // The step at a position.
    pub(crate) fn at(&self, position: usize) -> Step
        requires { position < length self.now }
        ensures { result ≡ step_at self.now position }
    {
        self.steps[position]
    }

    // How many steps there are.
    pub(crate) fn len(&self) -> usize
        ensures size { result ≡ length self.now }
        ensures steps { AreSteps self.now }
    {
        self.steps.len()
    }
}
