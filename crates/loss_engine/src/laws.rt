//! Laws about what `losses` writes. The functions compute nothing.
ghost use Rattle.engine_core.specs.CaptureRun.{capture_input};
ghost use Rattle.engine_core.specs.MadeRun.{made};
ghost use Rattle.engine_core.specs.Run.{list_input};
ghost use Rattle.list_core.specs.declared.event.Event.{Event as SpecEvent};
ghost use Rattle.list_core.specs.declared.event_lines.EventLines.TheVariants.{First};
ghost use Rattle.list_core.specs.EventLine.{event_rules};
ghost use Rattle.loss_engine.specs.LossWants.{LossesAreTold};

use std::alloc::Allocator;

/// What a run leaves of a list or of a capture, with something made of each event, is written piece by piece: a piece for each
/// event, and behind them the lines at the end, as `AreLosses` says of all that the input says.
pub fn losses_are_told<A: Allocator>()
    ensures lists { (make : SpecEvent A → SpecEvent A) → LossesAreTold (made make (list_input event_rules First)) }
    ensures captures { (make : SpecEvent A → SpecEvent A) → LossesAreTold (made make capture_input) }
{}
