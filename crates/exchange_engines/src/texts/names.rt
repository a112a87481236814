//! The names of the reasons of a subscriber and of the causes of a script, as they are written.
ghost use Rattle.std.specs.Prelude.{◌≡◌};
ghost use Rattle.exchange_engines.specs.ExchangeNames.{name_of_reason, name_of_script_cause};

use script_core::ScriptCause;
use subscribe_core::Reason;

/// The name of the reason for which a frame of a block is refused.
pub fn reason_name(reason: Reason) -> &'static [u8]
    ensures { result.now ≡ name_of_reason reason }
{
    match reason {
        Reason::DatSet => b"DatSet",
        Reason::GoId => b"GoId",
        Reason::ConfRev => b"ConfRev",
        Reason::Commissioning => b"Commissioning",
        Reason::Simulated => b"Simulated",
        Reason::Entries => b"Entries",
        Reason::StateZero => b"StateZero",
        Reason::LiveZero => b"LiveZero",
    }
}

/// The name of the cause for which a line of a script is refused.
pub fn script_cause_name(cause: ScriptCause) -> &'static [u8]
    ensures { result.now ≡ name_of_script_cause cause }
{
    match cause {
        ScriptCause::ScriptForm => b"ScriptForm",
        ScriptCause::FirstState => b"FirstState",
        ScriptCause::StepTimes => b"StepTimes",
        ScriptCause::StepCount => b"StepCount",
        ScriptCause::Moment => b"Moment",
        ScriptCause::Hex => b"Hex",
        ScriptCause::Members(_) => b"Members",
        ScriptCause::EntriesDiffer => b"EntriesDiffer",
        ScriptCause::NotSpellable => b"NotSpellable",
        ScriptCause::WouldNotFit => b"WouldNotFit",
    }
}
