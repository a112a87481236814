//! What is told of the fault by which a task ended.
ghost use Rattle.std.specs.Prelude.{◌≡◌};
ghost use Rattle.task_engine.specs.InputText.{of_list};

use crate::advising::{Advice, advice_by_line};
use crate::stop::Stop;
use list_core::{EventLines, ItemFault, ItemReader, ListCause, Source, fault_of_list};

/// What is told of the fault by which a task ended.
#[derive(Drop)]
pub struct Told {
    /// The fault.
    pub stop: Stop,
    /// What to do about it, where what stands there tells.
    pub advice: Option<Advice>,
}

impl Told {
    /// What is told of a fault at which these octets stand.
    pub(crate) fn at(stop: Stop, octets: &[u8]) -> Told
        ensures { result.stop ≡ stop }
    {
        let advice = advice_by_line(&stop, octets);
        Told { stop, advice }
    }

    /// What is told of a fault of this line, of which the reader of the items may hold the octets.
    pub(crate) fn of_line<R: Source, G>(stop: Stop, line: u64, reader: &ItemReader<R, G>) -> Told
        ensures { result.stop ≡ stop }
    {
        Told::at(stop, reader.held_from(line).unwrap_or(b""))
    }

    /// What is told of the fault of a list.
    pub(crate) fn of_list<R: Source>(
        fault: &ItemFault<ListCause>,
        lines: &ItemReader<R, EventLines>,
    ) -> Told
        ensures { result.stop ≡ of_list fault.now }
    {
        let fault = fault_of_list(fault);
        Told::of_line(Stop::List(fault), fault.line, lines)
    }
}
