//! The exit status of each ending.

use goose_cmd::{Ending, status};

#[test]
fn the_status_of_each_ending(rt: HostRuntime) {
    for (ending, wanted) in [
        (Ending::Done, 0),
        (Ending::Findings, 1),
        (Ending::InputFault, 3),
        (Ending::ReadFault, 4),
        (Ending::WriteFault, 4),
        (Ending::Memory, 5),
    ] {
        assert!(rt; status(&ending) == wanted, "{wanted}");
    }
}
