//! The laws can be called.

use goose_cmd::laws;
use std::alloc::Global;

#[test]
fn laws_hold(_rt: HostRuntime) {
    laws::actions_carry_what_was_published::<Global, Global>();
    laws::changes_are_acted_on_in_order::<Global, Global>();
    laws::whole_runs_replay::<Global, Global>();
    laws::what_is_published_is_of_the_run::<Global, Global>();
}
