//! The laws can be called.

use goose_cmd::laws;
use std::alloc::Global;

#[test]
fn laws_hold(_rt: HostRuntime) {
    laws::runs_write_whole_texts::<u8, u8, u8>();
    laws::plain_texts_follow_one_another::<u8, u8>();
    laws::scripts_are_in_order::<Global>();
    laws::written_lists_replay::<Global>();
    laws::replay_texts_are_one::<Global>();
    laws::changes_keep_turns::<Global>();
    laws::watch_texts_are_one::<Global>();
    laws::blocks_texts_are_one::<Global>();
    laws::replays_write_entries::<Global>();
    laws::listed_blocks_replay::<Global>();
    laws::publish_texts_are_one::<Global>();
    laws::published_lists_replay::<Global, Global>();
    laws::published_texts_replay::<Global, Global>();
}
