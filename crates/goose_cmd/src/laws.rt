//! The laws about runs, about a publisher and a subscriber, and about what commands write.

pub use engine_core::laws::{
    captures_are_written_whole, inputs_are_written_whole, lists_are_written_whole,
    runs_write_whole_texts,
};
pub use joint_laws::exchange::{
    actions_carry_what_was_published, changes_are_acted_on_in_order,
    what_is_published_is_of_the_run, whole_runs_replay,
};
pub use joint_laws::texts::{
    blocks_texts_are_one, captures_are_replayed, changes_keep_turns, listed_blocks_replay,
    plain_texts_follow_one_another, publish_texts_are_one, published_lists_replay,
    published_texts_replay, replay_texts_are_one, replays_write_entries, scripts_are_in_order,
    watch_texts_are_one, written_lists_replay,
};
