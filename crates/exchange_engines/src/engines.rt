//! What each subcommand that looks at the order of frames reads and writes: `publish`, `replay`, `watch`.

pub mod publish;
pub mod replay;
pub mod watch;
