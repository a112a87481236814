//! What each subcommand that looks at frames one by one reads and writes: `show`, `check`, `rewrite`, `import`.

pub mod check;
pub mod import;
pub mod rewrite;
pub mod show;
