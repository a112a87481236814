//! The watch, over a period.

use std::test::Fail;
use subscribe_core::{Seen, Watch};

#[test]
fn counts_of_a_period(rt: HostRuntime) -> Result<(), Fail> {
    let mut watch = Watch::new(4000)?;
    for (count, want) in [
        (3998, Seen::First),
        (3999, Seen::Next),
        (0, Seen::Next),
        (2, Seen::Skipped(1)),
        (1, Seen::Late),
        (2, Seen::Same),
        (4000, Seen::OutOfRange),
        (2002, Seen::Late),
        (2001, Seen::Skipped(1998)),
    ] {
        assert!(rt; watch.see(count) == want, "at {count}");
    }
    Ok(())
}
