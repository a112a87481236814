//! What is said of a control block of which no frame came.

use std::fmt;

/// A control block that a replay was given, and of which no frame came.
#[derive(Clone, Copy)]
pub struct Unheard<'a> {
    /// Its position among those that were given, from 0.
    pub position: usize,
    /// The text that says it.
    pub text: &'a str,
}

impl fmt::Display for Unheard<'_> {
    fn fmt<W: fmt::Write>(&self, f: &mut fmt::Formatter<W>) -> fmt::Result {
        let Unheard { position, text } = self;
        write!(
            f,
            "block {position} was never seen: no frame has the APPID and the gocbRef of {text}"
        )?;
        // References of GOOSE have $, which a shell takes for the beginning of a variable's name.
        if text.contains('$') {
            Ok(())
        } else {
            f.write_str(
                ". Is it in single quotes? Otherwise a shell takes words like $GO out of it",
            )
        }
    }
}
