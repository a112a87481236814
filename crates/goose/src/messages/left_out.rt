//! What is said of a control block that a replay leaves out.

use std::{fmt, str};

/// The text of a control block that is no BLOCK: as all its texts are visible, one of them has a comma.
#[derive(Clone, Copy)]
pub struct LeftOut<'a>(pub &'a [u8]);

impl fmt::Display for LeftOut<'_> {
    fn fmt<W: fmt::Write>(&self, f: &mut fmt::Formatter<W>) -> fmt::Result {
        let LeftOut(text) = self;
        let text = str::from_utf8(text).unwrap_or("no text");
        write!(
            f,
            "left out: {text}: a text of it has a comma, so that no BLOCK can name it"
        )
    }
}
