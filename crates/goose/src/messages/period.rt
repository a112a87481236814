//! Why a text says no period.

use std::fmt;

/// A text that says no period: `N`, or `ID=N`, divided at the last `=`, with N from 2 to 65,536.
#[derive(Clone, Copy)]
pub struct NoPeriod<'a>(pub &'a str);

impl fmt::Display for NoPeriod<'_> {
    fn fmt<W: fmt::Write>(&self, f: &mut fmt::Formatter<W>) -> fmt::Result {
        let NoPeriod(text) = self;
        write!(f, "invalid value '{text}' for '--period <[ID=]N>': ")?;
        let number = match text.rsplit_once('=') {
            Some((_, number)) => number,
            None => text,
        };
        match number.parse::<i64>() {
            Ok(number) => write!(f, "{number} is not in 2..=65536"),
            Err(error) => write!(f, "{error}"),
        }
    }
}
