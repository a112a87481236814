//! What is said of the streams that were not judged.

use std::alloc::Global;
use std::fmt;
use task_engine::Unjudged;

/// Streams that were not judged, of which there is one at least.
#[derive(Drop)]
pub struct UnjudgedStreams<'a>(&'a Unjudged<Global>);

/// What there is to say of the streams that were not judged, if there was one.
pub fn unjudged_streams(unjudged: &Unjudged<Global>) -> Option<UnjudgedStreams<'_>> {
    if unjudged.count() == 0 {
        return None;
    }
    Some(UnjudgedStreams(unjudged))
}

impl fmt::Display for UnjudgedStreams<'_> {
    fn fmt<W: fmt::Write>(&self, f: &mut fmt::Formatter<W>) -> fmt::Result {
        let UnjudgedStreams(unjudged) = self;
        match unjudged.count() {
            1 => f.write_str("not judged: 1 stream has no period (")?,
            count => write!(f, "not judged: {count} streams have no period (")?,
        }
        let mut before = "";
        for at in 0..4 {
            if let Some(id) = unjudged.name(at) {
                write!(f, "{before}{}", str::from_utf8(id).unwrap_or("no text"))?;
                before = ", ";
            }
        }
        if unjudged.has_more() {
            write!(f, "{before}..")?;
        }
        f.write_str("): give --period N or --period ID=N")
    }
}
