//! What is missing of what control blocks of GOOSE (IEC 61850-8-1) and streams of Sampled Values (IEC 61850-9-2) sent, by what
//! came of each.
#![tactic(auto)]

mod advance;
mod finding;
mod findings;
pub mod laws;
mod missing;
mod periods;
mod sender;
mod sender_tally;
mod stream;
mod stream_tally;

pub use crate::advance::{Advance, advance_between};
pub use crate::finding::Finding;
pub use crate::findings::{findings_of_frame, findings_of_sample, is_frame_quiet, is_sample_quiet};
pub use crate::missing::{Missing, Span, find_missing};
pub use crate::periods::{StreamPeriod, period_of};
pub use crate::sender::{Arrival, Pair, Sender, Standing, Told};
pub use crate::sender_tally::{SenderTally, SenderTotals};
pub use crate::stream::{Came, Newest, Sample, Stream};
pub use crate::stream_tally::{StreamTally, StreamTotals};
