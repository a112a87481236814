//! What is told of a frame and of a sample.

ghost use Rattle.std.specs.Prelude.{◌≡◌, ◌<◌, ◌≤◌, ◌++◌, ℕ, Option, Some, [], IsTrue, if◌then◌else◌, option_to_list};
ghost use Rattle.loss_core.specs.declared.finding.Finding.TheVariants.{Late, Restarted};
ghost use Rattle.loss_core.specs.Findings.{came_told, count_told, first_missing as first_is, frame_findings, frames_told, missing_told, silence as silence_is, standing_told, states_told, synch_told};
ghost use Rattle.loss_core.specs.Sender.{was_silent};
ghost use Rattle.loss_core.specs.computed.Given.{given};

use crate::finding::Finding;
use crate::missing::{Missing, Span, find_missing};
use crate::sender::{Arrival, Pair, Standing, Told};
use crate::stream::Came;

// That a lifetime was over up to a moment.
fn silence(since: Option<u64>, moment: u64) -> Option<Finding>
    ensures { option_to_list result ≡ silence_is since moment }
{
    match since {
        None => None,
        Some(since) => Some(Finding::Silent(since, moment.saturating_sub(since))),
    }
}

// That no frame came of states.
fn states_finding(missing: Option<Span>) -> Option<Finding>
    ensures { option_to_list result ≡ states_told missing }
{
    match missing {
        None => None,
        Some(span) => Some(Finding::StatesMissing(span)),
    }
}

// That frames are missing of a state.
fn frames_finding(state: u32, missing: Option<Span>) -> Option<Finding>
    ensures { option_to_list result ≡ frames_told state missing }
{
    match missing {
        None => None,
        Some(span) => Some(Finding::FramesMissing(state, span)),
    }
}

// What is missing, where the frame is of this state.
fn missing_findings(state: u32, missing: Missing) -> [Option<Finding>; 2]
    ensures { given result ≡ missing_told state missing }
{
    [
        states_finding(missing.states),
        frames_finding(state, missing.frames),
    ]
}

// That a frame is below the newest pair: late, or that of a restart where the lifetime was over.
fn below(is_silent: bool, pair: Pair) -> Finding
    ensures { result ≡ (if is_silent then Restarted pair else Late pair) }
{
    if is_silent {
        Finding::Restarted(pair)
    } else {
        Finding::Late(pair)
    }
}

// What a frame's pair tells.
fn standing_findings(frame: Arrival, told: Told) -> [Option<Finding>; 2]
    ensures { given result ≡ standing_told (was_silent told) frame told.standing }
{
    match told.standing {
        Standing::First => [None, None],
        Standing::Newer(newest) => {
            missing_findings(frame.pair.state, find_missing(newest, frame.pair))
        }
        Standing::Same => [None, None],
        Standing::Below => [Some(below(told.silent_since.is_some(), frame.pair)), None],
    }
}

/// What a frame tells: at most a silence, and two findings of its pair.
pub fn findings_of_frame(frame: Arrival, told: Told) -> [Option<Finding>; 3]
    ensures { given result ≡ frame_findings frame told }
{
    let [first, second] = standing_findings(frame, told);
    [silence(told.silent_since, frame.moment), first, second]
}

// Whether nothing is missing between two pairs.
#[inline(always)]
fn is_whole(state: u32, missing: Missing) -> bool
    ensures { IsTrue result → missing_told state missing ≡ [] }
{
    missing.states.is_none() && missing.frames.is_none()
}

/// Whether a frame tells nothing, as nearly every one. Where it does not say so, `findings_of_frame` says what there is.
#[inline(always)]
pub fn is_frame_quiet(frame: Arrival, told: Told) -> bool
    ensures { IsTrue result → frame_findings frame told ≡ [] }
{
    if told.silent_since.is_some() {
        return false;
    }
    match told.standing {
        Standing::First => true,
        Standing::Newer(newest) => { is_whole(frame.pair.state, find_missing(newest, frame.pair)) }
        Standing::Same => true,
        Standing::Below => false,
    }
}

// The count of the first of so many samples that are missing before one with this count.
fn first_missing(period: u32, count: u16, missing: u64) -> u16
    requires some { 0 < period }
    requires most { period ≤ 65536 }
    ensures { result ≡ first_is period count missing }
{
    let period = u64::from(period);
    ((u64::from(count) + (period - missing % period)) % period) as u16
}

// What a sample's count tells.
fn came_finding(period: u32, count: u16, came: Came) -> Option<Finding>
    requires some { 0 < period }
    requires most { period ≤ 65536 }
    ensures { option_to_list result ≡ came_told period count came }
{
    match came {
        Came::First => None,
        Came::Next => None,
        Came::BeforeFirst => None,
        Came::Missing(missing) => Some(Finding::SamplesMissing(
            first_missing(period, count, missing),
            missing,
        )),
        Came::Repeated => Some(Finding::SampleRepeated(count)),
        Came::Late => Some(Finding::SampleLate(count)),
        Came::OutOfRange => Some(Finding::OutOfRange(count)),
    }
}

// What a sample's count tells, where a period is given, by which it was judged.
fn count_finding(period: Option<u32>, count: u16, came: Option<Came>) -> Option<Finding>
    requires { (n : ℕ) → period ≡ Some n → (0 < n) × (n ≤ 65536) }
    ensures { option_to_list result ≡ count_told period count came }
{
    match period {
        None => None,
        Some(period) => match came {
            None => None,
            Some(came) => came_finding(period, count, came),
        },
    }
}

// What its smpSynch tells.
fn synch_finding(before: Option<u8>, synch: u8) -> Option<Finding>
    ensures { option_to_list result ≡ synch_told before synch }
{
    match before {
        None => None,
        Some(before) => {
            if before == synch {
                None
            } else {
                Some(Finding::Synch(before, synch))
            }
        }
    }
}

/// What a sample of a stream tells: by what its count is, where it has a period of so many samples a second, 1 to 65,536, and by
/// the smpSynch before it and its own.
pub fn findings_of_sample(
    period: Option<u32>,
    count: u16,
    came: Option<Came>,
    before: Option<u8>,
    synch: u8,
) -> [Option<Finding>; 2]
    requires { (n : ℕ) → period ≡ Some n → (0 < n) × (n ≤ 65536) }
    ensures { given result ≡ count_told period count came ++ synch_told before synch }
{
    [
        count_finding(period, count, came),
        synch_finding(before, synch),
    ]
}

// Whether what a sample's count is tells nothing, as nearly every one.
#[inline(always)]
fn is_came_quiet(count: u16, came: Came) -> bool
    ensures { IsTrue result → (period : ℕ) → came_told period count came ≡ [] }
{
    match came {
        Came::First => true,
        Came::Next => true,
        Came::BeforeFirst => true,
        Came::Missing(_) | Came::Repeated | Came::Late | Came::OutOfRange => false,
    }
}

// Whether a sample's count tells nothing, whatever its period is.
#[inline(always)]
fn is_count_quiet(count: u16, came: Option<Came>) -> bool
    ensures { IsTrue result → (period : Option ℕ) → count_told period count came ≡ [] }
{
    match came {
        None => true,
        Some(came) => is_came_quiet(count, came),
    }
}

// Whether a sample's smpSynch tells nothing.
#[inline(always)]
fn is_synch_quiet(before: Option<u8>, synch: u8) -> bool
    ensures { IsTrue result → synch_told before synch ≡ [] }
{
    match before {
        None => true,
        Some(before) => before == synch,
    }
}

/// Whether a sample tells nothing, as nearly every one, whatever its period is. Where it does not say so, `findings_of_sample` says what there is.
#[inline(always)]
pub fn is_sample_quiet(count: u16, came: Option<Came>, before: Option<u8>, synch: u8) -> bool
    ensures { IsTrue result → (period : Option ℕ) → count_told period count came ++ synch_told before synch ≡ [] }
{
    is_count_quiet(count, came) && is_synch_quiet(before, synch)
}
