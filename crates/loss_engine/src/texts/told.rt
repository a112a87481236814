//! What is told of a frame and of a sample, as lines or as objects, one after another.
ghost use Rattle.std.specs.Prelude.{◌≡◌, ◌++◌, None, [], IfOk, IsOk, option_to_list};
ghost use Rattle.std.specs.List.{flat_map};
ghost use Rattle.text_core.specs.Pieces.{AppendsText};
ghost use Rattle.loss_core.specs.Findings.{count_told, frame_findings, has_loss, synch_told};
ghost use Rattle.loss_core.specs.Periods.{ArePeriods, period_of as period_is};
ghost use Rattle.loss_core.specs.computed.Given.{given};
ghost use Rattle.loss_engine.specs.KeySaid.{key_said, stream_said};
ghost use Rattle.loss_engine.specs.LossText.{back_lines, told_line};

use crate::key::{Key, StreamKey};
use crate::texts::finding::put_finding;
use crate::texts::time_back::put_time_back;
use loss_core::{
    Arrival, Came, Finding, StreamPeriod, Told, findings_of_frame, findings_of_sample,
    is_frame_quiet, is_sample_quiet, period_of,
};
use object_core::Heading;
use std::alloc::{AllocError, Allocator};

// Appends a finding if there is one, and tells whether that is a loss.
fn put_given<A: Allocator>(
    out: &mut Vec<u8, A>,
    heading: Heading,
    key: &Key<'_>,
    finding: Option<Finding>,
) -> Result<bool, AllocError>
    ensures text { AppendsText result out.old.items out.new.items (flat_map (told_line heading.form heading.number heading.moment (key_said key.now)) (option_to_list finding)) }
    ensures found { IfOk result (λ found. found ≡ has_loss (option_to_list finding)) }
    ensures quiet { option_to_list finding ≡ [] → IsOk result }
{
    match finding {
        None => Ok(false),
        Some(finding) => {
            put_finding(out, heading, key, finding)?;
            Ok(finding.is_loss())
        }
    }
}

// Appends those findings that are there, and tells whether one of them is a loss. A call of its own, since nearly every frame
// and every sample tells nothing.
#[inline(never)]
fn put_findings<A: Allocator>(
    out: &mut Vec<u8, A>,
    heading: Heading,
    key: &Key<'_>,
    findings: &[Option<Finding>],
) -> Result<bool, AllocError>
    ensures text { AppendsText result out.old.items out.new.items (flat_map (told_line heading.form heading.number heading.moment (key_said key.now)) (given findings.now)) }
    ensures found { IfOk result (λ found. found ≡ has_loss (given findings.now)) }
    ensures quiet { given findings.now ≡ [] → IsOk result }
{
    let mut found = false;
    for finding in findings {
        let is_found = put_given(out, heading, key, *finding)?;
        found = found || is_found;
    }
    Ok(found)
}

/// Appends that time goes back at an event by so much, where it does.
#[inline(always)]
pub fn put_back<A: Allocator>(
    out: &mut Vec<u8, A>,
    heading: Heading,
    back: Option<u64>,
) -> Result<(), AllocError>
    ensures text { AppendsText result out.old.items out.new.items (back_lines heading.form heading.number heading.moment back) }
    ensures quiet { back ≡ None → IsOk result }
{
    match back {
        None => Ok(()),
        Some(by) => put_time_back(out, heading, by),
    }
}

/// Appends what is told of a frame of a sender, and answers whether that is a loss.
#[inline(always)]
pub fn put_frame<A: Allocator>(
    out: &mut Vec<u8, A>,
    heading: Heading,
    key: &Key<'_>,
    frame: Arrival,
    told: Told,
) -> Result<bool, AllocError>
    ensures text { AppendsText result out.old.items out.new.items (flat_map (told_line heading.form heading.number heading.moment (key_said key.now)) (frame_findings frame told)) }
    ensures found { IfOk result (λ found. found ≡ has_loss (frame_findings frame told)) }
    ensures quiet { frame_findings frame told ≡ [] → IsOk result }
{
    if is_frame_quiet(frame, told) {
        return Ok(false);
    }
    put_findings(out, heading, key, &findings_of_frame(frame, told))
}

/// Appends what is told of a sample of a stream, and answers whether that is a loss: by what its count is, where the stream has a
/// period among those that are given, and by the smpSynch before it and its own.
#[inline]
pub fn put_sample<A: Allocator>(
    out: &mut Vec<u8, A>,
    heading: &Heading,
    key: StreamKey<'_>,
    periods: &[StreamPeriod<A>],
    count: u16,
    came: Option<Came>,
    before: Option<u8>,
    synch: u8,
) -> Result<bool, AllocError>
    requires { ArePeriods periods.now }
    ensures text { AppendsText result out.old.items out.new.items (flat_map (told_line heading.now.form heading.now.number heading.now.moment (stream_said key.entry))
        (count_told (period_is periods.now key.entry.id.now) count came ++ synch_told before synch)) }
    ensures found { IfOk result (λ found. found ≡ has_loss (count_told (period_is periods.now key.entry.id.now) count came ++ synch_told before synch)) }
    ensures quiet { count_told (period_is periods.now key.entry.id.now) count came ++ synch_told before synch ≡ [] → IsOk result }
{
    if is_sample_quiet(count, came, before, synch) {
        return Ok(false);
    }
    let period = period_of(periods, key.id);
    put_findings(
        out,
        *heading,
        &Key::Stream(key),
        &findings_of_sample(period, count, came, before, synch),
    )
}
