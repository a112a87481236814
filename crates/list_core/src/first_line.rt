//! What stands first in the octets that a reader of lines holds.
ghost use Rattle.std.specs.Prelude.{◌≡◌, ◌≢◌, ◌<◌, ◌≤◌, ◌⊎◌, length, take, IfNone, OnOk};
ghost use Rattle.list_core.specs.declared.device.InputEnd.{InputEnd};
ghost use Rattle.list_core.specs.Cuts.{HasNo};
ghost use Rattle.list_core.specs.computed.PrivateOctets.{IsFirstPlace};
ghost use Rattle.list_core.specs.Lines.{without_cr};
ghost use Rattle.list_core.specs.FirstLine.{IsFront};

use crate::device::InputEnd;
use crate::list_fault::ListCause;

/// The most octets of a line before its LF.
pub(crate) const LONGEST_LINE: usize = 4096;

/// The most lines of a list.
const MOST_LINES: u64 = 1_000_000;

/// How many octets a line has without the CR at its end.
pub(crate) fn size_without_cr(line: &[u8]) -> usize
    ensures size { result ≤ length line.now }
    ensures line { take result line.now ≡ without_cr line.now }
{
    match line {
        [front @ .., b'\r'] => front.len(),
        _ => line.len(),
    }
}

/// What stands first in the octets that are held, of which the first LF is known.
pub(crate) fn judge(
    held: &[u8],
    first: Option<usize>,
    taken: u64,
    ending: InputEnd,
) -> Result<Option<usize>, ListCause>
    requires first { IsFirstPlace 10 held.now first }
    requires whole { IfNone first ((4096 < length held.now) ⊎ (ending ≢ InputEnd.Open)) }
    ensures front { IsFront ending taken held.now result }
    ensures ok { OnOk result (IfNone first (ending ≡ InputEnd.End)) }
{
    match first {
        None => judge_rest(held, taken, ending),
        Some(size) => {
            if taken >= MOST_LINES {
                Err(ListCause::ListTooLong)
            } else if size > LONGEST_LINE {
                Err(ListCause::LineTooLong)
            } else {
                Ok(Some(size))
            }
        }
    }
}

/// The same where no LF is held.
fn judge_rest(held: &[u8], taken: u64, ending: InputEnd) -> Result<Option<usize>, ListCause>
    requires first { HasNo 10 held.now }
    requires whole { (4096 < length held.now) ⊎ (ending ≢ InputEnd.Open) }
    ensures front { IsFront ending taken held.now result }
    ensures ok { OnOk result (ending ≡ InputEnd.End) }
{
    let size = held.len();
    if size > 0 && taken >= MOST_LINES {
        return Err(ListCause::ListTooLong);
    }
    if size > LONGEST_LINE {
        return Err(ListCause::LineTooLong);
    }
    match ending {
        InputEnd::End if size == 0 => Ok(None),
        InputEnd::End => Ok(Some(size)),
        InputEnd::Failed => Err(ListCause::ReadFailed),
        InputEnd::Open => unreachable!(),
    }
}
