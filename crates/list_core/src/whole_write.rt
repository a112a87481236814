//! Writing all of some octets to a sink.
ghost use Rattle.std.specs.Prelude.{◌≡◌, false, MatchResult};
ghost use Rattle.std.specs.Result.{is_err};
ghost use Rattle.std.specs.Io.KnownBytes.{Appends};
ghost use Rattle.list_core.specs.Device.{AppendsPrefix};

use crate::device::Sink;
use thiserror::Error;

/// Why something was not written.
#[derive(Clone, Copy, Debug, PartialEq, Eq, Error)]
pub enum WriteFault {
    /// The event has no line: its moment is over 999,999,999,999,999,999 or its frame has 0 octets or
    /// over 2,000. Nothing was written.
    #[error("no line of a list can hold the event")]
    NotListable,
    /// The sink failed, after a prefix of the octets was written.
    #[error("writing failed")]
    WriteFailed,
}

/// Writes all octets, or answers `WriteFailed` alone, and then a prefix of them was written.
pub fn put_all<W: Sink>(writer: &mut W, octets: &[u8]) -> Result<(), WriteFault>
    requires { W.failed writer.old ≡ false }
    ensures written { MatchResult result
        (λ _. Appends (W.contents writer.old) (W.contents writer.new) octets.now)
        (λ e. (e ≡ WriteFault.WriteFailed) × AppendsPrefix (W.contents writer.old) (W.contents writer.new) octets.now) }
    ensures fault { W.failed writer.new ≡ is_err result }
{
    let mut at = 0;
    while at < octets.len() {
        match writer.write_some(&octets[at..]) {
            Ok(count) => at += count,
            Err(_) => return Err(WriteFault::WriteFailed),
        }
    }
    Ok(())
}
