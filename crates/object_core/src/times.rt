//! A moment in UTC as fields of an object.
ghost use Rattle.std.specs.Prelude.{◌≡◌, ◌++◌, ◌∷◌, []};
ghost use Rattle.std.specs.List.{concat};
ghost use Rattle.text_core.specs.Pieces.{AppendsText};
ghost use Rattle.text_core.specs.ValueText.{time_text};
ghost use Rattle.object_core.specs.Objects.{date_value, in_quotes};
ghost use Rattle.object_core.specs.Times.{moment_of, quality_value};

use crate::fields::{put_field_boolean, put_field_date};
use mms_data::UtcTime;
use std::alloc::{AllocError, Allocator};
use text_core::value::{put_accuracy, put_utc};

/// The microseconds from 1970 to a moment; what is less than one is cut off.
pub fn microseconds(time: UtcTime) -> u64
    ensures { result ≡ moment_of time }
{
    time.seconds as u64 * 1_000_000 + time.fraction as u64 * 1_000_000 / (1 << 24)
}

/// Appends the flags and the accuracy of a quality octet.
pub fn put_quality<A: Allocator>(out: &mut Vec<u8, A>, quality: u8) -> Result<(), AllocError>
    ensures { AppendsText result out.old.items out.new.items (quality_value quality) }
{
    put_field_boolean(out, b"{\"leapSecondsKnown\":", quality / 0x80 % 2 == 1)?;
    put_field_boolean(out, b",\"clockFailure\":", quality / 0x40 % 2 == 1)?;
    put_field_boolean(out, b",\"clockNotSynchronized\":", quality / 0x20 % 2 == 1)?;
    out.extend_from_slice(b",\"timeAccuracy\":")?;
    put_accuracy(out, quality)?;
    out.push(b'}')?;
    Ok(())
}

/// Appends the octets, the date and the quality of a moment, each behind its name.
pub fn put_time_fields<A: Allocator>(
    out: &mut Vec<u8, A>,
    octets: &[u8],
    date: &[u8],
    quality: &[u8],
    time: UtcTime,
) -> Result<(), AllocError>
    ensures { AppendsText result out.old.items out.new.items (concat ((octets.now ++ in_quotes (time_text time)) ∷ (date.now ++ date_value (moment_of time)) ∷ (quality.now ++ quality_value time.quality) ∷ [])) }
{
    out.extend_from_slice(octets)?;
    out.push(b'"')?;
    put_utc(out, time)?;
    out.push(b'"')?;
    put_field_date(out, date, microseconds(time))?;
    out.extend_from_slice(quality)?;
    put_quality(out, time.quality)
}
