//! Lines behind the date of their event.
ghost use Rattle.std.specs.Prelude.{◌≡◌, ◌++◌, [], IsOk, codes, option_map};
ghost use Rattle.date_core.specs.DateText.{date_text};
ghost use Rattle.list_core.specs.Cuts.{cut_at};
ghost use Rattle.text_core.specs.Pieces.{AppendsText};
ghost use Rattle.engine_core.specs.Dated.{dated, lines_as};

use date_core::date_of;
use list_core::cut_first;
use std::alloc::{AllocError, Allocator};

/// How many octets a date has, and the space behind it.
const DATE: usize = 28;

// Appends each line of a text behind a mark. Inlined, so that the compiler knows the size of the mark.
#[inline(always)]
fn put_marked<A: Allocator>(
    out: &mut Vec<u8, A>,
    mark: &[u8],
    text: &[u8],
) -> Result<(), AllocError>
    ensures { AppendsText result out.old.items out.new.items (lines_as (λ line. mark.now ++ line) (cut_at 10 text.now)) }
{
    let mut others = text;
    'lines: while !others.is_empty() {
        let (line, rest) = cut_first(others, b'\n');
        let Some(rest) = rest else {
            return out.extend_from_slice(line);
        };
        out.extend_from_slice(mark)?;
        out.extend_from_slice(line)?;
        out.push(b'\n')?;
        others = rest;
    }
    Ok(())
}

// The date of a moment and a space, where it has a date.
fn mark_of(moment: u64) -> Option<[u8; DATE]>
    ensures { result ≡ option_map (λ date. date ++ codes " ") (date_text moment) }
{
    let Some(date) = date_of(moment) else {
        return None;
    };
    let mut mark = [b' '; DATE];
    mark[..DATE - 1].copy_from_slice(&date);
    Some(mark)
}

/// Appends a text, each line of it behind the date of a moment and a space. Memory is wanted for a text alone.
pub fn put_dated<A: Allocator>(
    out: &mut Vec<u8, A>,
    moment: u64,
    text: &[u8],
) -> Result<(), AllocError>
    ensures text { AppendsText result out.old.items out.new.items (dated moment text.now) }
    ensures quiet { text.now ≡ [] → IsOk result }
{
    if text.is_empty() {
        return Ok(());
    }
    match mark_of(moment) {
        Some(mark) => put_marked(out, &mark, text),
        None => put_marked(out, b"- ", text),
    }
}
