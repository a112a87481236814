//! The rules of a script: the unit of its moments, which the first line settles, and which lines may stand where.
ghost use Rattle.script_core.specs.Script.{script_rules};

use crate::script::{ScriptCause, ScriptItem, ScriptLines, ScriptPart};
use crate::script_line::line_in;
use list_core::{LineRules, MomentUnit, ReadError};
use std::alloc::Allocator;

impl<A: Allocator + Copy> LineRules<A> for ScriptLines {
    type Item = ScriptItem<A>;

    type Cause = ScriptCause;

    ghost rules = { script_rules };

    fn item_in(
        &mut self,
        alloc: A,
        _spare: &mut Option<ScriptItem<A>>,
        line: &[u8],
    ) -> Result<Option<ScriptItem<A>>, ReadError<ScriptCause>> {
        let (unit, part) = match *self {
            ScriptLines::After(unit, part) => (unit, part),
            ScriptLines::First => match line {
                [b'V', b'2'] => {
                    *self = ScriptLines::After(MomentUnit::Microseconds, ScriptPart::Control);
                    return Ok(None);
                }
                _ => (MomentUnit::Milliseconds, ScriptPart::Control),
            },
        };
        match line_in(alloc, unit, part, line) {
            Ok((item, next)) => {
                *self = ScriptLines::After(unit, next);
                Ok(item)
            }
            Err(error) => Err(error),
        }
    }

    fn lacks(&self) -> Option<ScriptCause> {
        match *self {
            ScriptLines::First => Some(ScriptCause::ScriptForm),
            ScriptLines::After(_, ScriptPart::Control) => Some(ScriptCause::ScriptForm),
            ScriptLines::After(_, ScriptPart::Steps(0)) => Some(ScriptCause::StepCount),
            ScriptLines::After(_, ScriptPart::Steps(_)) => None,
            ScriptLines::After(_, ScriptPart::Calls) => None,
        }
    }
}
