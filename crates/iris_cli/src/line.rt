//! The lines of a source. A line ends in an LF.

ghost use Rattle.std.specs.Prelude.{◌<◌, ◌^◌};
ghost use Rattle.iris_base.specs.Outside.{HasCause};
ghost use Rattle.iris_cli.specs.Lines.{TakesLine};

use crate::source::{LinePart, Source};
use iris_tree::Fault;

/// What the next line of a source is.
#[derive(Clone, Copy, Debug, PartialEq, Eq)]
pub(crate) enum NextLine {
    /// A line, without its LF.
    Whole,
    /// The text ended where a line would begin.
    End,
    /// The text ended in a line without LF.
    Cut,
    /// One byte more than the limit was taken.
    Long,
}

/// Takes the next line, of at most `limit` bytes without its LF, into `line`, whose bytes of before
/// are dropped. Nothing behind its LF is taken, and of a longer line `limit + 1` bytes. Where the
/// source failed, `line` has what was taken.
pub(crate) fn take_line<S: Source>(
    source: &mut S,
    line: &mut Vec<u8>,
    limit: usize,
) -> Result<NextLine, Fault>
    requires { limit < 2 ^ 32 }
    ensures took { TakesLine limit (S.left source.old) (S.left source.new) line.new.items result }
    ensures cause { HasCause Fault.Failed (S.faults source.old) (S.faults source.new) result }
{
    line.clear();
    'parts: while line.len() <= limit {
        match source.take_until_lf(line, limit + 1 - line.len())? {
            LinePart::More => {}
            LinePart::Last => return Ok(NextLine::Whole),
            LinePart::End if line.is_empty() => return Ok(NextLine::End),
            LinePart::End => return Ok(NextLine::Cut),
        }
    }
    Ok(NextLine::Long)
}
