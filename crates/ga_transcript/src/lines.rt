//! Lines of a transcript behind `go`.
ghost use Rattle.std.specs.Prelude.{◌≡◌, ◌+◌, ◌≤◌, ◌<◌, ◌^◌, [], IfOk, MatchResult, false, length, map, true};
ghost use Rattle.ga_transcript.specs.Following as spec;
ghost use Rattle.ga_transcript.specs.Line.{as_reply};
ghost use Rattle.ga_transcript.specs.Reply as reply;
ghost use Rattle.ga_transcript.specs.inner.Next.{IsNext, lines_from};

use crate::line::{Line, line_of};
use crate::reply::{is_reply_line, lines_in};
use ga_debug::Pieces;

/// The lines of a transcript that are left, and the number of the line before them.
#[derive(Drop)]
pub(crate) struct LinesLeft<'a> {
    pub(crate) number: u64,
    pub(crate) lines: Pieces<'a>,
}

impl<'a> LinesLeft<'a> {
    /// The same lines, to go through them once more.
    pub(crate) fn again(&self) -> Self
        ensures { result ≡ self.now }
    {
        LinesLeft {
            number: self.number,
            lines: self.lines.again(),
        }
    }
}

/// The reply to a command isn't the expected one.
#[derive(Clone, Copy)]
pub(crate) struct OtherReply;

/// The number of the first line of a reply before all commands, if there is one.
pub(crate) fn early_reply(mut left: LinesLeft<'_>) -> Option<u64>
    requires { left.number + length left.lines < 2 ^ 64 }
    ensures { result ≡ spec.early_reply (left.entry.number + 1) left.entry.lines }
{
    while let Some(line) = left.lines.next() {
        left.number += 1;
        match line_of(line) {
            Line::Command(_) => return None,
            Line::Reply => return Some(left.number),
            Line::Note => {}
        }
    }
    None
}

/// The next command, or none, if the lines of a reply before it are those of the actual reply. The
/// lines then go on behind it.
pub(crate) fn command_behind<'a>(
    left: &mut LinesLeft<'a>,
    came: &str,
) -> Result<Option<&'a str>, OtherReply>
    requires { left.old.number + length left.old.lines < 2 ^ 64 }
    ensures same { MatchResult result
        (λ next. spec.same_lines (spec.wanted left.old.lines) (reply.reply_lines came.now) ≡ true)
        (λ _. spec.same_lines (spec.wanted left.old.lines) (reply.reply_lines came.now) ≡ false) }
    ensures next { IfOk result (λ next. IsNext next left.new left.old) }
    ensures fewer { IfOk result (λ next. lines_from next left.new ≤ length left.old.lines) }
    ensures room { left.new.number + length left.new.lines
        ≡ left.old.number + length left.old.lines }
{
    let mut reply = lines_in(came);
    let next = next_command(left, &mut reply)?;
    match reply.next() {
        None => Ok(next),
        Some(_) => Err(OtherReply),
    }
}

/// The next command, if each line of a reply before it is the next one of this reply.
fn next_command<'a>(
    left: &mut LinesLeft<'a>,
    reply: &mut Pieces<'_>,
) -> Result<Option<&'a str>, OtherReply>
    requires { left.old.number + length left.old.lines < 2 ^ 64 }
    ensures same { MatchResult result
        (λ next. spec.same_lines (spec.wanted left.old.lines) (map as_reply reply.old)
        ≡ spec.same_lines [] (map as_reply reply.new))
        (λ _. spec.same_lines (spec.wanted left.old.lines) (map as_reply reply.old)
        ≡ false) }
    ensures next { IfOk result (λ next. IsNext next left.new left.old) }
    ensures fewer { IfOk result (λ next. lines_from next left.new ≤ length left.old.lines) }
    ensures room { left.new.number + length left.new.lines
        ≡ left.old.number + length left.old.lines }
{
    while let Some(line) = left.lines.next() {
        left.number += 1;
        match line_of(line) {
            Line::Command(command) => return Ok(Some(command)),
            Line::Note => {}
            Line::Reply => {
                let Some(next) = reply.next() else {
                    return Err(OtherReply);
                };
                if !is_reply_line(line, next) {
                    return Err(OtherReply);
                }
            }
        }
    }
    Ok(None)
}
