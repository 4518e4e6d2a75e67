//! The replies to the commands of a transcript, as it has them.
ghost use Rattle.std.specs.Prelude.{◌≡◌, ◌++◌, OnOk, codes, string_bytes, if◌then◌else◌};
ghost use Rattle.ga_transcript.specs.Line.{as_reply};
ghost use Rattle.ga_transcript.specs.Reply.{lines_in};
ghost use Rattle.std.specs.Str.{bytes_eq};

use crate::line::{Line, line_of};
use ga_debug::Pieces;
use std::alloc::AllocError;

/// The lines of a reply. An empty one has none.
pub fn lines_in(reply: &str) -> Pieces<'_>
    ensures { result ≡ lines_in reply.now }
{
    let mut lines = Pieces::new(reply, '\n');
    if reply.is_empty() {
        let _empty = lines.next();
    }
    lines
}

/// Whether a transcript has a line of a reply as it is. A line that would be read as something else
/// is put behind `. `.
pub fn is_read_as_reply(line: &str) -> bool
    ensures quoted { as_reply line.now
        ≡ (if result then line.now else codes ". " ++ line.now) }
{
    matches!(line_of(line), Line::Reply)
}

/// Adds a line of a reply, as a transcript has it.
pub(crate) fn push_as_reply(text: &mut String, line: &str) -> Result<(), AllocError>
    ensures { OnOk result (string_bytes text.new ≡ string_bytes text.old ++ as_reply line.now) }
{
    if !is_read_as_reply(line) {
        text.push_str(". ")?;
    }
    text.push_str(line)
}

/// Whether a line of a transcript is this line of a reply.
pub(crate) fn is_reply_line(line: &str, reply: &str) -> bool
    ensures { result ≡ bytes_eq line.now (as_reply reply.now) }
{
    match (line_of(reply), line.strip_prefix(". ")) {
        (Line::Reply, _) => line == reply,
        (_, Some(quoted)) => quoted == reply,
        (_, None) => false,
    }
}
