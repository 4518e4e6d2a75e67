//! What is written for a line.
ghost use Rattle.std.specs.Prelude.{◌≡◌, ◌++◌, ◌∷◌, [], ℕ, List, IfErr, drop, length, map};
ghost use Rattle.std.specs.Str.{chars, encode_utf8_all};
ghost use Rattle.ga_debug.specs.Pieces.{pieces};
ghost use Rattle.ga_messages.specs.Shown.{shown_char};
ghost use Rattle.ga_transcript.specs.Line.{as_reply};
ghost use Rattle.ga_transcript.specs.Reply.{reply_lines};
ghost use Rattle.ga_prompt.specs.Conversation.{WriteFails};
ghost use Rattle.ga_prompt.specs.Talk.{WritesSo, commands_in, ended, undone_line, undone_text};

use ga_debug::Pieces;
use ga_input::{ServeError, Writes, write_output};
use ga_messages::shown_char;
use ga_transcript::{is_read_as_reply, lines_in};
use std::io::Write;

/// Writes a text, all of it or a prefix, and counts its calls from 0 on.
pub(crate) fn write_text<W: Write>(
    writer: &mut W,
    text: &str,
    writes: &mut Writes,
) -> Result<(), ServeError>
    ensures written { WritesSo (W.contents writer.old) (W.contents writer.new) text.now result }
    ensures fault { IfErr result (WriteFails writes.new) }
{
    *writes = Writes::default();
    write_output(writer, text.as_bytes(), writes)
}

/// Writes two texts, one behind the other, or a prefix of both.
fn write_both<W: Write>(
    writer: &mut W,
    front: &str,
    behind: &str,
    writes: &mut Writes,
) -> Result<(), ServeError>
    ensures written { WritesSo (W.contents writer.old) (W.contents writer.new)
        (front.now ++ behind.now) result }
    ensures fault { IfErr result (WriteFails writes.new) }
{
    match write_text(writer, front, writes) {
        Ok(()) => write_text(writer, behind, writes),
        Err(fault) => Err(fault),
    }
}

/// Writes the lines of a reply as a transcript has them, each ended by LF, or a prefix of that. It
/// allocates nothing, since the command is done already.
pub(crate) fn write_reply<W: Write>(
    writer: &mut W,
    reply: &str,
    writes: &mut Writes,
) -> Result<(), ServeError>
    ensures written { WritesSo (W.contents writer.old) (W.contents writer.new)
        (ended (reply_lines reply.now)) result }
    ensures fault { IfErr result (WriteFails writes.new) }
{
    for line in lines_in(reply) {
        match write_line(writer, line, writes) {
            Ok(()) => {}
            Err(fault) => return Err(fault),
        }
    }
    Ok(())
}

/// Writes a line of a reply as a transcript has it, ended by LF, or a prefix of that.
fn write_line<W: Write>(writer: &mut W, line: &str, writes: &mut Writes) -> Result<(), ServeError>
    ensures written { WritesSo (W.contents writer.old) (W.contents writer.new)
        (as_reply line.now ++ 10 ∷ []) result }
    ensures fault { IfErr result (WriteFails writes.new) }
{
    if is_read_as_reply(line) {
        return write_both(writer, line, "\n", writes);
    }
    match write_both(writer, ". ", line, writes) {
        Ok(()) => write_text(writer, "\n", writes),
        Err(fault) => Err(fault),
    }
}

/// Writes which commands were undone, by the transcript before and after, or a prefix of that. It
/// allocates nothing, since they are undone already.
pub(crate) fn write_undone<W: Write>(
    writer: &mut W,
    old: &str,
    new: &str,
    writes: &mut Writes,
) -> Result<(), ServeError>
    ensures written { WritesSo (W.contents writer.old) (W.contents writer.new)
        (undone_text old.now new.now) result }
    ensures fault { IfErr result (WriteFails writes.new) }
{
    write_commands(writer, lines_behind(old, new), writes)
}

/// The lines that a text has behind as many as another has.
fn lines_behind<'a>(text: &'a str, other: &str) -> Pieces<'a>
    ensures { result ≡ drop (length (pieces 10 other.now)) (pieces 10 text.now) }
{
    let mut lines = Pieces::new(text, '\n');
    for _other in Pieces::new(other, '\n') {
        let _skipped = lines.next();
    }
    lines
}

/// Writes that the commands of lines were undone, or a prefix of that.
fn write_commands<W: Write>(
    writer: &mut W,
    lines: Pieces<'_>,
    writes: &mut Writes,
) -> Result<(), ServeError>
    ensures written { WritesSo (W.contents writer.old) (W.contents writer.new)
        (ended (map undone_line (commands_in lines.entry))) result }
    ensures fault { IfErr result (WriteFails writes.new) }
{
    for line in lines {
        match write_if_command(writer, line, writes) {
            Ok(()) => {}
            Err(fault) => return Err(fault),
        }
    }
    Ok(())
}

/// Writes that the command of a line was undone, if it has one, or a prefix of that.
fn write_if_command<W: Write>(
    writer: &mut W,
    line: &str,
    writes: &mut Writes,
) -> Result<(), ServeError>
    ensures written { WritesSo (W.contents writer.old) (W.contents writer.new)
        (ended (map undone_line (commands_in (line.now ∷ [])))) result }
    ensures fault { IfErr result (WriteFails writes.new) }
{
    match line.strip_prefix("> ") {
        Some(command) => write_command(writer, command, writes),
        None => write_text(writer, "", writes),
    }
}

/// Writes that a command was undone, or a prefix of that.
fn write_command<W: Write>(
    writer: &mut W,
    command: &str,
    writes: &mut Writes,
) -> Result<(), ServeError>
    ensures written { WritesSo (W.contents writer.old) (W.contents writer.new)
        (undone_line command.now ++ 10 ∷ []) result }
    ensures fault { IfErr result (WriteFails writes.new) }
{
    match write_text(writer, "undone ", writes) {
        Ok(()) => {}
        Err(fault) => return Err(fault),
    }
    match write_shown(writer, command, writes) {
        Ok(()) => write_text(writer, "\n", writes),
        Err(fault) => Err(fault),
    }
}

/// Writes a text, each character as it is shown, or a prefix of that.
fn write_shown<W: Write>(writer: &mut W, text: &str, writes: &mut Writes) -> Result<(), ServeError>
    ensures written { WritesSo (W.contents writer.old) (W.contents writer.new)
        (encode_utf8_all (map shown_char (chars text.now))) result }
    ensures fault { IfErr result (WriteFails writes.new) }
{
    for c in text.chars() {
        let mut room = [0; 4];
        match write_text(writer, shown_char(c).encode_utf8(&mut room), writes) {
            Ok(()) => {}
            Err(fault) => return Err(fault),
        }
    }
    Ok(())
}
