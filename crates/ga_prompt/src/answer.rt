//! What the lines at the prompt do.
ghost use Rattle.std.specs.Prelude.{◌≡◌, ◌==◌, ◌+◌, ◌≤◌, ◌++◌, ◌∷◌, ℕ, List, [], IfErr, OnErr, OnOk, false, length, string_bytes};
ghost use Rattle.std.specs.List.{All};
ghost use Rattle.std.specs.String.{string_capacity};
ghost use Rattle.ga_prompt.specs.Conversation.{WriteFails};
ghost use Rattle.ga_prompt.specs.Request.{Save, request_in};
ghost use Rattle.ga_prompt.specs.Saving.{IsSaved, SavesNone, refused_text, saved_text};
ghost use Rattle.ga_prompt.specs.Talk.{IsReply, WritesSo, is_full, is_quit};
ghost use Rattle.ga_prompt.specs.inner.Request.{request};
ghost use Rattle.ga_prompt.specs.inner.Talk.{IsTold};

use crate::help::push_help;
use crate::nearest::hint_of;
use crate::reply::{write_reply, write_text, write_undone};
use crate::request::{Request, request_in};
use crate::saves::{SaveFault, Saves};
use ga_input::{ServeError, Writes};
use ga_transcript::{Live, TranscriptError};
use std::alloc::{AllocError, Global};
use std::io::Write;

/// The most bytes of a session, with its replies if it is saved, as of every input.
const SESSION_LIMIT: usize = 1_048_576;

/// Whether a line asks for the end.
pub(crate) fn is_quit(line: &[u8]) -> bool
    ensures { result ≡ is_quit (request_in line.now) }
{
    matches!(request_in(line), Request::Quit)
}

/// Does what a line asks for, and writes the reply.
pub(crate) fn answer<W: Write, S: Saves>(
    alloc: Global,
    live: &mut Live,
    saves: &mut S,
    reply: &mut String,
    line: &[u8],
    writer: &mut W,
    writes: &mut Writes,
) -> Result<(), ServeError>
    // a line ends before its LF
    requires { All (λ c. (c == 10) ≡ false) line.now }
    ensures answered { (text : List ℕ) × IsReply live.old (request_in line.now) live.new text
        × IsSaved live.old (request_in line.now) text (S.saved saves.old) (S.saved saves.new)
        × WritesSo (W.contents writer.old) (W.contents writer.new) text result }
    ensures fault { IfErr result (WriteFails writes.new) }
{
    match request_in(line) {
        Request::Nothing | Request::Quit => write_text(writer, "", writes),
        Request::Say(command) if is_full(live, command) => {
            write_text(writer, "refused TooLong\n", writes)
        }
        Request::Say(command) => match live.say(alloc, reply, command) {
            Ok(()) => write_reply(writer, reply.as_str(), writes),
            Err(AllocError) => write_text(writer, "refused Memory\n", writes),
        },
        Request::Back(count) => match live.back(alloc, u64::from(count)) {
            Ok(old) => write_undone(writer, old.as_str(), live.text(), writes),
            Err(AllocError) => write_text(writer, "refused Memory\n", writes),
        },
        request => match tell(alloc, live, saves, reply, request) {
            Ok(()) => write_text(writer, reply.as_str(), writes),
            Err(AllocError) => write_text(writer, "refused Memory\n", writes),
        },
    }
}

/// Whether a session with one more command would be too long.
fn is_full(live: &Live, command: &str) -> bool
    ensures { result ≡ is_full live.now command.now }
{
    let kept = live.text().len();
    kept.saturating_add(command.len()).saturating_add(3) > SESSION_LIMIT
}

/// Replaces a text by the reply to a request that leaves the session as it is.
fn tell<S: Saves>(
    alloc: Global,
    live: &Live,
    saves: &mut S,
    reply: &mut String,
    asked: Request<'_>,
) -> Result<(), AllocError>
    ensures told { OnOk result (IsTold live.now (request asked.entry) (string_bytes reply.new)) }
    ensures saved { OnOk result (IsSaved live.now (request asked.entry) (string_bytes reply.new)
        (S.saved saves.old) (S.saved saves.new)) }
    ensures none { OnErr result (SavesNone (S.saved saves.old) (S.saved saves.new)) }
{
    reply.clear();
    match asked {
        Request::Help(name) => push_help(reply, name),
        Request::Save { replaces, name } => save(alloc, live, saves, reply, name, replaces),
        Request::Unknown(line) => {
            let hint = hint_of(alloc, line)?;
            push_line(reply, "refused BadCommand", hint.as_str())
        }
        Request::Refused(refusal) => push_line(reply, "refused ", refusal.name()),
        Request::Nothing | Request::Quit | Request::Say(_) | Request::Back(_) => Ok(()),
    }
}

/// Saves a session, and adds the reply to an empty text.
fn save<S: Saves>(
    alloc: Global,
    live: &Live,
    saves: &mut S,
    reply: &mut String,
    name: &str,
    replaces: bool,
) -> Result<(), AllocError>
    requires { string_bytes reply.old ≡ [] }
    ensures told { OnOk result (IsTold live.now (Save replaces name.now) (string_bytes reply.new)) }
    ensures saved { OnOk result (IsSaved live.now (Save replaces name.now) (string_bytes reply.new)
        (S.saved saves.old) (S.saved saves.new)) }
    ensures none { OnErr result (SavesNone (S.saved saves.old) (S.saved saves.new)) }
{
    let text = match live.transcript(alloc) {
        Ok(text) => text,
        Err(TranscriptError::Memory) => return Err(AllocError),
        Err(_) => return push_refused(reply, "TooLong"),
    };
    if text.len() > SESSION_LIMIT {
        return push_refused(reply, "TooLong");
    }
    // Before the file is written, so that nothing is refused behind it.
    reply.reserve(name.len() + 7)?;
    match saves.save(name, text.as_str(), replaces) {
        Ok(()) => {
            push_saved(reply, name);
            Ok(())
        }
        Err(fault) => push_fault(alloc, reply, fault),
    }
}

/// Adds the reply to an empty text that has room for it.
fn push_saved(reply: &mut String, name: &str)
    requires empty { string_bytes reply.old ≡ [] }
    requires room { length name.now + 7 ≤ string_capacity reply.old }
    ensures { string_bytes reply.new ≡ saved_text name.now }
{
    reply.push_str("saved ").unwrap();
    reply.push_str(name).unwrap();
    reply.push('\n').unwrap();
}

/// Adds why a session wasn't saved to an empty text.
fn push_fault(alloc: Global, reply: &mut String, fault: SaveFault) -> Result<(), AllocError>
    requires { string_bytes reply.old ≡ [] }
    ensures { OnOk result ((why : List ℕ) × (string_bytes reply.new ≡ refused_text why)) }
{
    match fault {
        SaveFault::Exists => push_refused(reply, "Exists"),
        SaveFault::NotAFile => push_refused(reply, "NotAFile"),
        SaveFault::Write(error) => {
            let reason = format!(in alloc; "Write, {error}")?;
            push_refused(reply, reason.as_str())
        }
        SaveFault::Memory => Err(AllocError),
    }
}

/// Adds that a session wasn't saved, and why, to an empty text.
fn push_refused(reply: &mut String, why: &str) -> Result<(), AllocError>
    requires { string_bytes reply.old ≡ [] }
    ensures { OnOk result ((why : List ℕ) × (string_bytes reply.new ≡ refused_text why)) }
{
    push_line(reply, "refused ", why)
}

/// Adds a word and what is behind it, ended by LF.
fn push_line(text: &mut String, word: &str, behind: &str) -> Result<(), AllocError>
    ensures { OnOk result (string_bytes text.new
        ≡ string_bytes text.old ++ (word.now ++ (behind.now ++ 10 ∷ []))) }
{
    text.push_str(word)?;
    text.push_str(behind)?;
    text.push('\n')
}
