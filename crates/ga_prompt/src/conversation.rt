ghost use Rattle.std.specs.Prelude.{◌≡◌, ◌<◌, [], IfErr, IfOk, IfSome, Ok, false, true};
ghost use Rattle.ga_prompt.specs.Conversation.{DoesLine, Fails, WriteFails, last_of, live_of, prompts_of, reads_left};
ghost use Rattle.ga_prompt.specs.Talk.{HasTalked, WritesSo, end_text, prompt_text};

use crate::answer::{answer, is_quit};
use crate::reply::write_text;
use crate::saves::Saves;
use crate::typed::Typed;
use ga_input::{ServeError, Writes};
use ga_transcript::Live;
use std::alloc::{AllocError, Global};
use std::io::{Read, Write};

/// A conversation at the prompt: the session that one talks to, and what was typed last. It has the
/// memory that reading lines takes. (The prompt is this project's own: profile.)
#[derive(Drop)]
pub struct Conversation {
    live: Live,
    prompts: bool,
    typed: Typed,
    reply: String,
    writes: Writes,
}

impl Conversation {
    /// A conversation about a session, in which nothing was typed yet. With `prompts` a prompt is
    /// written before each line. Fails only when out of memory.
    pub fn new(alloc: Global, live: Live, prompts: bool) -> Result<Conversation, AllocError>
        ensures live { IfOk result (λ begun. live_of begun ≡ live) }
        ensures last { IfOk result (λ begun. last_of begun ≡ []) }
        ensures prompts { IfOk result (λ begun. prompts_of begun ≡ prompts) }
    {
        Ok(Conversation {
            live,
            prompts,
            typed: Typed::new(alloc)?,
            reply: String::new(alloc),
            writes: Writes::default(),
        })
    }

    /// Does one line: writes the prompt, reads the line up to its LF, does what it asks for, and
    /// writes the whole reply and flushes. Says whether another line may follow: none does behind
    /// `quit`, or at the end of the input.
    ///
    /// The reply to a command of transcripts is its reply there. If memory runs out, the reply is
    /// `refused Memory`, and the session is as it was. Fails with `Read` only after a read failed,
    /// and with `Write` only after a write or a flush failed. An interrupted one is made again. The
    /// reader is read byte by byte, so it should have a buffer.
    pub fn line<R: Read, W: Write, S: Saves>(
        &mut self,
        alloc: Global,
        saves: &mut S,
        reader: &mut R,
        writer: &mut W,
    ) -> Result<bool, ServeError>
        ensures done { DoesLine self.old self.new (R.remaining reader.old) (R.remaining reader.new)
            (W.contents writer.old) (W.contents writer.new)
            (S.saved saves.old) (S.saved saves.new) result }
        ensures prompts { prompts_of self.new ≡ prompts_of self.old }
        ensures fewer { result ≡ Ok true → reads_left self.new < reads_left self.old }
        ensures fault { IfErr result (Fails self.new) }
    {
        write_prompt(writer, self.prompts, &mut self.writes)?;
        let is_there = self.typed.next(reader)?;
        if !is_there {
            return match write_end(writer, self.prompts, &mut self.writes) {
                Ok(()) => Ok(false),
                Err(fault) => Err(fault),
            };
        }
        let typed = &self.typed;
        let line = typed.last.as_slice();
        match answer(
            alloc,
            &mut self.live,
            saves,
            &mut self.reply,
            line,
            writer,
            &mut self.writes,
        ) {
            Ok(()) => Ok(!is_quit(line)),
            Err(fault) => Err(fault),
        }
    }

    /// Talks: does line after line, until `quit` or the end of the input. Fails as
    /// [`Conversation::line`].
    pub fn talk<R: Read, W: Write, S: Saves>(
        &mut self,
        alloc: Global,
        saves: &mut S,
        reader: &mut R,
        writer: &mut W,
    ) -> Result<(), ServeError>
        ensures talked { IfSome (R.remaining reader.old) (λ input.
            HasTalked (prompts_of self.old) (live_of self.old) (last_of self.old) input
            (W.contents writer.old) (W.contents writer.new) result) }
        ensures fault { IfErr result (Fails self.new) }
    {
        loop {
            match self.line(alloc, saves, reader, writer) {
                Ok(true) => {}
                Ok(false) => return Ok(()),
                Err(fault) => return Err(fault),
            }
        }
    }
}

/// Writes what comes before each line.
fn write_prompt<W: Write>(
    writer: &mut W,
    prompts: bool,
    writes: &mut Writes,
) -> Result<(), ServeError>
    ensures written { WritesSo (W.contents writer.old) (W.contents writer.new)
        (prompt_text prompts) result }
    ensures fault { IfErr result (WriteFails writes.new) }
{
    write_text(writer, if prompts { "> " } else { "" }, writes)
}

/// Writes what comes behind the last line.
fn write_end<W: Write>(writer: &mut W, prompts: bool, writes: &mut Writes) -> Result<(), ServeError>
    ensures written { WritesSo (W.contents writer.old) (W.contents writer.new)
        (end_text prompts) result }
    ensures fault { IfErr result (WriteFails writes.new) }
{
    write_text(writer, if prompts { "\n" } else { "" }, writes)
}
