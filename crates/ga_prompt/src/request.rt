//! What a line at the prompt asks for.
ghost use Rattle.std.specs.Prelude.{◌≡◌, ℕ, List, if◌then◌else◌, option_map};
ghost use Rattle.std.specs.Str.{is_utf8};
ghost use Rattle.ga_prompt.specs.declared.refusal.Refusal.TheVariants.{BadText};
ghost use Rattle.ga_prompt.specs.Request.{Refused, behind_word, command_request, first_word, named_file, own_request, request_in, text_request};
ghost use Rattle.ga_prompt.specs.inner.Request.{IsSaidWhole, request};

use crate::own::Own;
use crate::refusal::Refusal;
use ga_debug::{count_of, names_command};
use std::str;

/// The most bytes of a line.
pub(crate) const LINE_LIMIT: usize = 65_536;

/// What a line asks for.
#[derive(Clone, Copy)]
pub(crate) enum Request<'a> {
    /// Nothing: it is empty.
    Nothing,
    /// That a command of transcripts is done.
    Say(&'a str),
    /// Help on this command, or on all if it is empty.
    Help(&'a str),
    /// That the last commands are undone, by their number.
    Back(u32),
    /// That the session is saved in the file with this name.
    Save { replaces: bool, name: &'a str },
    /// The end.
    Quit,
    /// Something that is no command.
    Unknown(&'a str),
    /// Nothing that can be done.
    Refused(Refusal),
}

/// What the bytes of a line, without its LF, ask for.
#[tactic(auto, unfolding(crate::specs::Request::request_in))]
pub(crate) fn request_in(line: &[u8]) -> Request<'_>
    ensures request { request result ≡ request_in line.now }
    ensures whole { IsSaidWhole line.now result }
{
    if line.len() > LINE_LIMIT {
        return Request::Refused(Refusal::TooLong);
    }
    bytes_request(line)
}

/// What bytes ask for that aren't too long.
fn bytes_request(line: &[u8]) -> Request<'_>
    ensures request { request result
        ≡ (if is_utf8 line.now then text_request line.now else Refused BadText) }
    ensures whole { IsSaidWhole line.now result }
{
    match str::from_utf8(line) {
        Ok(text) => text_request(text),
        Err(_) => Request::Refused(Refusal::BadText),
    }
}

/// What a text asks for.
#[tactic(auto, unfolding(crate::specs::Request::text_request))]
fn text_request(line: &str) -> Request<'_>
    ensures request { request result ≡ text_request line.now }
    ensures whole { IsSaidWhole line.now result }
{
    if line.is_empty() {
        return Request::Nothing;
    }
    let (word, behind) = cut(line);
    match Own::named(word) {
        Some(own) => own_request(own, behind),
        None if names_command(line) => Request::Say(line),
        None => Request::Unknown(line),
    }
}

/// The first word of a line, and what is behind the first space, if it has one.
fn cut(line: &str) -> (&str, Option<&str>)
    ensures word { result.0.now ≡ first_word line.now }
    ensures behind { option_map (λ behind. behind.now) result.1 ≡ behind_word line.now }
{
    match line.split_once(' ') {
        Some((word, behind)) => (word, Some(behind)),
        None => (line, None),
    }
}

/// What a command of the prompt asks for, by what is behind its name.
fn own_request(own: Own, behind: Option<&str>) -> Request<'_>
    ensures request { request result
        ≡ own_request own (option_map (λ behind. behind.now) behind.entry) }
    ensures unsaid { (line : List ℕ) → IsSaidWhole line result }
{
    match (own, behind) {
        (Own::Help, behind) => Request::Help(behind.unwrap_or("")),
        (Own::Back, None) => Request::Back(1),
        (Own::Back, Some(count)) => match count_of(count.as_bytes()) {
            Some(count) => Request::Back(count),
            None => Request::Refused(Refusal::BadCount),
        },
        (Own::Save, behind) => named_file(false, behind),
        (Own::Replace, behind) => named_file(true, behind),
        (Own::Quit, None) => Request::Quit,
        (Own::Quit, Some(_)) => Request::Refused(Refusal::BadCommand),
    }
}

/// The session is to be saved in a file, which needs a name.
fn named_file(replaces: bool, name: Option<&str>) -> Request<'_>
    ensures request { request result
        ≡ named_file replaces (option_map (λ name. name.now) name.entry) }
    ensures unsaid { (line : List ℕ) → IsSaidWhole line result }
{
    match name {
        None | Some("") => Request::Refused(Refusal::NoName),
        Some(name) => Request::Save { replaces, name },
    }
}
