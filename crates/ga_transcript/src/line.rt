ghost use Rattle.std.specs.Prelude.{◌≡◌};
ghost use Rattle.ga_transcript.specs.Line.{kind_of};
ghost use Rattle.ga_transcript.specs.inner.Line.{kind};

/// What a line of a transcript behind `go` is.
#[derive(Clone, Copy)]
pub enum Line<'a> {
    /// A command.
    Command(&'a str),
    /// A comment, or nothing.
    Note,
    /// A line of a reply.
    Reply,
}

/// What a line is.
#[tactic(auto, unfolding(crate::specs::Line::kind_of))]
pub fn line_of(line: &str) -> Line<'_>
    ensures { kind result ≡ kind_of line.now }
{
    match line.strip_prefix("> ") {
        Some(command) => Line::Command(command),
        None if line.is_empty() || line.starts_with("\\ ") => Line::Note,
        None => Line::Reply,
    }
}
