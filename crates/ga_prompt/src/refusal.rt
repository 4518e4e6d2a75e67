ghost use Rattle.std.specs.Prelude.{◌≡◌};
ghost use Rattle.ga_prompt.specs.Request.{refusal_name};

/// Why a line asks for nothing that can be done.
#[derive(Clone, Copy)]
pub(crate) enum Refusal {
    /// It has more than 65,536 bytes.
    TooLong,
    /// It isn't UTF-8.
    BadText,
    /// It isn't a number of commands.
    BadCount,
    /// A file is to be saved that has no name.
    NoName,
    /// Words are left over behind a command.
    BadCommand,
}

impl Refusal {
    pub(crate) fn name(self) -> &'static str
        ensures { result.now ≡ refusal_name self }
    {
        match self {
            Refusal::TooLong => "TooLong",
            Refusal::BadText => "BadText",
            Refusal::BadCount => "BadCount",
            Refusal::NoName => "NoName",
            Refusal::BadCommand => "BadCommand",
        }
    }
}
