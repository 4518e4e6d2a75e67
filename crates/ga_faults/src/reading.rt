//! The definitions that a text begins with.
ghost use Rattle.std.specs.Prelude.{◌≡◌};
ghost use Rattle.ga_faults.specs.Sections.{behind, behind_definition};

/// What the next token of a text is for.
#[derive(Clone, Copy)]
pub(crate) enum Reading {
    /// A definition, or the end of the definitions.
    Definition,
    ConstantName,
    ConstantValue,
    /// A token of a shared body, or its `end`.
    Body,
    /// The text behind the definitions.
    Rest,
}

impl Reading {
    /// What the token behind one is for.
    pub(crate) fn behind(self, text: &[u8]) -> Reading
        ensures { result ≡ behind self text.now }
    {
        match self {
            Reading::Definition => behind_definition(text),
            Reading::ConstantName => Reading::ConstantValue,
            Reading::ConstantValue => Reading::Definition,
            Reading::Body => {
                if text == b"end".as_slice() {
                    Reading::Definition
                } else {
                    Reading::Body
                }
            }
            Reading::Rest => Reading::Rest,
        }
    }
}

/// What is behind a token where a definition may begin.
fn behind_definition(text: &[u8]) -> Reading
    ensures { result ≡ behind_definition text.now }
{
    if text == b"const".as_slice() {
        Reading::ConstantName
    } else if text == b"body".as_slice() {
        Reading::Body
    } else {
        Reading::Rest
    }
}
