//! The commands that only the prompt has.
ghost use Rattle.std.specs.Prelude.{◌≡◌};
ghost use Rattle.ga_prompt.specs.Own.{own_name, own_named};

/// A command that only the prompt has.
#[derive(Clone, Copy)]
pub(crate) enum Own {
    /// Shows what commands do.
    Help,
    /// Undoes the last commands.
    Back,
    /// Saves the session in a new file.
    Save,
    /// Saves the session in a new file, or replaces one.
    Replace,
    /// Ends the conversation.
    Quit,
}

impl Own {
    /// All of them.
    pub(crate) const ALL: [Own; 5] = [Own::Help, Own::Back, Own::Save, Own::Replace, Own::Quit];

    pub(crate) fn name(self) -> &'static str
        ensures { result.now ≡ own_name self }
    {
        match self {
            Own::Help => "help",
            Own::Back => "back",
            Own::Save => "save",
            Own::Replace => "save!",
            Own::Quit => "quit",
        }
    }

    /// The command with a name, if there is one.
    pub(crate) fn named(word: &str) -> Option<Own>
        ensures { result ≡ own_named word.now }
    {
        Own::ALL.iter().copied().find(|own| own.name() == word)
    }
}
