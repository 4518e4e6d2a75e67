//! The help of the prompt.
use ga_debug::HELP;
use std::alloc::AllocError;

/// A line for each command that only the prompt has, which it begins with.
const OWN_HELP: &str = "\
help [COMMAND]            this, or what one command does
back [K]                  undoes the last K commands, or the last one; the chip is as it was before them
save FILE                 writes the session into a new file, as a transcript with its replies
save! FILE                the same, and replaces a file that is there
quit                      ends the session, as the end of the input does
";

/// What is behind them.
const REPEATING: &str = "An empty line repeats the last line.\n";

/// Adds the help on a command to an empty text, or the whole help if the name is empty.
pub(crate) fn push_help(text: &mut String, name: &str) -> Result<(), AllocError> {
    if name.is_empty() {
        text.push_str(HELP)?;
        text.push_str(OWN_HELP)?;
        return text.push_str(REPEATING);
    }
    match line_of(HELP, name).or(line_of(OWN_HELP, name)) {
        Some(line) => {
            text.push_str(line)?;
            text.push('\n')
        }
        None => text.push_str("refused BadCommand\n"),
    }
}

/// The line of a help that begins with a command.
fn line_of<'a>(help: &'a str, name: &str) -> Option<&'a str> {
    help.lines()
        .find(|line| line.split(' ').next() == Some(name))
}
