//! The command whose name is nearest to a word.
use crate::own::Own;
use ga_debug::HELP;
use ga_nearest::Nearest;
use std::alloc::{AllocError, Global};

/// What names the command that is nearest to the first word of a line, if one is near.
pub(crate) fn hint_of(alloc: Global, line: &str) -> Result<String, AllocError> {
    let mut nearest = Nearest::to(first_word(line));
    for line in HELP.lines() {
        nearest.offer(alloc, first_word(line))?;
    }
    offer_own(alloc, &mut nearest)?;
    match nearest.name() {
        Some(name) => format!(in alloc; ", the nearest is {name}"),
        None => Ok(String::new(alloc)),
    }
}

fn first_word(line: &str) -> &str {
    line.split(' ').next().unwrap_or(line)
}

/// Offers the commands that only the prompt has.
fn offer_own(alloc: Global, nearest: &mut Nearest<'_>) -> Result<(), AllocError> {
    for own in Own::ALL {
        nearest.offer(alloc, own.name())?;
    }
    Ok(())
}
