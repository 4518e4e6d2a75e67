ghost use Rattle.std.specs.Prelude.{◌≡◌, IfErr, IfOk, Option, codes};
ghost use Rattle.clap.specs.Words.{found_of, rows_of};
ghost use Rattle.ga_command_line.specs.declared.Subcommand.TheVariants as sub;
ghost use Rattle.ga_command_line.specs.inner.Command.{IsCommandOf};
ghost use Rattle.ga_command_line.specs.CommandLine.{AsksFor, InRange, command_of};
ghost use Rattle.ga_command_line.specs.Explain.{IsOfTable, IsTopicAt};

use crate::argument::{Argument, Takes, command_with};
use crate::command_line::{LineError, refusal};
use clap::error::ErrorKind;
use clap::{ArgMatches, Command};
use ga_explain::{Topic, topics};
use ga_jobs::Job;
use ga_nearest::Nearest;
use std::alloc::{AllocError, Global};

const HELP: &str = "\
Explains a name that the program writes, with an example, and for an error a fixed one. Without NAME it
lists the names, one on a line: errors, needs and stops of a node, outcomes of a try, and terms. Reads no
input.

Example: ga-bench explain BadToken
More: docs/FORMATS.md and docs/CHIP.md";

/// What is explained.
const NAME: Argument = Argument {
    id: "NAME",
    long: None,
    takes: Takes::Text,
    required: false,
    help: "The name, as the program writes it, or a term",
};

/// The subcommand `explain [NAME]`.
pub fn command<'a>(alloc: Global) -> Result<Command<'a>, AllocError>
    ensures { IfOk result (IsCommandOf (command_of sub.Explain)) }
{
    command_with(
        alloc,
        "explain",
        "Explains an error, a warning, a state or a term",
        HELP,
        &[NAME],
    )
}

/// The job for the arguments of `explain`.
pub fn job_of(alloc: Global, found: &ArgMatches<'_>) -> Result<Job, LineError>
    ensures in_range { IfOk result InRange }
    ensures asked { IfOk result (AsksFor (codes "explain", rows_of (found_of found.now))) }
    ensures right { IfErr result (λ error. (topic : Option Topic) → IsOfTable topic
        → IsTopicAt (rows_of (found_of found.now)) topic → error ≡ LineError.Memory) }
{
    let topic = topic_of(alloc, found)?;
    Ok(Job::Explain { topic })
}

/// The topic that the arguments of `explain` name, if they name one.
fn topic_of(alloc: Global, found: &ArgMatches<'_>) -> Result<Option<Topic>, LineError>
    ensures in_range { IfOk result IsOfTable }
    ensures topic { IfOk result (IsTopicAt (rows_of (found_of found.now))) }
    ensures right { IfErr result (λ error. (topic : Option Topic) → IsOfTable topic
        → IsTopicAt (rows_of (found_of found.now)) topic → error ≡ LineError.Memory) }
{
    let Some(name) = found.get_str("NAME") else {
        return Ok(None);
    };
    match Topic::named(alloc, name)? {
        Some(topic) => Ok(Some(topic)),
        None => Err(unknown(alloc, name)),
    }
}

/// The refusal of a name that the table lacks.
fn unknown(alloc: Global, name: &str) -> LineError {
    match unknown_text(alloc, name) {
        Ok(text) => refusal(alloc, ErrorKind::InvalidValue, text.as_str()),
        Err(error) => LineError::from(error),
    }
}

/// The message about a name that the table lacks, with the nearest one that it has, if one is near.
fn unknown_text(alloc: Global, name: &str) -> Result<String, AllocError> {
    let mut text = String::from_str(alloc, "no such name")?;
    if let Some(near) = nearest_name(alloc, name)? {
        text.push_str("; the nearest name is ")?;
        text.push_str(near)?;
    }
    text.push_str(": 'ga-bench explain' lists them")?;
    Ok(text)
}

/// The name of the table that differs only in the case of its letters, or else the nearest one, if
/// one is near.
fn nearest_name<'a>(alloc: Global, name: &'a str) -> Result<Option<&'a str>, AllocError> {
    let topics = topics(alloc)?;
    if let Some(topic) = topics
        .iter()
        .find(|topic| topic.name.eq_ignore_ascii_case(name))
    {
        return Ok(Some(topic.name));
    }
    let mut nearest = Nearest::to(name);
    for topic in &topics {
        nearest.offer(alloc, topic.name)?;
    }
    Ok(nearest.name())
}
