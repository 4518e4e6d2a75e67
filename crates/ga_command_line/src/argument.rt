//! The arguments of subcommands.
ghost use Rattle.std.specs.Prelude.{◌≡◌, IfOk, false, map};
ghost use Rattle.clap.specs.Words.{App, rule_of, with_rule};
ghost use Rattle.ga_command_line.specs.Arguments.{command_with};
ghost use Rattle.ga_command_line.specs.inner.Arguments.{plain_rule, rule_for, with_long, with_value};
ghost use Rattle.ga_command_line.specs.inner.Command.{IsCommandOf};

use crate::number::{TURNS_LIMIT, number_within};
use clap::{Arg, ArgAction, Command};
use std::alloc::{AllocError, Global};

/// What is given with an argument.
#[derive(Clone, Copy)]
pub enum Takes {
    /// Nothing: it is a flag.
    Nothing,
    Text,
    /// Any number of texts.
    Texts,
    /// A number, from one to another.
    Number(u32, u32),
}

/// An argument of a subcommand.
#[derive(Clone, Copy)]
pub struct Argument {
    /// The name by which its value is found, and which the usage shows for it.
    pub id: &'static str,
    /// Its name behind `--`, if it is an option.
    pub long: Option<&'static str>,
    pub takes: Takes,
    /// Whether it must be given.
    pub required: bool,
    pub help: &'static str,
}

/// Source text is placed.
pub const PLACE: Argument = Argument {
    id: "PLACE",
    long: Some("place"),
    takes: Takes::Nothing,
    required: false,
    help: "The input is source text, even if it begins with 'profile'; its words are placed",
};

/// Source text is booted.
pub const ROUTE: Argument = Argument {
    id: "ROUTE",
    long: Some("route"),
    takes: Takes::Text,
    required: false,
    help: "The input is source text, which boots along this route, or a tree of routes",
};

/// The route of `boot` and `run`.
pub const ROUTE_OF_BOOT: Argument = Argument {
    id: "ROUTE",
    long: None,
    takes: Takes::Text,
    required: true,
    help: "Node names with commas between them, from an edge node on, or several such routes with / between them",
};

/// The most turns of a run.
pub const TURNS: Argument = Argument {
    id: "N",
    long: Some("turns"),
    takes: Takes::Number(0, TURNS_LIMIT),
    required: false,
    help: "How many turns are made at most, from 0 to 1000000; by default 1000000",
};

/// The beginning of a profile.
pub const WHERE: Argument = Argument {
    id: "WHERE",
    long: Some("from"),
    takes: Takes::Text,
    required: false,
    help: "Where it begins: with the last node that begins (last, the default), the first (first), or a turn",
};

/// The source that a FILE names may lie anywhere.
pub const ANY_SOURCE: Argument = Argument {
    id: "ANY",
    long: Some("any-source"),
    takes: Takes::Nothing,
    required: false,
    help: "A source that FILE names may lie anywhere, and not only in its folder or below",
};

/// A FILE of source text.
pub const SOURCE_TEXT: Argument = Argument {
    id: "FILE",
    long: None,
    takes: Takes::Text,
    required: false,
    help: "The source text; standard input by default or if it is -",
};

/// A FILE of words.
pub const WORDS: Argument = Argument {
    id: "FILE",
    long: None,
    takes: Takes::Text,
    required: false,
    help: "The words; standard input by default or if it is -",
};

/// A FILE of a session or of source text.
pub const SESSION: Argument = Argument {
    id: "FILE",
    long: None,
    takes: Takes::Text,
    required: false,
    help: "The session or the source text; standard input by default or if it is -",
};

/// The subcommand with a name and these arguments, in the order of its help.
pub fn command_with<'a>(
    alloc: Global,
    name: &'a str,
    about: &'a str,
    help: &'a str,
    arguments: &[Argument],
) -> Result<Command<'a>, AllocError>
    ensures { IfOk result (IsCommandOf (command_with name.now (map rule_for arguments.now))) }
{
    let mut command = Command::new(alloc, name).about(about).after_help(help);
    for argument in arguments {
        command = with_argument(alloc, command, argument)?;
    }
    Ok(command)
}

/// A subcommand with one more argument.
fn with_argument<'a>(
    alloc: Global,
    command: Command<'a>,
    argument: &Argument,
) -> Result<Command<'a>, AllocError>
    ensures { IfOk result (λ made. (app : App) → IsCommandOf app command.entry
        → IsCommandOf (with_rule app (rule_for argument.now)) made) }
{
    command.arg(arg_of(alloc, argument))
}

/// An argument, as clap has it.
fn arg_of(alloc: Global, argument: &Argument) -> Arg<'static>
    ensures rule { rule_of result ≡ rule_for argument.now }
    ensures local { result.global ≡ false }
{
    let arg = plain(alloc, argument);
    valued(named(arg, argument.long), argument.takes)
}

/// An argument without a name behind `--`, as if it took a text.
fn plain(alloc: Global, argument: &Argument) -> Arg<'static>
    ensures rule { rule_of result ≡ plain_rule argument.now }
    ensures local { result.global ≡ false }
{
    Arg::new(alloc, argument.id)
        .help(argument.help)
        .required(argument.required)
}

/// An argument with a name behind `--`, if it has one.
fn named(arg: Arg<'static>, long: Option<&'static str>) -> Arg<'static>
    ensures rule { rule_of result ≡ with_long (rule_of arg.entry) long.entry }
    ensures local { result.global ≡ arg.entry.global }
{
    match long {
        Some(long) => arg.long(long),
        None => arg,
    }
}

/// An argument, by what is given with it.
fn valued(arg: Arg<'static>, takes: Takes) -> Arg<'static>
    ensures rule { rule_of result ≡ with_value (rule_of arg.entry) takes }
    ensures local { result.global ≡ arg.entry.global }
{
    match takes {
        Takes::Nothing => arg.action(ArgAction::SetTrue),
        Takes::Text => arg,
        Takes::Texts => arg.action(ArgAction::Append),
        Takes::Number(least, most) => arg.value_parser(number_within(least, most)),
    }
}
