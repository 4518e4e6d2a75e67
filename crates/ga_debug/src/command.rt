//! The command that a line is.
ghost use Rattle.std.specs.Prelude.{◌≡◌, ◌≤◌, option_map};
ghost use Rattle.ga_debug.specs.Command.{NOTHING, all_read, command_first, command_in, count_or, fault_of, first_word, from_read, goal_read, names_command, passes_read, port_what, range_read, shape_read, some_count, some_values, values_in, values_read, what_read, word_read};
ghost use Rattle.ga_debug.specs.inner.Command.{IsFirst, Reads};
ghost use Rattle.ga_waits.specs.Label.{images_in};

use crate::address::Address;
use crate::commands::{Verb, verb_named};
use crate::error::DebugError;
use crate::label::{address_in, memory_in};
use crate::pieces::Pieces;
use crate::row::{Scope, Shape};
use crate::values::{plain_what, side_named, value_in};
use crate::word::{count_of, side_of};
use ga_asm::Images;
use ga_place::{Node, Side};
use ga_trace::{Register, Value, What};

/// The arguments of a command. An argument that no word gives is as in [`nothing`].
#[derive(Clone, Copy)]
pub(crate) struct Arguments {
    pub(crate) node: Node,
    pub(crate) address: Address,
    pub(crate) side: Side,
    pub(crate) count: u32,
    pub(crate) passes: u32,
    /// An address of memory that may be left out, as an index.
    pub(crate) from: Option<Address>,
    pub(crate) what: What,
    /// The values come first, and behind them nothing.
    pub(crate) values: [Option<Value>; 8],
}

/// A command with its arguments.
#[derive(Clone, Copy)]
pub(crate) struct Command {
    pub(crate) verb: Verb,
    pub(crate) given: Arguments,
}

/// The command that a line is, or its first fault: a bad word, by words from the left, or words
/// left over. With images the line is one of a transcript, and an address may be a label of its
/// node.
#[tactic(auto, unfolding(crate::specs::Command::command_in))]
pub(crate) fn command_in(images: Option<&Images>, line: &str) -> Result<Command, DebugError>
    ensures { result ≡ command_in (option_map (λ images. images.now) images.entry) line.now }
{
    let mut words = Pieces::new(line, ' ');
    let scope = match images {
        Some(_) => Scope::Transcripts,
        None => Scope::Sessions,
    };
    let command = command_first(scope, images, &mut words)?;
    match words.next() {
        None => Ok(command),
        Some(_) => Err(DebugError::BadCommand),
    }
}

/// Whether the first word of a line names a command of transcripts.
pub fn names_command(line: &str) -> bool
    ensures { result ≡ names_command line.now }
{
    match Pieces::new(line, ' ').next() {
        Some(word) => verb_named(Scope::Transcripts, word.as_bytes()).is_some(),
        None => false,
    }
}

/// The command that words begin with.
#[tactic(auto, unfolding(crate::specs::Command::command_first))]
pub(crate) fn command_first(
    scope: Scope,
    images: Option<&Images>,
    words: &mut Pieces<'_>,
) -> Result<Command, DebugError>
    ensures { Reads (command_first scope (images_in images.entry) words.old) result words.new }
{
    let Some(word) = words.next() else {
        return Err(DebugError::BadCommand);
    };
    let Some(verb) = verb_named(scope, word.as_bytes()) else {
        return Err(DebugError::BadCommand);
    };
    let given = read_all(images, verb.shapes_in(scope), words)?;
    Ok(Command { verb, given })
}

/// No arguments: node 000, address 000, the side right, no turn, no pass, and P with no value.
fn nothing() -> Arguments
    ensures { result ≡ NOTHING }
{
    Arguments {
        node: Node::at(0),
        address: Address::zero(),
        side: Side::Right,
        count: 0,
        passes: 0,
        from: None,
        what: What::Register(Register::P),
        values: [None; 8],
    }
}

/// The arguments of these shapes that words begin with.
fn read_all(
    images: Option<&Images>,
    shapes: &[Shape],
    words: &mut Pieces<'_>,
) -> Result<Arguments, DebugError>
    ensures { Reads (all_read (images_in images.entry) shapes.now NOTHING words.old)
        result words.new }
{
    let mut given = nothing();
    for shape in shapes {
        given = read_shape(images, *shape, given, words)?;
    }
    Ok(given)
}

/// One more argument, behind those that are given.
fn read_shape(
    images: Option<&Images>,
    shape: Shape,
    given: Arguments,
    words: &mut Pieces<'_>,
) -> Result<Arguments, DebugError>
    ensures { Reads (shape_read (images_in images.entry) shape given words.old)
        result words.new }
{
    match shape {
        Shape::CountIf => read_count_or(1_000_000, given, words),
        Shape::OneIf => read_count_or(1, given, words),
        Shape::PassesIf => read_passes(given, words),
        Shape::AddressIf => read_from(images, given, words),
        Shape::RangeIf => read_range(images, given, words),
        Shape::What => read_what(images, given, words),
        Shape::Values => read_values(images, given, words),
        Shape::GoalIf => read_goal(images, given, words),
        Shape::Node | Shape::Address | Shape::Side | Shape::Count => {
            read_plain(images, shape, given, words)
        }
    }
}

/// One more argument, which is one word.
fn read_plain(
    images: Option<&Images>,
    shape: Shape,
    given: Arguments,
    words: &mut Pieces<'_>,
) -> Result<Arguments, DebugError>
    ensures { Reads (first_word (word_read (images_in images.entry) shape given) (fault_of shape)
        words.old) result words.new }
{
    match words.next() {
        Some(word) => match read_word(images, shape, given, word) {
            Some(given) => Ok(given),
            None => Err(fault_of(shape)),
        },
        None => Err(fault_of(shape)),
    }
}

/// A count, or no word, for this one.
fn read_count_or(
    count: u32,
    given: Arguments,
    words: &mut Pieces<'_>,
) -> Result<Arguments, DebugError>
    ensures { Reads (count_or count given words.old) result words.new }
{
    let Some(word) = words.next() else {
        return Ok(Arguments { count, ..given });
    };
    match count_of(word.as_bytes()) {
        Some(count) => Ok(Arguments { count, ..given }),
        None => Err(DebugError::BadCount),
    }
}

/// How often a node passes an address, or no word of that kind.
fn read_passes(given: Arguments, words: &mut Pieces<'_>) -> Result<Arguments, DebugError>
    ensures { Reads (passes_read given words.old) result words.new }
{
    let Some(word) = words.again().next() else {
        return Ok(given);
    };
    let Some(times) = word.strip_prefix("x") else {
        return Ok(given);
    };
    let _word = words.next();
    match count_of(times.as_bytes()) {
        Some(passes) => Ok(Arguments { passes, ..given }),
        None => Err(DebugError::BadCount),
    }
}

/// An address of memory, or no word.
fn read_from(
    images: Option<&Images>,
    given: Arguments,
    words: &mut Pieces<'_>,
) -> Result<Arguments, DebugError>
    ensures { Reads (from_read (images_in images.entry) given words.old) result words.new }
{
    let Some(word) = words.next() else {
        return Ok(given);
    };
    match memory_in(images, given.node, word) {
        None => Err(DebugError::BadAddress),
        from => Ok(Arguments { from, ..given }),
    }
}

/// An address of memory and a count of words, or no word.
fn read_range(
    images: Option<&Images>,
    given: Arguments,
    words: &mut Pieces<'_>,
) -> Result<Arguments, DebugError>
    ensures { Reads (range_read (images_in images.entry) given words.old) result words.new }
{
    let Some(word) = words.next() else {
        return Ok(given);
    };
    let address = memory_in(images, given.node, word).ok_or(DebugError::BadAddress)?;
    let count = match words.next() {
        Some(word) => some_count(word.as_bytes()).ok_or(DebugError::BadCount)?,
        None => 1,
    };
    Ok(Arguments {
        address,
        count,
        ..given
    })
}

/// A count that isn't 0.
fn some_count(word: &[u8]) -> Option<u32>
    ensures { result ≡ some_count word.now }
{
    match count_of(word) {
        Some(0) => None,
        count => count,
    }
}

/// What a node shows: by one word, or by a side and a word that says what of its port.
fn read_what(
    images: Option<&Images>,
    given: Arguments,
    words: &mut Pieces<'_>,
) -> Result<Arguments, DebugError>
    ensures { Reads (what_read (images_in images.entry) given words.old) result words.new }
{
    let Some(word) = words.next() else {
        return Err(DebugError::BadValue);
    };
    let what = match side_named(word.as_bytes()) {
        Some(side) => port_what(side, words),
        None => plain_what(images, given.node, word).ok_or(DebugError::BadValue)?,
    };
    Ok(Arguments { what, ..given })
}

/// What of the port at a side words begin with, and nothing of them for the word at the port.
fn port_what(side: Side, words: &mut Pieces<'_>) -> What
    ensures { (result, words.new) ≡ port_what side words.old }
{
    let Some(word) = words.again().next() else {
        return What::Pending(side);
    };
    let what = match word {
        "written" => What::Written(side),
        "read" => What::Read(side),
        _ => return What::Pending(side),
    };
    let _word = words.next();
    what
}

/// Values of what a node shows: up to eight words of memory, but none behind the last one, or one
/// value of all else.
fn read_values(
    images: Option<&Images>,
    given: Arguments,
    words: &mut Pieces<'_>,
) -> Result<Arguments, DebugError>
    ensures { Reads (values_read (images_in images.entry) given words.old) result words.new }
{
    let most = match given.what {
        What::Memory(address) => 8.min(64_usize.saturating_sub(usize::from(address))),
        _ => 1,
    };
    some_values(images, most, given, words)
}

/// `=` and one value, or no word.
fn read_goal(
    images: Option<&Images>,
    given: Arguments,
    words: &mut Pieces<'_>,
) -> Result<Arguments, DebugError>
    ensures { Reads (goal_read (images_in images.entry) given words.old) result words.new }
{
    match words.next() {
        None => Ok(given),
        Some("=") => some_values(images, 1, given, words),
        Some(_) => Err(DebugError::BadValue),
    }
}

/// At least one value, and at most `most`.
fn some_values(
    images: Option<&Images>,
    most: usize,
    given: Arguments,
    words: &mut Pieces<'_>,
) -> Result<Arguments, DebugError>
    requires { most ≤ 8 }
    ensures { Reads (some_values (images_in images.entry) most given words.old) result words.new }
{
    match values_of(images, most, given.node, given.what, words) {
        Some(values) => Ok(Arguments { values, ..given }),
        None => Err(DebugError::BadValue),
    }
}

/// At least one value of what a node shows, and at most `most`.
fn values_of(
    images: Option<&Images>,
    most: usize,
    node: Node,
    what: What,
    words: &mut Pieces<'_>,
) -> Option<[Option<Value>; 8]>
    requires { most ≤ 8 }
    ensures { IsFirst (values_in (images_in images.entry) node what most words.old)
        result words.new }
{
    if words.again().next().is_none() {
        return None;
    }
    let mut values = [None; 8];
    for index in 0..most {
        let Some(word) = words.next() else {
            return Some(values);
        };
        let value = value_in(images, node, what, word)?;
        values[index] = Some(value);
    }
    Some(values)
}

/// One more argument, which is this word.
fn read_word(
    images: Option<&Images>,
    shape: Shape,
    given: Arguments,
    word: &str,
) -> Option<Arguments>
    ensures { result ≡ word_read (images_in images.entry) shape given word.now }
{
    let mut given = given;
    match shape {
        Shape::Node => given.node = Node::from_digits(word.as_bytes())?,
        Shape::Address => given.address = address_in(images, given.node, word)?,
        Shape::Side => given.side = side_of(word.as_bytes())?,
        _ => given.count = count_of(word.as_bytes())?,
    }
    Some(given)
}

/// What a word is that hasn't its shape.
fn fault_of(shape: Shape) -> DebugError
    ensures { result ≡ fault_of shape }
{
    match shape {
        Shape::Node => DebugError::BadNode,
        Shape::Address => DebugError::BadAddress,
        Shape::Side => DebugError::BadSide,
        _ => DebugError::BadCount,
    }
}
