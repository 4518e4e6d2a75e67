//! The commands: the row of each, what it does and what it shows.
ghost use Rattle.std.specs.Prelude.{◌≡◌, ◌+◌, ◌++◌, ◌≤◌, [], IfOk, OnErr, OnOk, option_map, string_bytes, length};
ghost use Rattle.std.specs.Fmt.{decimal};
ghost use Rattle.std.specs.String.{string_capacity};
ghost use Rattle.ga_debug.specs.Commands.{action_named, action_row, answer_text, any_verb, depth_shown, did, follow_named, follow_row, followed, images_of, note_of, shapes_in, shown, verb_named, verb_row, view_named, view_row};
ghost use Rattle.ga_debug.specs.Session.{without_line_end};
ghost use Rattle.ga_debug.specs.Word.{outcome_text};
ghost use Rattle.ga_waits.specs.Label.{images_in};

use crate::beginning::Program;
use crate::breaks::{break_note, breaks_text};
use crate::code::code_text;
use crate::command::Arguments;
use crate::error::DebugError;
use crate::expect::expected_text;
use crate::mem::memory_shown;
use crate::row::{Row, Scope, Shape, States, is_seen_by};
use crate::sides::sides_text;
use crate::until::{Reached, until};
use ga_asm::Images;
use ga_chip::{Chip, Outcome, Try};
use ga_dump::{ledger_text, node_text};
use ga_map::map;
use ga_place::Node;
use ga_trace::{Ran, depths, run, step, trace, watch};
use ga_waits::{nodes, waits};
use itoa::Buffer;
use std::alloc::{AllocError, Global};

/// A command that does something to the chip.
#[derive(Clone, Copy)]
pub(crate) enum Action {
    /// An address becomes a breakpoint of a node.
    Break,
    /// An address is no breakpoint of a node any more.
    Clear,
    /// A node that is held gets a pass.
    Pass,
    /// One try of a node.
    Try,
    /// Turns of all nodes.
    Turn,
    /// Turns until a node is held at an address.
    Until,
    /// Turns until no node moves but those that spin.
    Run,
}

/// A command that makes steps, and shows them.
#[derive(Clone, Copy)]
pub(crate) enum Follow {
    /// Steps of one node alone.
    Step,
    /// Turns of all nodes, and the steps of one of them.
    Trace,
    /// Turns until a value of a node changes.
    Watch,
}

/// A command that shows something.
#[derive(Clone, Copy)]
pub(crate) enum View {
    /// The registers of a node.
    Regs,
    /// The memory of a node, or some words of it.
    Mem,
    /// The numbers of the cells that a node writes.
    Ports,
    /// The registers and stacks of a node.
    Node,
    /// The listing of a node's memory around an address.
    Code,
    /// The neighbours of a node, and what lies at its ports.
    Sides,
    /// How deep the stacks of a node were.
    Depth,
    /// Whether a node shows some values.
    Expect,
    /// The breakpoints.
    Breaks,
    /// Which nodes wait for which.
    Where,
    /// The same, with the idle ones in one line.
    Nodes,
    /// The chip as a picture.
    Map,
}

/// What the first word of a line names.
#[derive(Clone, Copy)]
pub(crate) enum Verb {
    Act(Action),
    Tell(Follow),
    Show(View),
}

/// The command of this name, `None` if texts of this scope have none.
pub(crate) fn verb_named(scope: Scope, word: &[u8]) -> Option<Verb>
    ensures { result ≡ verb_named scope word.now }
{
    let verb = any_verb(word)?;
    if is_seen_by(scope, verb.row().scope) {
        Some(verb)
    } else {
        None
    }
}

/// The command of this name, whatever texts have it.
fn any_verb(word: &[u8]) -> Option<Verb>
    ensures { result ≡ any_verb word.now }
{
    if let Some(action) = action_named(word) {
        return Some(Verb::Act(action));
    }
    if let Some(follow) = follow_named(word) {
        return Some(Verb::Tell(follow));
    }
    Some(Verb::Show(view_named(word)?))
}

fn action_named(word: &[u8]) -> Option<Action>
    ensures { result ≡ action_named word.now }
{
    let action = match word {
        b"break" => Action::Break,
        b"clear" => Action::Clear,
        b"pass" => Action::Pass,
        b"try" => Action::Try,
        b"turn" => Action::Turn,
        b"until" => Action::Until,
        b"run" => Action::Run,
        _ => return None,
    };
    Some(action)
}

fn follow_named(word: &[u8]) -> Option<Follow>
    ensures { result ≡ follow_named word.now }
{
    let follow = match word {
        b"step" => Follow::Step,
        b"trace" => Follow::Trace,
        b"watch" => Follow::Watch,
        _ => return None,
    };
    Some(follow)
}

fn view_named(word: &[u8]) -> Option<View>
    ensures { result ≡ view_named word.now }
{
    let view = match word {
        b"regs" => View::Regs,
        b"mem" => View::Mem,
        b"ports" => View::Ports,
        b"node" => View::Node,
        b"code" => View::Code,
        b"sides" => View::Sides,
        b"depth" => View::Depth,
        b"expect" => View::Expect,
        b"breaks" => View::Breaks,
        b"where" => View::Where,
        b"nodes" => View::Nodes,
        b"map" => View::Map,
        _ => return None,
    };
    Some(view)
}

impl Verb {
    pub(crate) fn row(self) -> Row
        ensures shapes { result.shapes.now ≡ (verb_row self).shapes }
        ensures scope { result.scope ≡ (verb_row self).scope }
        ensures states { result.states ≡ (verb_row self).states }
    {
        match self {
            Verb::Act(action) => action.row(),
            Verb::Tell(follow) => follow.row(),
            Verb::Show(view) => view.row(),
        }
    }

    /// The words that follow its name in texts of a scope. In transcripts `mem` may have an
    /// address.
    pub(crate) fn shapes_in(self, scope: Scope) -> &'static [Shape]
        ensures { result.now ≡ shapes_in scope self }
    {
        match (scope, self) {
            (Scope::Transcripts, Verb::Show(View::Mem)) => &[Shape::Node, Shape::RangeIf],
            _ => self.row().shapes,
        }
    }
}

impl Action {
    fn row(self) -> Row
        ensures shapes { result.shapes.now ≡ (action_row self).shapes }
        ensures scope { result.scope ≡ (action_row self).scope }
        ensures states { result.states ≡ (action_row self).states }
    {
        let (shapes, scope, states): (&'static [Shape], Scope, States) = match self {
            Action::Break => (
                &[Shape::Node, Shape::Address],
                Scope::Replays,
                States::Nothing,
            ),
            Action::Clear => (
                &[Shape::Node, Shape::Address],
                Scope::Replays,
                States::Nothing,
            ),
            Action::Pass => (&[Shape::Node], Scope::Replays, States::Nothing),
            Action::Try => (&[Shape::Node, Shape::Side], Scope::Replays, States::Outcome),
            Action::Turn => (&[Shape::Count], Scope::Replays, States::Steps),
            Action::Until => (
                &[Shape::Node, Shape::Address, Shape::PassesIf, Shape::CountIf],
                Scope::Transcripts,
                States::Nothing,
            ),
            Action::Run => (&[Shape::CountIf], Scope::Transcripts, States::Nothing),
        };
        Row {
            shapes,
            scope,
            states,
        }
    }
}

impl Follow {
    fn row(self) -> Row
        ensures shapes { result.shapes.now ≡ (follow_row self).shapes }
        ensures scope { result.scope ≡ (follow_row self).scope }
        ensures states { result.states ≡ (follow_row self).states }
    {
        let shapes: &'static [Shape] = match self {
            Follow::Step => &[Shape::Node, Shape::OneIf],
            Follow::Trace => &[Shape::Node, Shape::Count],
            Follow::Watch => &[Shape::Node, Shape::What, Shape::GoalIf],
        };
        Row {
            shapes,
            scope: Scope::Transcripts,
            states: States::Nothing,
        }
    }
}

impl View {
    fn row(self) -> Row
        ensures shapes { result.shapes.now ≡ (view_row self).shapes }
        ensures scope { result.scope ≡ (view_row self).scope }
        ensures states { result.states ≡ (view_row self).states }
    {
        let (shapes, scope): (&'static [Shape], Scope) = match self {
            View::Regs | View::Mem | View::Ports => (&[Shape::Node], Scope::Sessions),
            View::Node | View::Sides | View::Depth => (&[Shape::Node], Scope::Transcripts),
            View::Code => (&[Shape::Node, Shape::AddressIf], Scope::Transcripts),
            View::Expect => (
                &[Shape::Node, Shape::What, Shape::Values],
                Scope::Transcripts,
            ),
            View::Breaks | View::Where | View::Nodes | View::Map => (&[], Scope::Transcripts),
        };
        Row {
            shapes,
            scope,
            states: States::Nothing,
        }
    }
}

/// The answer of an action.
#[derive(Clone, Copy)]
pub(crate) enum Answer {
    /// It was done.
    Done,
    /// The outcome of a try.
    Tried(Outcome),
    /// How many steps turns made.
    Moved(u64),
    /// The turns and moves until a node was held, if it was.
    Reached(Option<Reached>),
    /// Turns until rest.
    Ran(Ran),
}

/// Room for every answer as text, with a note behind it.
pub(crate) const ANSWER_LENGTH: usize = 64 + 34;

/// Runs an action. A refused one leaves the chip as it was.
pub(crate) fn perform(
    chip: &mut Chip,
    action: Action,
    given: &Arguments,
) -> Result<Answer, DebugError>
    ensures done { (result, chip.new) ≡ did action given.now chip.old }
    ensures same { OnErr result (chip.new ≡ chip.old) }
{
    let (node, address, count) = (given.node, given.address, given.count);
    match action {
        Action::Break => {
            chip.set_break(node, address.get());
            Ok(Answer::Done)
        }
        Action::Clear => {
            chip.clear_break(node, address.get());
            Ok(Answer::Done)
        }
        Action::Pass => match chip.pass_break(node) {
            Ok(()) => Ok(Answer::Done),
            Err(_) => Err(DebugError::NotHeld),
        },
        Action::Try => Ok(Answer::Tried(chip.attempt(Try {
            node,
            side: given.side,
        }))),
        Action::Turn => Ok(Answer::Moved(chip.turns(count))),
        Action::Until => Ok(Answer::Reached(until(chip, node, address, given.passes, count))),
        Action::Run => Ok(Answer::Ran(run(chip, count))),
    }
}

/// Adds an answer to an empty text that has room for it.
pub(crate) fn push_answer(text: &mut String, answer: Answer)
    requires empty { string_bytes text.old ≡ [] }
    requires room { 64 ≤ string_capacity text.old }
    ensures text { string_bytes text.new ≡ answer_text answer }
    ensures short { length (string_bytes text.new) ≤ 64 }
    ensures room { string_capacity text.old ≤ string_capacity text.new }
{
    match answer {
        Answer::Done => text.push_str("ok").unwrap(),
        Answer::Tried(outcome) => text.push_str(outcome_name(outcome)).unwrap(),
        Answer::Moved(steps) => push_number(text, "moved ", steps),
        Answer::Reached(None) => text.push_str("not reached").unwrap(),
        Answer::Reached(Some(Reached { turns, moved })) => {
            push_number(text, "turns ", u64::from(turns));
            push_number(text, " moved ", moved);
        }
        Answer::Ran(ran) => push_ran(text, ran),
    }
}

/// Adds turns until rest to an empty text.
fn push_ran(text: &mut String, ran: Ran)
    requires empty { string_bytes text.old ≡ [] }
    requires room { 64 ≤ string_capacity text.old }
    ensures text { string_bytes text.new ≡ answer_text (Answer.Ran ran) }
    ensures short { length (string_bytes text.new) ≤ 64 }
    ensures room { string_capacity text.old ≤ string_capacity text.new }
{
    push_number(text, "turns ", u64::from(ran.turns));
    push_number(text, " moved ", ran.moved);
    if ran.rests {
        text.push_str(", at rest").unwrap();
    }
}

/// Adds a number behind its name to a text that has room for both.
fn push_number(text: &mut String, name: &str, number: u64)
    requires { length (string_bytes text.old) + length name.now + 20 ≤ string_capacity text.old }
    ensures added { string_bytes text.new ≡ string_bytes text.old ++ name.now ++ decimal number }
    ensures room { string_capacity text.old ≤ string_capacity text.new }
    ensures short { length (string_bytes text.new)
        ≤ length (string_bytes text.old) + length name.now + 20 }
{
    text.push_str(name).unwrap();
    let mut buffer = Buffer::new();
    text.push_str(buffer.format(number)).unwrap();
}

fn outcome_name(outcome: Outcome) -> &'static str
    ensures text { result.now ≡ outcome_text outcome }
    ensures short { length result.now ≤ 7 }
{
    match outcome {
        Outcome::Moved => "moved",
        Outcome::Waits => "waits",
        Outcome::Held => "held",
        Outcome::Stopped => "stopped",
    }
}

/// The note behind the answer of an action.
pub(crate) fn note_of(
    alloc: Global,
    images: Option<&Images>,
    action: Action,
    given: &Arguments,
) -> Result<&'static str, AllocError>
    ensures note { IfOk result (λ note. note.now
        ≡ note_of (images_in images.entry) action given.now) }
    ensures short { IfOk result (λ note. length note.now ≤ 34) }
{
    match action {
        Action::Break => break_note(alloc, images, given.node, given.address),
        _ => Ok(""),
    }
}

/// What a view shows of a chip that began with this program, without the last LF.
pub(crate) fn show(
    alloc: Global,
    chip: &Chip,
    program: Option<&Program>,
    view: View,
    given: &Arguments,
) -> Result<String, AllocError>
    ensures { IfOk result (λ text. string_bytes text
        ≡ without_line_end (shown (option_map (λ program. program.now) program.entry) view
        given.now chip.now)) }
{
    let node = given.node;
    let images = images_of(program);
    let mut text = match view {
        View::Regs => chip.state(node).line(alloc),
        View::Mem => memory_shown(alloc, chip.state(node), given.address, given.count),
        View::Ports => ledger_text(alloc, chip, node),
        View::Node => node_text(alloc, chip.state(node)),
        View::Code => code_text(alloc, chip.state(node), images, given.from),
        View::Sides => sides_text(alloc, chip, node),
        View::Depth => depth_shown(alloc, chip, program, node),
        View::Expect => expected_text(alloc, chip, node, given.what, &given.values),
        View::Breaks => breaks_text(alloc, chip, images),
        View::Where => waits(alloc, chip, images),
        View::Nodes => nodes(alloc, chip, images),
        View::Map => map(alloc, chip, images),
    }?;
    drop_line_end(&mut text);
    Ok(text)
}

/// The images of a transcript; a session has none.
pub(crate) fn images_of(program: Option<&Program>) -> Option<&Images>
    ensures images { option_map (λ images. images.now) result ≡ option_map
        (λ program. program.images) (option_map (λ program. program.now) program.entry) }
    ensures all { images_in result ≡ images_of (option_map (λ program. program.now) program.entry) }
{
    match program {
        Some(program) => Some(&program.images),
        None => None,
    }
}

/// How deep the stacks of a node were since the head of a transcript.
fn depth_shown(
    alloc: Global,
    chip: &Chip,
    program: Option<&Program>,
    node: Node,
) -> Result<String, AllocError>
    ensures { IfOk result (λ text. string_bytes text
        ≡ depth_shown (option_map (λ program. program.now) program.entry) node chip.now) }
{
    match program {
        Some(program) => depths(alloc, &program.start, chip, Some(&program.images), node),
        None => Ok(String::new(alloc)),
    }
}

/// Takes away the LF at the end of a text.
fn drop_line_end(text: &mut String)
    ensures { string_bytes text.new ≡ without_line_end (string_bytes text.old) }
{
    if text.as_bytes().last() == Some(&b'\n') {
        text.truncate(text.len() - 1);
    }
}

/// Makes the steps of a command. Answers their text, without the last LF. Fails only when out of
/// memory; then the chip may have made some of them.
pub(crate) fn tell(
    alloc: Global,
    chip: &mut Chip,
    images: Option<&Images>,
    follow: Follow,
    given: &Arguments,
) -> Result<String, AllocError>
    ensures text { IfOk result (λ text. string_bytes text
        ≡ without_line_end (followed (images_in images.entry) follow given.now chip.old).0) }
    ensures chip { OnOk result (chip.new
        ≡ (followed (images_in images.entry) follow given.now chip.old).1) }
{
    let (node, count) = (given.node, given.count);
    let mut text = match follow {
        Follow::Step => step(alloc, chip, images, node, count)?,
        Follow::Trace => trace(alloc, chip, images, node, count)?,
        Follow::Watch => watch(alloc, chip, images, node, given.what, &given.values[0])?,
    };
    drop_line_end(&mut text);
    Ok(text)
}
