//! How deep the stacks of a node were.
ghost use Rattle.std.specs.Prelude.{◌≡◌, ◌++◌, IfOk, OnOk, Some, string_bytes};
ghost use Rattle.ga_chip.specs.Chip.{state_of};
ghost use Rattle.ga_waits.specs.Label.{images_in};
ghost use Rattle.ga_trace.specs.Depth.{BOTH_EMPTY, EMPTY, after_step, both_deeper, changed, data_change, deep_from, deeper, depth_line, depth_text, depths_text, fewer_text, has_made, loop_change, passed_text, remark, return_change, worked_by};

use crate::at::at_word;
use crate::traced::{MOST_TURNS, made_turn, quiet_after};
use ga_asm::Images;
use ga_chip::Chip;
use ga_node::NodeState;
use ga_observe::{Deed, Step};
use ga_place::{Node, locate};
use ga_waits::push_label;
use ga_word::{Hex3, Op, Word18};
use std::alloc::{AllocError, Global};
use std::fmt::Write;

/// How many words the data stack has room for: T, S and eight more (the F18A reference, DB001).
const DATA_ROOM: u64 = 10;

/// How many words the return stack has room for: R and eight more (the F18A reference, DB001).
const RETURN_ROOM: u64 = 9;

/// What the work of an opcode does to a stack.
#[derive(Clone, Copy)]
pub(crate) enum Change {
    Push,
    Pop,
    Keep,
}

/// How deep a stack was.
#[derive(Clone, Copy)]
pub struct StackDepth {
    /// The words that were pushed and not yet popped. The number stays at 2^64 - 1.
    pub words: u64,
    /// The most of them.
    pub most: u64,
    /// The address of the first push for which there was no room.
    pub passed: Option<u16>,
}

/// How deep both stacks of a node were. The data stack has room for ten words, T and S among them,
/// and the return stack for nine, with R (the F18A reference, DB001).
#[derive(Clone, Copy)]
pub struct StackDepths {
    pub data_stack: StackDepth,
    pub return_stack: StackDepth,
}

/// How many words each stack of a node held at most in the steps that it has made on a chip, by
/// turns of the chip from which these began: pushed, and not yet popped. If they are more than the
/// stack has room for, the address of the first push that was too many. At most 1,000,000 turns are
/// made. If they have fewer steps, or lead to another state of the node, the last line says so.
/// Fails only when out of memory. (The text is this project's own: profile.)
#[tactic(auto, unfolding(crate::specs::Depth::depth_text))]
pub fn depths(
    alloc: Global,
    start: &Chip,
    here: &Chip,
    images: Option<&Images>,
    node: Node,
) -> Result<String, AllocError>
    ensures { IfOk result (λ text. string_bytes text
        ≡ depth_text (images_in images.entry) node start.now here.now) }
{
    let mut chip = start.copied(alloc)?;
    let depths = deepest(&mut chip, node, here.state(node).steps(), MOST_TURNS);
    let mut text = String::new(alloc);
    push_depths(&mut text, images, node, &depths)?;
    push_remark(alloc, &mut text, chip.state(node), here.state(node))?;
    Ok(text)
}

/// Makes at most `most` turns of all nodes, until a node has made `goal` steps.
fn deepest(chip: &mut Chip, node: Node, goal: u64, most: u64) -> StackDepths
    ensures { (result, chip.new)
        ≡ deep_from most 0 0 (has_made goal) node BOTH_EMPTY chip.old }
{
    let mut depths = both_empty();
    let mut quiet = 0;
    for number in 0..most {
        if has_made(chip, node, goal) || quiet == 4 {
            return depths;
        }
        let made = made_turn(chip, node, number);
        depths = after_step(&depths, &made.step, made.old.r());
        quiet = quiet_after(quiet, made.moved);
    }
    depths
}

/// No words in both stacks.
pub(crate) fn both_empty() -> StackDepths
    ensures { result ≡ BOTH_EMPTY }
{
    StackDepths {
        data_stack: empty(),
        return_stack: empty(),
    }
}

fn empty() -> StackDepth
    ensures { result ≡ EMPTY }
{
    StackDepth {
        words: 0,
        most: 0,
        passed: None,
    }
}

/// Whether a node has made a number of steps.
fn has_made(chip: &Chip, node: Node, goal: u64) -> bool
    ensures { result ≡ has_made goal (state_of chip.now node) }
{
    chip.state(node).steps() >= goal
}

/// Both stacks after a step, if there is one, by R before it.
pub(crate) fn after_step(depths: &StackDepths, step: &Option<Step>, r: Word18) -> StackDepths
    ensures { result ≡ after_step step.now r depths.now }
{
    let Some(step) = step else {
        return *depths;
    };
    let Some(op) = worked_by(step) else {
        return *depths;
    };
    let address = at_word(step.place, step.p % 0x400, step.word);
    both_deeper(depths, op, address, r)
}

/// The opcode whose work a step does; the check of a post does none.
fn worked_by(step: &Step) -> Option<Op>
    ensures { result ≡ worked_by step.now step.now.deed }
{
    match step.deed {
        Deed::SawRead(_) => None,
        _ => step.op(),
    }
}

/// Both stacks after the work of an opcode at an address, by R before it.
fn both_deeper(depths: &StackDepths, op: Op, address: u16, r: Word18) -> StackDepths
    ensures { result ≡ both_deeper address r (Some op) depths.now }
{
    let of_data = data_change(op);
    let of_return = return_change(op, r);
    StackDepths {
        data_stack: deeper(&depths.data_stack, of_data, DATA_ROOM, address),
        return_stack: deeper(&depths.return_stack, of_return, RETURN_ROOM, address),
    }
}

/// A stack after a change by a step at an address.
fn deeper(depth: &StackDepth, change: Change, room: u64, address: u16) -> StackDepth
    ensures { result ≡ deeper room address change depth.now }
{
    let words = changed(change, depth.words);
    let too_many = if words > room { Some(address) } else { None };
    StackDepth {
        words,
        most: depth.most.max(words),
        passed: depth.passed.or(too_many),
    }
}

/// How many words a stack holds after a change; one that is empty stays so.
fn changed(change: Change, words: u64) -> u64
    ensures { result ≡ changed change words }
{
    match change {
        Change::Push => words.saturating_add(1),
        Change::Pop => words.saturating_sub(1),
        Change::Keep => words,
    }
}

/// What an opcode does to the data stack (the F18A reference, DB001).
fn data_change(op: Op) -> Change
    ensures { result ≡ data_change op }
{
    match op {
        Op::FetchP | Op::FetchPlus | Op::FetchB | Op::Fetch => Change::Push,
        Op::Dup | Op::Pop | Op::Over | Op::A => Change::Push,
        Op::StoreP | Op::StorePlus | Op::StoreB | Op::Store => Change::Pop,
        Op::Plus | Op::And | Op::Or | Op::Drop => Change::Pop,
        Op::Push | Op::BStore | Op::AStore => Change::Pop,
        _ => Change::Keep,
    }
}

/// What an opcode does to the return stack, by R before it (the F18A reference, DB001).
fn return_change(op: Op, r: Word18) -> Change
    ensures { result ≡ return_change op r }
{
    match op {
        Op::Call | Op::Push => Change::Push,
        Op::Return | Op::Pop => Change::Pop,
        Op::Micronext | Op::Next => loop_change(r),
        _ => Change::Keep,
    }
}

/// The end of a loop pops its counter.
fn loop_change(r: Word18) -> Change
    ensures { result ≡ loop_change r }
{
    if r.get() == 0 {
        Change::Pop
    } else {
        Change::Keep
    }
}

/// Adds a line for each stack.
fn push_depths(
    text: &mut String,
    images: Option<&Images>,
    node: Node,
    depths: &StackDepths,
) -> Result<(), AllocError>
    ensures { OnOk result (string_bytes text.new ≡ string_bytes text.old
        ++ depths_text (images_in images.entry) node depths.now) }
{
    push_depth(text, images, node, "data", DATA_ROOM, &depths.data_stack)?;
    push_depth(
        text,
        images,
        node,
        "return",
        RETURN_ROOM,
        &depths.return_stack,
    )?;
    Ok(())
}

/// Adds the line of a stack with a name.
fn push_depth(
    text: &mut String,
    images: Option<&Images>,
    node: Node,
    stack: &str,
    room: u64,
    depth: &StackDepth,
) -> Result<(), AllocError>
    ensures { OnOk result (string_bytes text.new ≡ string_bytes text.old
        ++ depth_line (images_in images.entry) node stack.now room depth.now) }
{
    write!(text, "{stack} {} of {room}", depth.most)?;
    push_passed(text, images, node, depth.passed)?;
    text.push_str("\n")
}

/// Adds where a stack held more words than it has room for, if it did.
fn push_passed(
    text: &mut String,
    images: Option<&Images>,
    node: Node,
    passed: Option<u16>,
) -> Result<(), AllocError>
    ensures { OnOk result (string_bytes text.new ≡ string_bytes text.old
        ++ passed_text (images_in images.entry) node passed) }
{
    let Some(address) = passed else {
        return Ok(());
    };
    let shown = Hex3::new(address % 0x400);
    write!(text, ", passed at {shown}")?;
    push_label(text, images, node, locate(address))?;
    Ok(())
}

/// Adds that these turns have fewer steps than the node has made.
fn push_fewer(text: &mut String, steps: u64, all: u64) -> Result<(), AllocError>
    ensures { OnOk result (string_bytes text.new
        ≡ string_bytes text.old ++ fewer_text steps all) }
{
    write!(text, "in the first {steps}")?;
    writeln!(text, " of {all} steps")?;
    Ok(())
}

/// Adds in what these turns differ from the steps that the node has made.
fn push_remark(
    alloc: Global,
    text: &mut String,
    made: &NodeState,
    here: &NodeState,
) -> Result<(), AllocError>
    ensures { OnOk result (string_bytes text.new
        ≡ string_bytes text.old ++ remark made.now here.now) }
{
    let (steps, all) = (made.steps(), here.steps());
    if steps < all {
        return push_fewer(text, steps, all);
    }
    if made.line(alloc)? != here.line(alloc)? {
        text.push_str("in another schedule\n")?;
    }
    Ok(())
}
