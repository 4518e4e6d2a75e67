ghost use Rattle.std.specs.Prelude.{◌≡◌, ◌++◌, ℕ, List, [], IfSome};
ghost use Rattle.ga_place.specs.Node.{IsNodeName};
ghost use Rattle.ga_path.specs.Tree.{IsSound};
ghost use Rattle.ga_law_examples.specs.Pieces as the;
ghost use Rattle.ga_law_examples.specs.inner.FarFork.{far_fork};

use ga_asm::assemble_text;
use ga_chip::Chip;
use ga_chip::laws::{ledgers, runs};
use ga_group::{Gate, Plan, run_workers};
use ga_laws::laws::headline;
use ga_path::{Route, Tree, boot_tree, image_of};
use ga_place::{Node, Side};
use ga_word::Word18;
use std::alloc::Global;
use std::thread::Threads;

/// The port that 709 shares with 708.
const RIGHT: u16 = 0x1D5;

/// How many words a node is sent beside those of its image.
const SENT_BESIDE: u64 = 8;

/// A run of workers: their plan, and the number of turns.
#[derive(Drop)]
pub struct PlannedRun {
    /// The nodes of each worker.
    pub plan: Plan,
    /// Fewer than 2^40.
    pub turns: u64,
}

/// A chip after reset with an opened stream for one node, and a breakpoint at the right port of
/// another.
fn opened(alloc: Global, root: Node, held: Node) -> Option<Chip>
    ensures { IfSome result (λ chip. the.IsFed chip root []) }
{
    let Ok(mut chip) = Chip::reset(alloc) else {
        return None;
    };
    let Ok(()) = chip.open_stream(root) else {
        return None;
    };
    chip.set_break(held, RIGHT);
    chip.legal();
    Some(chip)
}

/// Feeds a piece to a node's stream. There is no chip if the piece is refused.
fn fed(mut chip: Chip, root: Node, words: Vec<Word18>) -> Option<Chip>
    requires { IsNodeName root }
    ensures { IfSome result (λ next. (given : List ℕ) → the.IsFed chip root given
        → the.IsFed next root (given ++ words.items)) }
{
    runs();
    match chip.feed(root, words) {
        Ok(()) => Some(chip),
        Err(_) => None,
    }
}

/// Runs workers. There is no chip if the run is refused.
fn worked<R: Threads + Sync, G: Gate>(
    rt: &R,
    alloc: Global,
    chip: Chip,
    run: &PlannedRun,
    gate: &G,
) -> Option<Chip>
    ensures { IfSome result (λ next. (name : ℕ) (given : List ℕ) → the.IsFed chip name given
        → the.IsFed next name given) }
{
    runs();
    match run_workers(rt, alloc, chip, &run.plan, run.turns, gate) {
        Ok(next) => Some(next),
        Err(_) => None,
    }
}

/// Passes a node's breakpoint, and clears it.
fn released(mut chip: Chip, held: Node) -> Chip
    ensures { (name : ℕ) (given : List ℕ) → the.IsFed chip name given
        → the.IsFed result name given }
{
    runs();
    let _passed = chip.pass_break(held);
    chip.clear_break(held, RIGHT);
    chip
}

/// Boots a chip in two pieces. 709 gets a breakpoint, and 708 is fed the load part. Workers run by
/// one plan; the breakpoint is passed and cleared; workers run by the other plan; 708 is fed the
/// start part; and workers run by the first plan again. There is no chip if a piece or a run is
/// refused.
pub fn in_pieces<R: Threads + Sync, G: Gate>(
    rt: &R,
    alloc: Global,
    load: Vec<Word18>,
    start: Vec<Word18>,
    one: &PlannedRun,
    other: &PlannedRun,
    gate: &G,
) -> Option<Chip>
    ensures { IfSome result (λ chip. the.IsFed chip 708 (load.items ++ start.items)) }
{
    let root = Node::new(708)?;
    let middle = Node::new(709)?;
    let chip = fed(opened(alloc, root, middle)?, root, load)?;
    let chip = released(worked(rt, alloc, chip, one, gate)?, middle);
    let chip = fed(worked(rt, alloc, chip, other, gate)?, root, start)?;
    worked(rt, alloc, chip, one, gate)
}

/// The routes 708, 709, 710 and 708, 709, 609 as a tree. `None` only when out of memory.
fn far_fork(alloc: Global) -> Option<Tree>
    ensures tree { IfSome result (λ tree. tree ≡ far_fork) }
    ensures sound { IfSome result (λ tree. IsSound tree) }
{
    let root = Node::new(708)?;
    let middle = Node::new(709)?;
    let Ok(left) = Route::new(alloc, &[root, middle, Node::new(710)?]) else {
        return None;
    };
    let Ok(down) = Route::new(alloc, &[root, middle, Node::new(609)?]) else {
        return None;
    };
    let Ok(tree) = Tree::new(alloc, &[left, down]) else {
        return None;
    };
    Some(tree)
}

/// Boots the images of a text in pieces, by the routes 708, 709, 710 and 708, 709, 609. It answers
/// the chip if 708 has taken the load part in the end and 710 hasn't started: then 710 has its
/// image in memory. There is no chip either if the text has no image of 710, or one of the calls is
/// refused.
pub fn leaf_is_loaded<R: Threads + Sync, G: Gate>(
    rt: &R,
    alloc: Global,
    text: &str,
    one: &PlannedRun,
    other: &PlannedRun,
    gate: &G,
) -> Option<Chip>
    ensures memory { IfSome result (λ chip. the.IsLoaded text.now chip 710) }
{
    headline();
    ledgers();
    let root = Node::new(708)?;
    let middle = Node::new(709)?;
    let Ok(images) = assemble_text(alloc, text) else {
        return None;
    };
    let image = image_of(&images, Node::new(710)?)?;
    let sent = image.words().len() as u64 + SENT_BESIDE;
    let Ok(boot) = boot_tree(alloc, &far_fork(alloc)?, &images) else {
        return None;
    };
    let starts = boot.start.len();
    let chip = in_pieces(rt, alloc, boot.load, boot.start, one, other, gate)?;
    chip.legal();
    if chip.stream_left(root) > starts || chip.ledger(middle, Side::Left).read >= sent {
        return None;
    }
    Some(chip)
}
