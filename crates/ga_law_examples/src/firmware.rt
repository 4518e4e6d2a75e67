ghost use Rattle.std.specs.Prelude.{◌≡◌, ◌∷◌, IfSome, Some, replicate};
ghost use Rattle.ga_path.specs.Stream.{grove, image_of};
ghost use Rattle.ga_chip.specs.Chip.{part_of};
ghost use Rattle.ga_chip.specs.Part as model;
ghost use Rattle.ga_chip.specs.Run.{ran, tries_of};
ghost use Rattle.ga_boot.specs.Boot.{LoadTaken};
ghost use Rattle.ga_debug.specs.Beginning as begun;
ghost use Rattle.ga_laws.specs.Laws.{HasBegun};
ghost use Rattle.ga_law_examples.specs.Firmware as the;

use ga_asm::{Images, assemble_text};
use ga_chip::{Chip, Try};
use ga_debug::booted_tree;
use ga_debug::laws::boot_any_schedule;
use ga_laws::laws::headline;
use ga_path::{Route, Tree};
use ga_place::Node;
use std::alloc::Global;

/// The firmware: nodes 708, 709 and 608 have the word `. . . .`. `None` only when out of memory.
pub fn assemble_firmware(alloc: Global) -> Option<Images>
    ensures { IfSome result (λ images. images ≡ the.firmware) }
{
    let Ok(images) = assemble_text(alloc, "node 708 . node 709 . node 608 .") else {
        return None;
    };
    Some(images)
}

/// The routes 708, 709 and 708, 608 as a tree. `None` only when out of memory.
fn fork(alloc: Global) -> Option<Tree>
    ensures { IfSome result (λ tree. tree ≡ the.fork) }
{
    let root = Node::new(708)?;
    let Ok(right) = Route::new(alloc, &[root, Node::new(709)?]) else {
        return None;
    };
    let Ok(down) = Route::new(alloc, &[root, Node::new(608)?]) else {
        return None;
    };
    let Ok(tree) = Tree::new(alloc, &[right, down]) else {
        return None;
    };
    Some(tree)
}

/// A chip that boots the firmware by the tree of [`fork`]. `None` only when out of memory.
pub fn boot_firmware(alloc: Global) -> Option<Chip>
    ensures { IfSome result (λ chip. chip ≡ begun.booted_tree the.firmware the.fork) }
{
    let images = assemble_firmware(alloc)?;
    let tree = fork(alloc)?;
    let Ok(chip) = booted_tree(alloc, &tree, &images) else {
        return None;
    };
    Some(chip)
}

/// Makes tries of a chip that boots the firmware: of whichever nodes, in whatever order. If 708 has
/// taken the whole load part then, and 608 hasn't started, the memory of 608 is its image, and
/// zeros behind it.
pub fn run_firmware(chip: &mut Chip, tries: &[Try])
    requires booted { chip.old ≡ begun.booted_tree the.firmware the.fork }
    ensures chip { chip.new ≡ ran chip.old (tries_of tries.now) }
    ensures memory { (now : model.Part) → part_of chip.new 608 ≡ Some now
        → LoadTaken chip.old 708 (image_of the.firmware 708)
        (grove the.firmware 708 the.fork.subtrees) (tries_of tries.now)
        → (HasBegun chip.old the.firmware the.fork (tries_of tries.now) 608 → ⊥)
        → now.state.ram ≡ 0x2C9B2 ∷ replicate 63 0 }
{
    headline();
    boot_any_schedule();
    chip.run(tries);
}
