//! Runs in one thread.
ghost use Rattle.std.specs.Prelude.{◌≡◌, ℕ, ◌++◌, All};
ghost use Rattle.ga_place.specs.declared.side.Side.{Side};
ghost use Rattle.ga_chip.specs.Laws.{AgreesWith};
ghost use Rattle.ga_chip.specs.Legal.{DifferInBreaks};
ghost use Rattle.ga_chip.specs.Run.{ran, sides_of, taken_words, tries_of, written_words};
ghost use Rattle.ga_group.specs.Laws.{LeaveAlike};

use ga_chip::laws::{confluence, runs};
use ga_chip::{Chip, Try};

/// Makes tries of two chips that differ at most in breakpoints, of each in an order of its own. The
/// multiport reads must name the same sides on the common steps. Then a node that has made equally
/// many steps ends alike, and each cell passes the same words on the common steps.
pub fn two_orders(one: &mut Chip, two: &mut Chip, order: &[Try], another: &[Try])
    requires chips { DifferInBreaks one.old two.old }
    requires sides { (name : ℕ)
        → AgreesWith (sides_of one.old (tries_of order.now) name)
        (sides_of two.old (tries_of another.now) name) }
    ensures first { one.new ≡ ran one.old (tries_of order.now) }
    ensures second { two.new ≡ ran two.old (tries_of another.now) }
    ensures nodes { LeaveAlike one.new two.new }
    ensures written { (cell : ℕ)
        → AgreesWith (written_words one.old (tries_of order.now) cell)
        (written_words two.old (tries_of another.now) cell) }
    ensures taken { (cell : ℕ)
        → AgreesWith (taken_words one.old (tries_of order.now) cell)
        (taken_words two.old (tries_of another.now) cell) }
{
    one.legal();
    two.legal();
    confluence();
    runs();
    one.run(order);
    two.run(another);
}

/// The same if all tries name one side: then nothing has to be known about multiport reads.
pub fn one_side(one: &mut Chip, two: &mut Chip, order: &[Try], another: &[Try])
    requires chips { DifferInBreaks one.old two.old }
    requires named { (side : Side) × All (λ what. what.side ≡ side) order.now
        × All (λ what. what.side ≡ side) another.now }
    ensures first { one.new ≡ ran one.old (tries_of order.now) }
    ensures second { two.new ≡ ran two.old (tries_of another.now) }
    ensures nodes { LeaveAlike one.new two.new }
{
    two_orders(one, two, order, another);
}

/// The same as `two_orders`, with the first chip run in two parts: runs one after the other are one
/// run along the tries of both.
pub fn two_parts(one: &mut Chip, two: &mut Chip, front: &[Try], rest: &[Try], order: &[Try])
    requires chips { DifferInBreaks one.old two.old }
    requires sides { (name : ℕ)
        → AgreesWith (sides_of one.old (tries_of (front.now ++ rest.now)) name)
        (sides_of two.old (tries_of order.now) name) }
    ensures first { one.new ≡ ran one.old (tries_of (front.now ++ rest.now)) }
    ensures second { two.new ≡ ran two.old (tries_of order.now) }
    ensures nodes { LeaveAlike one.new two.new }
{
    one.legal();
    two.legal();
    confluence();
    runs();
    one.run(front);
    one.run(rest);
    two.run(order);
}
