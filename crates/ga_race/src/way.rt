//! The way to a moment at which both words of a race are there.
ghost use Rattle.std.specs.Prelude.{◌≡◌, ◌≤◌, ◌++◌, [], ◌∷◌, IfOk, List, OnOk, take};
ghost use Rattle.ga_chip.specs.Chip.{Chip};
ghost use Rattle.ga_chip.specs.Run.{Event, Try as try_event, ran, side_of_turn, tries_of, turn_of};
ghost use Rattle.ga_race.specs.Way.{IsBefore, ShowsBoth};
ghost use Rattle.ga_race.specs.inner.Way.{IsOnWay, last_tries, last_turn, later_post};

use crate::counts::counts_fit;
use crate::found::{Post, Race};
use crate::race_watch::RaceWatch;
use ga_chip::{Chip, Try, side_of_turn};
use ga_observe::attempt;
use ga_place::Node;
use std::alloc::{AllocError, Global};

/// The tries that lead a chip to a moment at which both words of a race are pending and its reader
/// is about to take one of them. The chip is as at the beginning of the turn of the race's take.
///
/// They are the tries of the run that were `Moved`, up to the take or up to the post of the word
/// that was left out, without those that come after the take by causes. Fails only when out of
/// memory.
pub fn way_to(alloc: Global, chip: &mut Chip, race: &Race) -> Result<Vec<Try>, AllocError>
    ensures { IfOk result (λ way. IsBefore chip.old race.now
        → ShowsBoth (ran chip.old (tries_of way.items)) race.now) }
{
    chip.legal();
    counts_fit(chip);
    let mut watch = RaceWatch::new(alloc, chip)?;
    let mut way = Vec::new(alloc);
    let reader = race.take.reader;
    let last = last_turn(race);
    for turn in race.take.turn..last {
        push_tries(chip, &mut watch, &mut way, reader, turn, 144)?;
    }
    push_tries(chip, &mut watch, &mut way, reader, last, last_tries(race))?;
    Ok(way)
}

/// The turn of the later one of the take and the post.
fn last_turn(race: &Race) -> u64
    ensures { result ≡ last_turn race.now }
{
    match later_post(race) {
        Some(post) => post.turn,
        None => race.take.turn,
    }
}

/// How many tries of that turn there are up to the take, or to the end of the turn of the post.
fn last_tries(race: &Race) -> usize
    ensures value { result ≡ last_tries race.now }
    ensures bound { result ≤ 144 }
{
    match later_post(race) {
        Some(_) => 144,
        None => race.take.reader.index() + 1,
    }
}

/// The post of the word that was left out, if it came after the take.
fn later_post(race: &Race) -> Option<Post>
    ensures { result ≡ later_post race.now }
{
    let post = race.left_out.post?;
    let is_later = post.turn > race.take.turn
        || post.turn == race.take.turn && race.left_out.writer.index() > race.take.reader.index();
    if is_later { Some(post) } else { None }
}

/// Makes the first tries of a turn.
fn push_tries(
    chip: &mut Chip,
    watch: &mut RaceWatch,
    way: &mut Vec<Try>,
    reader: Node,
    turn: u64,
    count: usize,
) -> Result<(), AllocError>
    requires { count ≤ 144 }
    ensures { OnOk result ((start : Chip) (done : List Event)
        → IsOnWay start reader done chip.old watch.old way.old.items
        → IsOnWay start reader (done ++ take count (turn_of (side_of_turn turn)))
        chip.new watch.new way.new.items) }
{
    let side = side_of_turn(turn);
    for index in 0..count {
        let node = Node::at(index);
        push_try(chip, watch, way, reader, Try { node, side }, turn)?;
    }
    Ok(())
}

/// Makes a try. It is on the way if it was `Moved` and no step of the reader comes before it by
/// causes.
fn push_try(
    chip: &mut Chip,
    watch: &mut RaceWatch,
    way: &mut Vec<Try>,
    reader: Node,
    what: Try,
    turn: u64,
) -> Result<(), AllocError>
    ensures { OnOk result ((start : Chip) (done : List Event)
        → IsOnWay start reader done chip.old watch.old way.old.items
        → IsOnWay start reader (done ++ try_event what.node what.side ∷ [])
        chip.new watch.new way.new.items) }
{
    let Try { node, side } = what;
    let moves = attempt(chip, watch, Try { node, side }, turn).moves();
    if moves == 1 && watch.known(node, reader) == 0 {
        way.push(Try { node, side })?;
    }
    Ok(())
}
