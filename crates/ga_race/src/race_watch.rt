ghost use Rattle.std.specs.Prelude.{◌≡◌, ◌⊎◌, ℕ, ◌+◌, ◌<◌, true, IfOk, IfSome, List, [], None, Some, get_or, is_some, replicate, unwrap_or};
ghost use Rattle.ga_place.specs.Side.{neighbour_of};
ghost use Rattle.ga_observe.specs.declared.step.Step.{Step as step};
ghost use Rattle.ga_observe.specs.declared.step.Deed.TheVariants.{Posted, SawRead, Took};
ghost use Rattle.ga_race.specs.Found.{IsTake};
ghost use Rattle.ga_race.specs.Shown.{HasSeen, HasSeenFrom, Kept, Shows};
ghost use Rattle.ga_race.specs.Watch.{AreCounted, CountsFit, Watch, count_of, first_watch, is_early_by, watch_on, watch_step};
ghost use Rattle.ga_race.specs.declared.found.MultiportTake.{MultiportTake as multiport_take};
ghost use Rattle.ga_race.specs.declared.found.Race.{Race as race};
ghost use Rattle.ga_race.specs.inner.Adds.{Adds, EarlyBy, TakeAdds};
ghost use Rattle.ga_race.specs.inner.Parts.{all_left, left_put, post_joined, post_kept, race_put, side_left, take_joined, take_kept, ticked, word_put};

use crate::clock::Clock;
use crate::found::{MultiportTake, Post, Race, SideWord};
use crate::ports::{is_left, read};
use ga_chip::Chip;
use ga_node::Place;
use ga_observe::{Deed, Observer, Step};
use ga_place::{CellId, Node, Side, Sides, cell, neighbour};
use ga_word::Word18;
use std::alloc::{AllocError, Global};
use std::marker::Model;

/// An observer that finds races by clocks.
#[derive(Drop)]
pub struct RaceWatch {
    // The clocks: for each node, and for the last post and the last take of each cell.
    nodes: Vec<Clock>,
    posts: Vec<Clock>,
    takes: Vec<Clock>,
    // For each cell the word pending there, and the last multiport take that left the cell out.
    words: Vec<Option<Word18>>,
    left: Vec<Option<MultiportTake>>,
    race: Option<Race>,
    // The words that were pending before the first step, by which the contracts speak of the run.
    start: Vec<Option<Word18>>,
    // Details for a report: when the last word of each cell was posted, and P before each node's
    // last fetch.
    posted: Vec<Option<Post>>,
    fetched: Vec<Option<u16>>,
}

impl Model for RaceWatch {
    ghost use Rattle.std.specs.Prelude.{◌≡◌, length, vec_items};
    ghost use Rattle.ga_observe.specs.declared.step.Deed.TheVariants.{Posted, SawRead, Took};
    ghost use Rattle.ga_race.specs.Shown.{Kept};

    ghost Value = { Kept };

    ghost view = { λ watch. record {
      nodes = vec_items watch.nodes;
      posts = vec_items watch.posts;
      takes = vec_items watch.takes;
      words = vec_items watch.words;
      left = vec_items watch.left;
      race = watch.race;
      start = vec_items watch.start;
    } };

    ghost invariant = { λ watch. (length (vec_items watch.nodes) ≡ 144)
        × (length (vec_items watch.posts) ≡ 524) × (length (vec_items watch.takes) ≡ 524)
        × (length (vec_items watch.words) ≡ 524) × (length (vec_items watch.left) ≡ 524)
        × (length (vec_items watch.posted) ≡ 524) × (length (vec_items watch.fetched) ≡ 144) };
}

impl RaceWatch {
    /// The watch over a chip from now on.
    pub fn new(alloc: Global, chip: &Chip) -> Result<Self, AllocError>
        ensures start { IfOk result (λ watch. watch.start ≡ chip.now.cells) }
        ensures seen { IfOk result (λ watch. HasSeen watch []) }
    {
        let pending = chip.cells().words();
        let mut words = Vec::new(alloc);
        words.extend_from_slice(pending)?;
        let mut start = Vec::new(alloc);
        start.extend_from_slice(pending)?;
        Ok(RaceWatch {
            nodes: clocks(alloc, 144)?,
            posts: clocks(alloc, 524)?,
            takes: clocks(alloc, 524)?,
            words,
            left: no_takes(alloc)?,
            race: None,
            start,
            posted: vec![in alloc; None; 524]?,
            fetched: vec![in alloc; None; 144]?,
        })
    }

    /// Whether the steps that were seen have a race.
    pub fn found(&self) -> bool
        ensures kept { result ≡ is_some self.now.race }
        ensures race { (steps : List step) → HasSeen self.now steps → AreCounted steps
            → result ≡ (watch_on (first_watch self.now.start) steps).race }
    {
        self.race.is_some()
    }

    /// How many steps of a second node come before the last step of a first one, by causes, or are
    /// that step.
    pub(crate) fn known(&self, node: Node, other: Node) -> u64
        ensures { (w : Watch) → Shows self.now w → result ≡ w.clocks.nodes node other }
    {
        self.nodes[node.index()].at(other.index())
    }

    /// The first race that was found.
    pub fn race(&self) -> Option<Race>
        ensures { result ≡ self.now.race }
    {
        self.race
    }
}

/// No multiport take for any cell.
fn no_takes(alloc: Global) -> Result<Vec<Option<MultiportTake>>, AllocError>
    ensures { IfOk result (λ takes. takes.items ≡ replicate 524 None) }
{
    let takes = vec![in alloc; None; 524]?;
    Ok(takes)
}

/// A number of clocks without steps.
fn clocks(alloc: Global, count: usize) -> Result<Vec<Clock>, AllocError>
    ensures { IfOk result (λ clocks. clocks.items ≡ replicate count (replicate 144 0)) }
{
    let clock = Clock::new();
    vec![in alloc; clock; count]
}

impl Observer for RaceWatch {
    ghost has_seen = { λ begun watch steps. HasSeenFrom begun watch steps };

    fn see(&mut self, step: Step) {
        if let Some(count) = step.number.checked_add(1) {
            self.note(&step, count);
        }
    }
}

impl RaceWatch {
    /// Keeps a step, by its count.
    fn note(&mut self, step: &Step, count: u64)
        requires { count ≡ count_of step.now }
        ensures shows { (w : Watch) → Shows self.old w → Shows self.new (watch_step w step.now) }
        ensures start { self.new.start ≡ self.old.start }
        ensures adds { (w : Watch) → Shows self.old w → Adds w self.old self.new step.now }
    {
        self.act(step, count);
        self.fetch(step);
    }

    /// Keeps P before a fetch.
    fn fetch(&mut self, step: &Step)
        ensures { self.new ≡ self.old }
    {
        if let Place::Fetch = step.place {
            self.fetched[step.node.index()] = Some(step.p);
        }
    }

    /// Keeps what a step did, by its count.
    fn act(&mut self, step: &Step, count: u64)
        requires { count ≡ count_of step.now }
        ensures shows { (w : Watch) → Shows self.old w → Shows self.new (watch_step w step.now) }
        ensures start { self.new.start ≡ self.old.start }
        ensures adds { (w : Watch) → Shows self.old w → Adds w self.old self.new step.now }
    {
        match step.deed {
            Deed::Own => self.tick(step.node, count),
            Deed::Posted(side, word) => self.post(step, count, side, word),
            Deed::Took { side, of, word } => self.take(step, count, side, of, word),
            Deed::SawRead(side) => self.check(step, count, side),
            Deed::TookInput(_) => self.tick(step.node, count),
        }
    }

    /// A post: its clock is kept for its cell. It is a race if the cell's reader left the cell out
    /// by a multiport take that doesn't come before the post by causes.
    fn post(&mut self, step: &Step, count: u64, side: Side, word: Word18)
        requires count { count ≡ count_of step.now }
        requires deed { step.now.deed ≡ Posted side word }
        ensures shows { (w : Watch) → Shows self.old w → Shows self.new (watch_step w step.now) }
        ensures start { self.new.start ≡ self.old.start }
        ensures adds { (w : Watch) → Shows self.old w → Adds w self.old self.new step.now }
    {
        let node = step.node;
        self.tick(node, count);
        let Some(cell) = cell(node, side) else {
            return;
        };
        let post = self.post_at(step);
        self.look_back(node, side, cell, word, post);
        self.keep_post(node, cell);
        self.put_word(cell, Some(word));
        self.put_posted(cell, post);
    }

    /// A take: it comes after the post of its word.
    fn take(&mut self, step: &Step, count: u64, side: Side, of: Sides, word: Word18)
        requires count { count ≡ count_of step.now }
        requires deed { step.now.deed ≡ Took side of word }
        ensures shows { (w : Watch) → Shows self.old w → Shows self.new (watch_step w step.now) }
        ensures start { self.new.start ≡ self.old.start }
        ensures adds { (w : Watch) → Shows self.old w → Adds w self.old self.new step.now }
    {
        let node = step.node;
        self.choose(step, side, of, word);
        let Some(cell) = read(node, side) else {
            self.tick(node, count);
            return;
        };
        self.join_post(node, cell);
        self.tick(node, count);
        self.keep_take(node, cell);
        self.put_word(cell, None);
    }

    /// A check: it comes after the take of the word that the node had posted.
    fn check(&mut self, step: &Step, count: u64, side: Side)
        requires count { count ≡ count_of step.now }
        requires deed { step.now.deed ≡ SawRead side }
        ensures shows { (w : Watch) → Shows self.old w → Shows self.new (watch_step w step.now) }
        ensures start { self.new.start ≡ self.old.start }
        ensures adds { (w : Watch) → Shows self.old w → Adds w self.old self.new step.now }
    {
        let node = step.node;
        let Some(cell) = cell(node, side) else {
            self.tick(node, count);
            return;
        };
        self.join_take(node, cell);
        self.tick(node, count);
    }

    /// Puts the count of a node's step into the node's clock.
    fn tick(&mut self, node: Node, count: u64)
        ensures shows { (w : Watch) → Shows self.old w → Shows self.new (ticked node count w) }
        ensures start { self.new.start ≡ self.old.start }
        ensures left { self.new.left ≡ self.old.left }
        ensures race { self.new.race ≡ self.old.race }
    {
        let index = node.index();
        self.nodes[index].put(index, count);
    }

    /// Joins a node's clock with that of a cell's last post.
    fn join_post(&mut self, node: Node, cell: CellId)
        ensures shows { (w : Watch) → Shows self.old w → Shows self.new (post_joined node cell w) }
        ensures start { self.new.start ≡ self.old.start }
        ensures left { self.new.left ≡ self.old.left }
        ensures race { self.new.race ≡ self.old.race }
    {
        self.nodes[node.index()].join(&self.posts[cell.index()]);
    }

    /// Joins a node's clock with that of a cell's last take.
    fn join_take(&mut self, node: Node, cell: CellId)
        ensures shows { (w : Watch) → Shows self.old w → Shows self.new (take_joined node cell w) }
        ensures start { self.new.start ≡ self.old.start }
        ensures left { self.new.left ≡ self.old.left }
        ensures race { self.new.race ≡ self.old.race }
    {
        self.nodes[node.index()].join(&self.takes[cell.index()]);
    }

    /// Keeps a node's clock for a cell into which it posts.
    fn keep_post(&mut self, node: Node, cell: CellId)
        ensures shows { (w : Watch) → Shows self.old w → Shows self.new (post_kept node cell w) }
        ensures start { self.new.start ≡ self.old.start }
        ensures left { self.new.left ≡ self.old.left }
        ensures race { self.new.race ≡ self.old.race }
    {
        self.posts[cell.index()] = self.nodes[node.index()];
    }

    /// Keeps a node's clock for a cell from which it takes.
    fn keep_take(&mut self, node: Node, cell: CellId)
        ensures shows { (w : Watch) → Shows self.old w → Shows self.new (take_kept node cell w) }
        ensures start { self.new.start ≡ self.old.start }
        ensures left { self.new.left ≡ self.old.left }
        ensures race { self.new.race ≡ self.old.race }
    {
        self.takes[cell.index()] = self.nodes[node.index()];
    }

    /// Keeps which word is pending in a cell.
    fn put_word(&mut self, cell: CellId, word: Option<Word18>)
        ensures shows { (w : Watch) → Shows self.old w → Shows self.new (word_put cell word w) }
        ensures start { self.new.start ≡ self.old.start }
        ensures left { self.new.left ≡ self.old.left }
        ensures race { self.new.race ≡ self.old.race }
    {
        self.words[cell.index()] = word;
    }

    /// The word pending in a cell.
    fn pending(&self, cell: CellId) -> Option<Word18>
        ensures { (w : Watch) → Shows self.now w → result ≡ w.words cell }
    {
        let index = cell.index();
        self.words[index]
    }

    /// Keeps when the last word of a cell was posted.
    fn put_posted(&mut self, cell: CellId, post: Post)
        ensures { self.new ≡ self.old }
    {
        self.posted[cell.index()] = Some(post);
    }

    /// When a step is a post.
    fn post_at(&self, step: &Step) -> Post
        ensures { result.turn ≡ step.now.turn }
    {
        Post {
            number: step.number,
            turn: step.turn,
            address: self.fetched[step.node.index()],
        }
    }

    /// A post into a cell is a race unless it comes after the last multiport take that left the
    /// cell out, by causes.
    fn look_back(&mut self, node: Node, side: Side, cell: CellId, word: Word18, post: Post)
        ensures shows { (w : Watch) → Shows self.old w → Shows self.new (race_put
            (is_early_by (Some cell) (neighbour_of node side) (w.clocks.nodes node) w.left_at) w) }
        ensures start { self.new.start ≡ self.old.start }
        ensures left { self.new.left ≡ self.old.left }
        ensures race { (w : Watch) → Shows self.old w → (race : race) → self.new.race ≡ Some race
            → (self.old.race ≡ Some race) ⊎ EarlyBy w self.old node side cell word post race }
    {
        if let Some(take) = self.early(node, side, cell) {
            let left_out = SideWord {
                side,
                word,
                writer: node,
                post: Some(post),
            };
            self.find(&take, left_out);
        }
    }

    /// The multiport take after which a post should come by causes, and doesn't.
    fn early(&self, node: Node, side: Side, cell: CellId) -> Option<MultiportTake>
        ensures kept { IfSome result (λ take. get_or self.now.left cell None ≡ Some take) }
        ensures bound { IfSome result (λ take. cell < 524) }
        ensures early { (w : Watch) → Shows self.now w → is_some result
            ≡ is_early_by (Some cell) (neighbour_of node side) (w.clocks.nodes node) w.left_at }
    {
        let reader = neighbour(node, side)?;
        let take = self.left[cell.index()]?;
        if self.nodes[node.index()].at(reader.index()) > take.number {
            return None;
        }
        Some(take)
    }

    /// Keeps a race, if it is the first.
    fn find(&mut self, take: &MultiportTake, left_out: SideWord)
        ensures shows { (w : Watch) → Shows self.old w → Shows self.new (race_put true w) }
        ensures start { self.new.start ≡ self.old.start }
        ensures left { self.new.left ≡ self.old.left }
        ensures race { self.new.race
            ≡ Some (unwrap_or self.old.race (record { take = take.now; left_out = left_out })) }
    {
        if self.race.is_none() {
            self.race = Some(Race {
                take: *take,
                left_out,
            });
        }
    }

    /// Keeps which cells a take leaves out, if it is a multiport take.
    fn choose(&mut self, step: &Step, side: Side, of: Sides, word: Word18)
        requires { step.now.deed ≡ Took side of word }
        ensures shows { (w : Watch) → Shows self.old w
            → Shows self.new (all_left step.now.node of side (count_of step.now) w) }
        ensures start { self.new.start ≡ self.old.start }
        ensures adds { (w : Watch) → Shows self.old w → Adds w self.old self.new step.now }
    {
        if of.only() == Some(side) {
            return;
        }
        let take = self.multiport_take(step, side, of, word);
        self.leave(&take, Side::Right);
        self.leave(&take, Side::Down);
        self.leave(&take, Side::Left);
        self.leave(&take, Side::Up);
    }

    /// Keeps that a multiport take left out a side, if it did. It is a race if a word is there.
    fn leave(&mut self, take: &MultiportTake, side: Side)
        ensures shows { (w : Watch) → Shows self.old w → Shows self.new
            (side_left take.now.reader take.now.sides take.now.taken.side (take.now.number + 1)
            side w) }
        ensures start { self.new.start ≡ self.old.start }
        ensures adds { (w : Watch) → Shows self.old w
            → TakeAdds w.words self.old self.new take.now }
    {
        if !is_left(take.sides, take.taken.side, side) {
            return;
        }
        let Some(cell) = read(take.reader, side) else {
            return;
        };
        self.put_left(cell, take);
        if let Some(word) = self.pending(cell) {
            let left_out = self.side_word(take.reader, side, word);
            self.find(take, left_out);
        }
    }

    /// Keeps the multiport take that left out a cell.
    fn put_left(&mut self, cell: CellId, take: &MultiportTake)
        ensures shows { (w : Watch) → Shows self.old w
            → Shows self.new (left_put cell (take.now.number + 1) w) }
        ensures start { self.new.start ≡ self.old.start }
        ensures left { (at : ℕ) (one : multiport_take) → get_or self.new.left at None ≡ Some one
            → (get_or self.old.left at None ≡ Some one) ⊎ ((at ≡ cell) × (one ≡ take.now)) }
        ensures race { self.new.race ≡ self.old.race }
    {
        self.left[cell.index()] = Some(*take);
    }

    /// A take of a word at one of several sides.
    fn multiport_take(&self, step: &Step, side: Side, of: Sides, word: Word18) -> MultiportTake
        requires { step.now.deed ≡ Took side of word }
        ensures reader { result.reader ≡ step.now.node }
        ensures number { result.number ≡ step.now.number }
        ensures sides { result.sides ≡ of }
        ensures taken { result.taken.side ≡ side }
        ensures is { IsTake step.now result }
    {
        MultiportTake {
            reader: step.node,
            number: step.number,
            turn: step.turn,
            sides: of,
            place: step.place,
            p: step.p,
            address: self.fetched[step.node.index()],
            taken: self.side_word(step.node, side, word),
        }
    }

    /// A word at a side of a node.
    fn side_word(&self, node: Node, side: Side, word: Word18) -> SideWord
        ensures side { result.side ≡ side }
        ensures word { result.word ≡ word }
        ensures writer { result.writer ≡ unwrap_or (neighbour_of node side) node }
    {
        // A side at which a word is has a neighbour that wrote it.
        let writer = neighbour(node, side).unwrap_or(node);
        let post = match read(node, side) {
            Some(cell) => self.posted[cell.index()],
            None => None,
        };
        SideWord {
            side,
            word,
            writer,
            post,
        }
    }
}
