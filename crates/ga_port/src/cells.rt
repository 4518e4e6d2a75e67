ghost use Rattle.std.specs.Prelude.{◌≡◌, ◌↔◌, ℕ, ◌<◌, ◌≤◌, ◌^◌, List, length, vec_capacity, vec_len, None, Some, OnOk, IfOk, IfSome, IsSome, true, false};
ghost use Rattle.std.specs.Slots.{IsFull, slots_items, slots_len};
ghost use mathlib.Core.Option.{some};
ghost use lib.ListN.{get_elem?};
ghost use Rattle.ga_chip.specs.declared.outcome.Try.{Try};
ghost use Rattle.ga_port.specs.Cells.{AsksForNoCell, AsksToCheck, AsksToPost, AsksToTake, IsEnd, IsMoved};
ghost use Rattle.ga_port.specs.Seat.{merged, only, tried_in, untried, without};
ghost use Rattle.ga_port.specs.Rule.{AreSmall, line_of, row_of};
ghost use Rattle.ga_port.specs.inner.Entering.{IsCellWord, pending_cells, place_of};

use crate::name::{Chosen, Named};
use crate::rule::{Acts, Finds, Gathers, InOneRun, Polls, Shares};
use crate::seat::{Nodes, PortSeat};
use crate::word::{EMPTY, full, held_by, pending};
use atomic_table::{Closed, Table};
use ga_chip::{CellRow, Chip, Try};
use ga_place::{CellId, Node};
use ga_word::Word18;
use std::alloc::{AllocError, Global};
use std::marker::{Brand, Model};

const CELLS: usize = 524;

/// How many words of the table a cell has: a line of memory, of which it uses the first word.
const LINE: usize = 8;

/// The first word of the table's last line, which is no cell's: nobody writes it.
const NO_CELL: usize = LINE * CELLS;

/// The cells of a chip, each a word that any thread can read and write in one step.
pub struct Cells {
    table: Table<u64, Nodes, Chip, InOneRun, Global>,
    room: Vec<Option<Word18>>,
}

impl Model for Cells {
    ghost use Rattle.std.specs.Prelude.{◌≡◌, ◌≤◌, vec_capacity, vec_len};
    ghost use Rattle.ga_port.specs.Cells.{CellsView};

    ghost Value = { CellsView };

    ghost view = { λ it. record {
      table = it.table.shared.table_id;
      opening = it.table.shared.key;
    } };

    ghost invariant = { λ it. (it.table.shared.table_id.words ≡ 4200)
        × (it.table.shared.table_id.slots ≡ 0) × (vec_len it.room ≡ 0)
        × (524 ≤ vec_capacity it.room) };
}

impl Cells {
    /// The cells of a chip, with the words that are pending there, and a seat that has all nodes of
    /// the chip, none of them tried yet. Fails only when out of memory. No other call allocates.
    pub fn open(alloc: Global, chip: &Chip) -> Result<(Cells, PortSeat), AllocError>
        ensures opening { IfOk result (λ made. made.0.opening ≡ chip.now) }
        ensures own { IfOk result (λ made. made.1.table ≡ made.0.table) }
        ensures nodes { IfOk result (λ made. made.1.nodes ≡ untried chip.now.parts) }
    {
        // From this the proof gets that there are 524 cells, and 144 nodes in order of name.
        chip.legal();
        let room = Vec::with_capacity(alloc, CELLS)?;
        let words = words_of(alloc, chip.cells().words())?;
        let (table, seat) = Table::of_words(alloc, words.as_slice(), chip)?;
        Ok((Cells { table, room }, PortSeat { seat }))
    }

    /// Enters a try of a node of the seat that asks to post this word in this cell: the word is
    /// pending there.
    #[inline]
    pub fn post(&self, seat: &mut PortSeat, what: Try, cell: CellId, word: Word18)
        requires own { seat.old.table ≡ self.now.table }
        requires asks { AsksToPost seat.old.nodes what cell word }
        ensures own { seat.new.table ≡ seat.old.table }
        ensures nodes { seat.new.nodes ≡ tried_in seat.old.nodes what None }
    {
        self.post_as::<Brand>(seat, what, cell, word);
    }

    /// Enters a try of a node of the seat that asks to take the word of this cell: answers the word
    /// that was pending there, if one was, and leaves the cell empty. The try is Moved exactly if
    /// it answers a word.
    #[inline]
    pub fn take(&self, seat: &mut PortSeat, what: Try, cell: CellId) -> Option<Word18>
        requires own { seat.old.table ≡ self.now.table }
        requires asks { AsksToTake seat.old.nodes what cell }
        ensures own { seat.new.table ≡ seat.old.table }
        ensures nodes { seat.new.nodes ≡ tried_in seat.old.nodes what result }
        ensures moved { IsSome result ↔ IsMoved seat.old.nodes what result }
    {
        self.take_as::<Brand>(seat, what, cell)
    }

    /// Looks whether a word is pending in the cell whose word a try of a node of the seat asks to
    /// take. If none is, this enters the try, as one that waits. If one is, it enters nothing, and
    /// `take` follows, which returns whether a word is there; no clause here promises that. It only
    /// reads, so that a waiting reader doesn't hold up the writer.
    #[inline]
    pub fn poll(&self, seat: &mut PortSeat, what: Try, cell: CellId) -> bool
        requires own { seat.old.table ≡ self.now.table }
        requires asks { AsksToTake seat.old.nodes what cell }
        ensures own { seat.new.table ≡ seat.old.table }
        ensures empty { result ≡ false → seat.new.nodes ≡ tried_in seat.old.nodes what None }
        ensures full { result ≡ true → seat.new.nodes ≡ seat.old.nodes }
    {
        self.poll_as::<Brand>(seat, what, cell)
    }

    /// Enters a try of a node of the seat that asks whether the word that it posted in this cell
    /// was read: true if none is pending there any more. The try is Moved exactly then. It only
    /// reads.
    #[inline]
    pub fn check(&self, seat: &mut PortSeat, what: Try, cell: CellId) -> bool
        requires own { seat.old.table ≡ self.now.table }
        requires asks { AsksToCheck seat.old.nodes what cell }
        ensures own { seat.new.table ≡ seat.old.table }
        ensures read { result ≡ true → seat.new.nodes ≡ tried_in seat.old.nodes what None }
        ensures moved { result ≡ true → IsMoved seat.old.nodes what None }
        // the try has the same result, whichever word is pending
        ensures unread { (word : ℕ) → result ≡ false
            → seat.new.nodes ≡ tried_in seat.old.nodes what (Some word) }
        ensures waits { (word : ℕ) → result ≡ false → ¬ IsMoved seat.old.nodes what (Some word) }
    {
        self.check_as::<Brand>(seat, what, cell)
    }

    /// Enters a try of a node of the seat that asks for no cell: the node's own work, a word of its
    /// stream, or nothing, since the node waits at a side without a neighbour, is held or is
    /// stopped. No cell is read or written.
    #[inline]
    pub fn own(&self, seat: &mut PortSeat, what: Try)
        requires own { seat.old.table ≡ self.now.table }
        requires asks { AsksForNoCell seat.old.nodes what }
        ensures own { seat.new.table ≡ seat.old.table }
        ensures nodes { seat.new.nodes ≡ tried_in seat.old.nodes what None }
    {
        self.own_as::<Brand>(seat, what);
    }

    /// A new seat with those of the seat's nodes that are named here. The old seat keeps the
    /// others.
    pub fn share(&self, seat: &mut PortSeat, names: &[Node]) -> PortSeat
        requires own { seat.old.table ≡ self.now.table }
        ensures own { (seat.new.table ≡ seat.old.table) × (result.table ≡ seat.old.table) }
        ensures left { seat.new.nodes ≡ without names.now seat.old.nodes }
        ensures shared { result.nodes ≡ only names.now seat.old.nodes }
    {
        self.share_as::<Brand>(seat, names)
    }

    /// The seat gets the nodes of another seat, which is consumed.
    pub fn gather(&self, seat: &mut PortSeat, other: PortSeat)
        requires own { seat.old.table ≡ self.now.table }
        requires other { other.table ≡ self.now.table }
        ensures own { seat.new.table ≡ seat.old.table }
        ensures nodes { seat.new.nodes ≡ merged seat.old.nodes other.nodes }
    {
        let PortSeat { seat: other } = other;
        self.table
            .shared
            .join_seat::<Gathers>(&mut seat.seat, other);
    }

    /// The cells at the end. There is a run from the opening chip, a list of tries, that leads to
    /// them: of each of its nodes the seat has the part in the last chip of that run, and the sides
    /// that the tries of the node name. The row is in room that `open` made.
    pub fn close(self, seat: PortSeat) -> CellRow
        requires { seat.table ≡ self.table }
        ensures { (tries : List Try) × IsEnd self.opening seat.nodes result tries }
    {
        let Cells { table, room } = self;
        let PortSeat { seat } = seat;
        let closed = table.close_with(seat);
        let words = words_back(&closed, room, CELLS);
        closed.free();
        CellRow::new(words)
    }

    // Each call above has a body `..._as` with a type parameter, the type `Brand`. It represents
    // the try or the names of the call, since a step on the table gets the try that it enters as a
    // type: when the step runs there is no value of it.

    #[inline(always)]
    fn post_as<T: Named>(&self, seat: &mut PortSeat, _what: Try, cell: CellId, word: Word18)
        requires own { seat.old.table ≡ self.now.table }
        requires asks { AsksToPost seat.old.nodes T.what cell word }
        ensures own { seat.new.table ≡ seat.old.table }
        ensures nodes { seat.new.nodes ≡ tried_in seat.old.nodes T.what None }
    {
        self.table
            .shared
            .store::<Acts<T>>(&mut seat.seat, place_of(cell), full(word));
    }

    #[inline(always)]
    fn take_as<T: Named>(&self, seat: &mut PortSeat, _what: Try, cell: CellId) -> Option<Word18>
        requires own { seat.old.table ≡ self.now.table }
        requires asks { AsksToTake seat.old.nodes T.what cell }
        ensures own { seat.new.table ≡ seat.old.table }
        ensures nodes { seat.new.nodes ≡ tried_in seat.old.nodes T.what result }
    {
        pending(
            self.table
                .shared
                .swap::<Finds<T>>(&mut seat.seat, place_of(cell), EMPTY),
        )
    }

    #[inline(always)]
    fn poll_as<T: Named>(&self, seat: &mut PortSeat, _what: Try, cell: CellId) -> bool
        requires own { seat.old.table ≡ self.now.table }
        requires asks { AsksToTake seat.old.nodes T.what cell }
        ensures own { seat.new.table ≡ seat.old.table }
        ensures empty { result ≡ false → seat.new.nodes ≡ tried_in seat.old.nodes T.what None }
        ensures full { result ≡ true → seat.new.nodes ≡ seat.old.nodes }
    {
        self.table
            .shared
            .load::<Polls<T>>(&mut seat.seat, place_of(cell))
            != EMPTY
    }

    #[inline(always)]
    fn check_as<T: Named>(&self, seat: &mut PortSeat, _what: Try, cell: CellId) -> bool
        requires own { seat.old.table ≡ self.now.table }
        requires asks { AsksToCheck seat.old.nodes T.what cell }
        ensures own { seat.new.table ≡ seat.old.table }
        ensures read { result ≡ true → seat.new.nodes ≡ tried_in seat.old.nodes T.what None }
        ensures unread { (word : ℕ) → result ≡ false
            → seat.new.nodes ≡ tried_in seat.old.nodes T.what (Some word) }
    {
        let held = self
            .table
            .shared
            .load::<Finds<T>>(&mut seat.seat, place_of(cell));
        held == EMPTY
    }

    #[inline(always)]
    fn own_as<T: Named>(&self, seat: &mut PortSeat, _what: Try)
        requires own { seat.old.table ≡ self.now.table }
        requires asks { AsksForNoCell seat.old.nodes T.what }
        ensures own { seat.new.table ≡ seat.old.table }
        ensures nodes { seat.new.nodes ≡ tried_in seat.old.nodes T.what None }
    {
        self.table.shared.load::<Acts<T>>(&mut seat.seat, NO_CELL);
    }

    fn share_as<T: Chosen>(&self, seat: &mut PortSeat, _names: &[Node]) -> PortSeat
        requires own { seat.old.table ≡ self.now.table }
        ensures own { (seat.new.table ≡ seat.old.table) × (result.table ≡ seat.old.table) }
        ensures left { seat.new.nodes ≡ without T.names seat.old.nodes }
        ensures shared { result.nodes ≡ only T.names seat.old.nodes }
    {
        let seat = self.table.shared.split_seat::<Shares<T>>(&mut seat.seat);
        PortSeat { seat }
    }
}

/// Where the table has the word of a cell.
#[inline(always)]
fn place_of(cell: CellId) -> usize
    ensures value { result ≡ place_of cell }
    ensures bound { cell < 524 }
{
    LINE * cell.index()
}

/// The words of a line of memory with the word of a cell.
fn line_of(pending: Option<Word18>) -> [u64; LINE]
    ensures value { result ≡ line_of pending }
    ensures bound { IfSome pending (λ word. word < 2 ^ 18) }
{
    let mut line = [EMPTY; LINE];
    line[0] = held_by(pending);
    line
}

/// What the table holds at the start: a line for each cell, and one of no cell.
#[tactic(auto, unfolding(crate::specs::Rule::row_of))]
fn words_of(alloc: Global, cells: &[Option<Word18>]) -> Result<Vec<u64>, AllocError>
    requires { length cells.now ≡ 524 }
    ensures words { IfOk result (λ made. made.items ≡ row_of cells.now) }
    ensures small { OnOk result (AreSmall cells.now) }
{
    let mut words = Vec::with_capacity(alloc, LINE * (CELLS + 1))?;
    for cell in cells {
        words.extend_from_slice(&line_of(*cell))?;
    }
    words.extend_from_slice(&line_of(None))?;
    Ok(words)
}

/// The words that are pending in `count` cells at the end, in a list that has room for them.
fn words_back(
    closed: &Closed<u64, Global>,
    mut room: Vec<Option<Word18>>,
    count: usize,
) -> Vec<Option<Word18>>
    requires words { IsFull closed.now.words × (place_of count ≤ slots_len closed.now.words) }
    requires held { (cell held : ℕ) → cell < count
        → get_elem? (slots_items closed.now.words) (place_of cell) ≡ some held → IsCellWord held }
    requires room { (vec_len room ≡ 0) × (count ≤ vec_capacity room) }
    ensures { result.items ≡ pending_cells count (slots_items closed.now.words) }
{
    for cell in 0..count {
        room.push_reserved(pending(closed.word(LINE * cell)));
    }
    room
}
