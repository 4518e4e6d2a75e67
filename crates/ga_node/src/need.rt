ghost use Rattle.std.specs.Prelude.{◌≡◌, ℕ, IfSome, None, Some};
ghost use Rattle.ga_node.specs.Line.{need_text, stop_text};
ghost use Rattle.ga_node.specs.Need.{body_need, fetch_need, held_need, input_need, need_of, read_need, write_need};
ghost use Rattle.ga_node.specs.inner.Work.{load_need, wants_by_work};
ghost use Rattle.ga_node.specs.declared.need.Need.TheVariants.{Check, Post, Take};
ghost use Rattle.ga_place.specs.Address.{where_is};

use crate::place::Place;
use crate::state::NodeState;
use crate::work::Work;
use ga_place::{Side, Sides, Where, locate, ports_at};
use ga_word::Word18;
use std::fmt;

/// Why a node stops. A stop is a fact of the state: nothing changes from then on.
#[derive(Clone, Copy, Debug, PartialEq, Eq)]
pub enum Stop {
    /// A write to several ports (profile).
    MultiWrite,
    /// A read or a fetch at io (profile).
    IoRead,
    /// A read, a fetch or a write at an address at which nothing is mapped (profile).
    Unmapped,
    /// A read or a fetch in ROM except at the warm word, or a write to ROM (profile).
    Rom,
    /// The steps have reached the largest number that is counted, 2^64 - 1 (profile).
    Counted,
}

impl fmt::Display for Stop {
    ghost output = { λ stop. Some (stop_text stop) };

    fn fmt<W: fmt::Write>(&self, f: &mut fmt::Formatter<W>) -> fmt::Result {
        f.write_str(match self {
            Stop::MultiWrite => "MultiWrite",
            Stop::IoRead => "IoRead",
            Stop::Unmapped => "Unmapped",
            Stop::Rom => "Rom",
            Stop::Counted => "Counted",
        })
    }
}

/// What a node needs for its next step.
#[derive(Clone, Copy, Debug, PartialEq, Eq)]
pub enum Need {
    /// Nothing from outside: the step is the node's own.
    Own,
    /// A word from the port of one of these sides.
    Take(Sides),
    /// Room for this word at the port of this side.
    Post(Side, Word18),
    /// That the word that it posted at this side was read.
    Check(Side),
    /// The next word of its stream.
    Input,
    /// Nothing: it makes no step any more.
    Stopped(Stop),
}

impl fmt::Display for Need {
    ghost output = { λ need. Some (need_text need) };

    fn fmt<W: fmt::Write>(&self, f: &mut fmt::Formatter<W>) -> fmt::Result {
        match self {
            Need::Own => f.write_str("own"),
            Need::Take(_) => f.write_str("take"),
            Need::Post(_, _) => f.write_str("post"),
            Need::Check(_) => f.write_str("check"),
            Need::Input => f.write_str("input"),
            Need::Stopped(stop) => write!(f, "stopped {stop}"),
        }
    }
}

/// The index in ROM of its one word, at address 0A9.
const WARM: u8 = 0x29;

impl NodeState {
    /// What the node needs for its next step, by its state alone (F18A reference DB001).
    ///
    /// Of the stops, which are this project's profile, `Counted` comes before the others.
    #[inline(always)]
    #[tactic(auto, using(crate::proofs::Works::posted_wants, crate::proofs::Works::unposted_wants), unfolding(crate::specs::Need::need_of))]
    pub fn need(&self) -> Need
        ensures { result ≡ need_of self.now }
    {
        if self.steps == u64::MAX {
            return Need::Stopped(Stop::Counted);
        }
        match self.posted {
            Some((side, _)) => Need::Check(side),
            None => self.work_need(),
        }
    }

    /// The side of the post that the node needs to have been read. `None` if it needs something
    /// else, or has made the largest number of steps.
    #[inline(always)]
    #[tactic(auto, using(crate::proofs::Works::posted_wants), unfolding(crate::specs::Need::need_of))]
    pub fn checks(&self) -> Option<Side>
        ensures { IfSome result (λ side. need_of self.now ≡ Check side) }
    {
        if self.steps == u64::MAX {
            return None;
        }
        let (side, _) = self.posted?;
        Some(side)
    }

    /// The sides at which the opcode in the node's slot needs a word. `None` if the node needs
    /// something else, or has made the largest number of steps.
    #[inline(always)]
    #[tactic(auto, using(crate::proofs::Works::unposted_wants), unfolding(crate::specs::Need::need_of))]
    pub fn takes(&self) -> Option<Sides>
        ensures { IfSome result (λ sides. need_of self.now ≡ Take sides) }
    {
        if self.steps == u64::MAX {
            return None;
        }
        match self.work() {
            Work::FetchP => ports_at(self.p),
            Work::FetchB => ports_at(self.b),
            Work::FetchPlus | Work::Fetch => ports_at(address_in(self.a)),
            _ => None,
        }
    }

    /// The side at which the opcode in the node's slot needs room for T. `None` if the node needs
    /// something else, or has made the largest number of steps.
    #[inline(always)]
    #[tactic(auto, using(crate::proofs::Works::unposted_wants), unfolding(crate::specs::Need::need_of))]
    pub fn posts(&self) -> Option<Side>
        ensures { IfSome result (λ side. need_of self.now ≡ Post side self.now.t) }
    {
        if self.steps == u64::MAX || self.posted.is_some() {
            return None;
        }
        match self.work() {
            Work::StoreP => port_at(self.p),
            Work::StoreB => port_at(self.b),
            Work::StorePlus | Work::Store => port_at(address_in(self.a)),
            _ => None,
        }
    }

    /// What a node that has posted nothing needs, by the work at its place.
    #[inline(always)]
    fn work_need(&self) -> Need
        requires { self.now.posted ≡ None }
        ensures { result ≡ wants_by_work self.now }
    {
        match self.work() {
            Work::FetchP | Work::Refetch => read_need(locate(self.p)),
            Work::FetchB => read_need(locate(self.b)),
            Work::FetchPlus | Work::Fetch => read_need(locate(address_in(self.a))),
            Work::StoreP => write_need(locate(self.p), self.t),
            Work::StoreB => write_need(locate(self.b), self.t),
            Work::StorePlus | Work::Store => write_need(locate(address_in(self.a)), self.t),
            Work::Load => self.load_need(),
            _ => Need::Own,
        }
    }

    /// What the loader needs outside the body of a frame: the next word of the stream.
    fn load_need(&self) -> Need
        ensures { result ≡ load_need self.now.place self.now }
    {
        match self.place {
            Place::Body => self.body_need(),
            _ => Need::Input,
        }
    }

    /// What the loader needs in the body of a frame: the check of a post, the post of the word that
    /// it holds, or the next word of its stream, if that may be written.
    fn body_need(&self) -> Need
        ensures { result ≡ body_need self.now.posted self.now.loader.held self.now.loader.transfer }
    {
        if let Some((side, _)) = self.posted {
            return Need::Check(side);
        }
        let at = locate(address_in(self.loader.transfer));
        match self.loader.held {
            Some(word) => held_need(at, word),
            None => input_need(at),
        }
    }
}

/// The side whose port alone an address reaches, if it does.
#[inline(always)]
fn port_at(address: u16) -> Option<Side>
    ensures { IfSome result (λ side. (word : ℕ)
        → write_need (where_is address) word ≡ Post side word) }
{
    ports_at(address)?.only()
}

/// What a fetch needs, by P.
#[inline(always)]
pub(crate) fn fetch_need(p: u16) -> Need
    ensures { result ≡ fetch_need p }
{
    read_need(locate(p))
}

/// A word as an address: what it reaches depends on its low nine bits.
#[inline(always)]
pub(crate) fn address_in(word: Word18) -> u16
    ensures { where_is result ≡ where_is word }
{
    (word.get() % 0x200) as u16
}

/// What a write of a word needs, by what its address reaches.
#[inline(always)]
pub(crate) fn write_need(at: Where, word: Word18) -> Need
    ensures { result ≡ write_need at word }
{
    match at {
        Where::Ram(_) | Where::Io => Need::Own,
        Where::Rom(_) => Need::Stopped(Stop::Rom),
        Where::Ports(sides) => match sides.only() {
            Some(side) => Need::Post(side, word),
            None => Need::Stopped(Stop::MultiWrite),
        },
        Where::Unmapped => Need::Stopped(Stop::Unmapped),
    }
}

/// What the post of a word that the loader holds needs, by what its address reaches.
fn held_need(at: Where, word: Word18) -> Need
    ensures { result ≡ held_need at word }
{
    match at {
        Where::Ports(_) => write_need(at, word),
        _ => Need::Stopped(Stop::Unmapped),
    }
}

/// What the loader needs to take a word, by what its address reaches: a word of the stream, or a
/// stop if a write stops.
fn input_need(at: Where) -> Need
    ensures { result ≡ input_need (write_need at 0) }
{
    match write_need(at, Word18::default()) {
        Need::Stopped(stop) => Need::Stopped(stop),
        _ => Need::Input,
    }
}

/// What a read needs, by what its address reaches.
#[inline(always)]
pub(crate) fn read_need(at: Where) -> Need
    ensures { result ≡ read_need at }
{
    match at {
        Where::Ram(_) => Need::Own,
        Where::Rom(index) if index == WARM => Need::Own,
        Where::Rom(_) => Need::Stopped(Stop::Rom),
        Where::Ports(sides) => Need::Take(sides),
        Where::Io => Need::Stopped(Stop::IoRead),
        Where::Unmapped => Need::Stopped(Stop::Unmapped),
    }
}
