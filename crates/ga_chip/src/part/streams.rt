//! What a node is given: words for its memory, or a stream, whole or in pieces.
ghost use Rattle.std.specs.Prelude.{◌≡◌, ◌≤◌, ◌<◌, ◌^◌, [], length, None, slice_get};
ghost use Rattle.ga_chip.specs.Chip.{given, opening, part_refusal, streaming};
ghost use Rattle.ga_chip.specs.Run.{piece_come, words_left};
ghost use Rattle.ga_chip.specs.Stream.{part_feed_refusal};

use super::NodePart;
use crate::error::ChipError;
use crate::stream::Stream;
use ga_node::NodeState;
use ga_word::Word18;

impl NodePart {
    /// Why the node can't be given words or a stream, if it can't.
    pub(crate) fn refusal(&self) -> Option<ChipError>
        ensures { result ≡ part_refusal self.now }
    {
        if self.stream.is_some() {
            Some(ChipError::AlreadyGiven)
        } else if self.state.steps() == 0 {
            None
        } else {
            Some(ChipError::Begun)
        }
    }

    /// Gives a node that has made no step words for the front of its memory, at most 64, and P an
    /// entry, an address of ten bits.
    pub(crate) fn give(&mut self, words: &[Word18], entry: u16)
        requires words { length words.now ≤ 64 }
        requires entry { entry < 2 ^ 10 }
        requires new { self.old.state.steps ≡ 0 }
        ensures { self.new ≡ given words.now entry self.old }
    {
        self.state = NodeState::loaded(self.state.node(), words, entry);
    }

    /// Gives a node that has made no step a stream, from which it loads itself.
    pub(crate) fn give_stream(&mut self, words: Vec<Word18>)
        requires new { self.old.state.steps ≡ 0 }
        ensures { self.new ≡ streaming words.items self.old }
    {
        self.state = NodeState::booting(self.state.node());
        self.stream = Some(Stream::new(words));
        self.opened = false;
    }

    /// Opens the stream of a node that has made no step: it loads itself from words that are still
    /// to come.
    pub(crate) fn open_stream(&mut self)
        requires new { self.old.state.steps ≡ 0 }
        ensures { self.new ≡ opening self.old }
    {
        self.state = NodeState::booting(self.state.node());
        self.stream = Some(Stream::open());
        self.opened = true;
    }

    /// How many words of its stream the node has not yet taken.
    pub(crate) fn stream_left(&self) -> usize
        ensures { result ≡ length (words_left self.now.stream) }
    {
        match &self.stream {
            Some(stream) => stream.len(),
            None => 0,
        }
    }

    /// The next word of the node's stream, if one is left.
    pub(crate) fn next_input(&self) -> Option<Word18>
        ensures { result ≡ slice_get (words_left self.now.stream) 0 }
    {
        match &self.stream {
            Some(stream) => stream.peek(),
            None => None,
        }
    }

    /// Why the node's stream can't be fed, if it can't.
    pub(crate) fn feed_refusal(&self) -> Option<ChipError>
        ensures { result ≡ part_feed_refusal self.now }
    {
        if !self.opened {
            Some(ChipError::NotOpen)
        } else if self.stream_left() == 0 {
            None
        } else {
            Some(ChipError::NotTaken)
        }
    }

    /// Feeds a piece to the node's stream, of which no word is left.
    pub(crate) fn feed(&mut self, words: Vec<Word18>)
        requires taken { part_feed_refusal self.old ≡ None }
        ensures part { self.new ≡ piece_come words.items self.old }
        ensures empty { words.items ≡ [] → self.new ≡ self.old }
    {
        self.stream = Some(Stream::new(words));
    }
}
