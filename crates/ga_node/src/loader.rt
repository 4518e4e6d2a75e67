ghost use Rattle.std.specs.Prelude.{◌≡◌, None, Some, unwrap_or};
ghost use Rattle.ga_place.specs.Address.{where_is};
ghost use Rattle.ga_node.specs.Loader.{MORE, body_posted, body_taken, count_taken, frame_ended, word_done};
ghost use Rattle.ga_node.specs.Need.{held_need, input_need, wants, write_need};
ghost use Rattle.ga_node.specs.Slot.{moved};
ghost use Rattle.ga_node.specs.declared.need.Need.TheVariants.{Input, Post};
ghost use Rattle.ga_node.specs.declared.place.Place.TheVariants.{Body};

use crate::need::address_in;
use crate::place::Place;
use crate::state::NodeState;
use ga_place::{Side, Where, advance, locate};
use ga_word::Word18;

/// The completion that announces another frame.
const MORE: u32 = 0xAE;

/// What the loader of a booting node keeps of the frame that comes in: its completion, the address
/// of its next word, how many of its words are left, and the word that it took and has still to
/// post.
#[derive(Drop)]
pub(crate) struct Loader {
    pub(crate) completion: Word18,
    pub(crate) transfer: Word18,
    pub(crate) left: u32,
    pub(crate) held: Option<Word18>,
}

/// The loader's steps.
impl NodeState {
    /// A word of the stream comes in: of a frame's header, or of its body.
    pub(crate) fn load(&mut self, word: Word18)
        requires { wants self.old ≡ Input }
        ensures { self.new ≡ moved self.old (Some word) }
    {
        match self.place {
            Place::Completion => {
                self.loader.completion = word;
                self.place = Place::Transfer;
            }
            Place::Transfer => {
                self.loader.transfer = word;
                self.place = Place::Count;
            }
            Place::Count => self.take_count(word),
            _ => self.take_body(word),
        }
    }

    /// The count of a frame's words comes in. A count of 0 ends the frame.
    fn take_count(&mut self, word: Word18)
        requires { self.old.posted ≡ None }
        ensures { self.new ≡ count_taken word self.old }
    {
        self.loader.left = word.get();
        if self.loader.left == 0 {
            self.end_frame();
        } else {
            self.place = Place::Body;
        }
    }

    /// A word of a frame's body comes in: it goes into memory or io, or is held for a port.
    fn take_body(&mut self, word: Word18)
        requires input { input_need (write_need (where_is self.old.loader.transfer) 0) ≡ Input }
        requires free { self.old.posted ≡ None }
        ensures { self.new ≡ body_taken (where_is self.old.loader.transfer) word self.old }
    {
        match locate(address_in(self.loader.transfer)) {
            Where::Ram(index) => {
                self.ram[usize::from(index)] = word;
                self.loader.transfer = Word18::new(advance(self.loader.transfer.get())).unwrap();
                self.end_word();
            }
            Where::Io => {
                self.io = word;
                self.end_word();
            }
            _ => self.loader.held = Some(word),
        }
    }

    /// The word held is posted at the frame's port.
    pub(crate) fn post_held(&mut self, side: Side, word: Word18)
        requires post { held_need (where_is self.old.loader.transfer) word ≡ Post side word }
        requires place { self.old.place ≡ Body }
        ensures { self.new ≡ body_posted (where_is self.old.loader.transfer) word self.old }
    {
        self.posted = Some((side, word));
        self.loader.held = None;
    }

    /// Ends a word of the frame. After the last one the frame ends.
    pub(crate) fn end_word(&mut self)
        requires { self.old.posted ≡ None }
        ensures { self.new ≡ word_done self.old }
    {
        let left = self.loader.left;
        self.loader.left = left.saturating_sub(1);
        if left == 1 {
            self.end_frame();
        }
    }

    /// The frame ends: another frame follows, or the low ten bits of the completion become P.
    fn end_frame(&mut self)
        requires { self.old.posted ≡ None }
        ensures { self.new ≡ frame_ended self.old }
    {
        let completion = self.loader.completion.get();
        if completion == MORE {
            self.place = Place::Completion;
        } else {
            self.p = (completion % 0x400) as u16;
            self.place = Place::Fetch;
        }
    }
}
