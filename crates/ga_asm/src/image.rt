ghost use Rattle.std.specs.Prelude.{◌≡◌, ◌++◌, ◌<◌, ◌≤◌, ℕ, OnErr, OnOk, length, map, option_map, string_bytes, true};
ghost use Rattle.ga_pack.specs.Model.Layout.{address_of};
ghost use Rattle.ga_asm.specs.Image as spec;
ghost use Rattle.ga_asm.specs.Image.{ImageView, all_near, image_line, labels_of};
ghost use Rattle.ga_asm.specs.inner.Image.{Fits};

use crate::reach::address_of;
use ga_place::Node;
use ga_word::{Hex3, Word18};
use indexmap::IndexMap;
use std::alloc::AllocError;
use std::fmt::Write;
use std::marker::Model;

/// The words of a node, as they lie in its RAM from address 0 on: 1 to 64 words of 18 bits.
#[derive(Drop)]
pub struct Image {
    pub(crate) words: Vec<Word18>,
    pub(crate) code_len: usize,
    pub(crate) entry: u8,
    pub(crate) labels: IndexMap<String, u8>,
    pub(crate) item_counts: Vec<usize>,
}

impl Model for Image {
    ghost Value = { ImageView };

    ghost view = { λ image. record {
      words = image.words.items;
      code_len = image.code_len;
      entry =
          image.entry;
      labels = labels_of image.labels.entries;
      item_counts = image.item_counts.items;
    } };

    ghost invariant = { λ image.
        Fits (record {
          words = image.words.items;
          code_len = image.code_len;
          entry = image.entry;
          labels = labels_of image.labels.entries;
          item_counts = image.item_counts.items;
        }) };
}

impl Image {
    /// The words, from address 0 on.
    pub fn words(&self) -> &[Word18]
        ensures value { result.now ≡ self.now.words }
        ensures some { 0 < length result.now }
        ensures most { length result.now ≤ 64 }
    {
        self.words.as_slice()
    }

    /// How many words are code: those before `data`, or all words if the node has no `data`.
    pub fn code_len(&self) -> usize
        ensures value { result ≡ self.now.code_len }
        ensures within { result ≤ length self.now.words }
        ensures most { length self.now.words ≤ 64 }
    {
        self.code_len
    }

    /// The address at which the node begins: that of the label `main`, or 0 if no label is `main`.
    /// It is at most 64. (Profile.)
    pub fn entry(&self) -> u8
        ensures value { result ≡ self.now.entry }
        ensures bound { result ≤ 64 }
    {
        self.entry
    }

    /// The labels with their addresses, in the text's order. A label behind the last word has the
    /// number of words as its address, so an address is at most 64.
    pub fn labels(&self) -> &IndexMap<String, u8>
        ensures value { labels_of result.now.entries ≡ self.now.labels }
        ensures bound { all_near self.now.labels ≡ true }
    {
        &self.labels
    }

    /// The address of a label, if it is one of the image's.
    pub fn address_of(&self, label: &str) -> Option<u8>
        ensures { result ≡ address_of self.now.labels label.now }
    {
        address_of(&self.labels, label)
    }

    /// How many items of the node's text each of its groups has, in order: items outside brackets
    /// that share a word are a group, and any other item is one by itself.
    pub fn item_counts(&self) -> &[usize]
        ensures { result.now ≡ self.now.item_counts }
    {
        self.item_counts.as_slice()
    }

    /// Adds to a text the line of the image: the node, its entry in three hex digits, how many of
    /// its words are code and how many there are. (The line is this project's own: profile.) Fails
    /// only when out of memory, and then the text is as it was.
    pub fn push_line(&self, text: &mut String, node: Node) -> Result<(), AllocError>
        ensures line { OnOk result (string_bytes text.new
            ≡ string_bytes text.old ++ image_line node self.now) }
        ensures refused { OnErr result (string_bytes text.new ≡ string_bytes text.old) }
    {
        let mut line = String::new(*text.allocator());
        self.write_line(&mut line, node)?;
        text.push_str(&line)?;
        Ok(())
    }

    // The same, except that a part of the line may be written when out of memory.
    #[tactic(auto, unfolding(crate::specs::Image::image_line))]
    fn write_line(&self, text: &mut String, node: Node) -> Result<(), AllocError>
        ensures { OnOk result (string_bytes text.new
            ≡ string_bytes text.old ++ image_line node self.now) }
    {
        let entry = Hex3::new(u16::from(self.entry));
        let code_len = self.code_len;
        let words = self.words.len();
        writeln!(
            text,
            "node {node} entry {entry} code {code_len} words {words}"
        )?;
        Ok(())
    }
}

/// The first of some labels that has this address.
pub fn label_at(labels: &IndexMap<String, u8>, address: u32) -> Option<&str>
    ensures { option_map (λ name. name.now) result
        ≡ spec.label_at (labels_of labels.now.entries) address }
{
    for (name, at) in labels {
        if u32::from(*at) == address {
            return Some(name.as_str());
        }
    }
    None
}
