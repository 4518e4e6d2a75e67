//! The words that the nodes of a tree are sent.
ghost use Rattle.std.specs.Prelude.{◌≡◌, ◌+◌, ◌*◌, ◌<◌, ◌≤◌, ◌^◌, ◌++◌, IfErr, IfOk, OnOk, length};
ghost use Rattle.std.specs.Option.{option_copied};
ghost use Rattle.ga_place.specs.Address.{port_address_of};
ghost use Rattle.ga_path.specs.Stream.{grove, image_of};
ghost use Rattle.ga_path.specs.Tree.{AreNear};
ghost use Rattle.ga_path.specs.inner.Branches.{count_in, subtrees_of};
ghost use Rattle.ga_path.specs.Sequences.{frames, jump_to, load, own_frame, part_words, pumps, sent, start_address};
ghost use Rattle.ga_path.specs.declared.error.BootError.TheVariants.{Memory};

use crate::branches::Branches;
use crate::error::BootError;
use crate::parts::Part;
use ga_asm::{Image, Images};
use ga_frame::MORE;
use ga_place::{Node, Side, idle_address, port_address, side_to};
use ga_word::Word18;
use std::alloc::Global;

/// `@p a! @p .`: the next word goes to A, and the one behind it to T.
const SET_A: u32 = 0x04A12;
/// `push . . .`: T goes to R, as a count.
const PUSH: u32 = 0x2E9B2;
/// `@p ! unext .`: the next word is written at A, again and again.
const SEND: u32 = 0x05A72;
/// `@p !+ unext .`: the next word is written at A, which advances, again and again.
const STORE: u32 = 0x05872;
/// `. . . .`
const NOPS: u32 = 0x2C9B2;

/// A part of the boot stream of a tree, by its root and the subtrees of the root.
pub(crate) fn part_words(
    alloc: Global,
    part: Part,
    root: Node,
    branches: &Branches,
    images: &Images,
) -> Result<Vec<Word18>, BootError>
    requires near { AreNear root (subtrees_of branches.now) }
    requires few { count_in (subtrees_of branches.now) < 144 }
    ensures words { IfOk result (λ words. words.items
        ≡ part_words part root (image_of images.now root)
        (grove images.now root (subtrees_of branches.now))) }
    ensures memory { IfErr result (λ error. error ≡ Memory) }
{
    let mut words = Vec::new(alloc);
    add_frames(&mut words, part, root, branches, images)?;
    add_own_frame(&mut words, part, root, image_of(images, root))?;
    Ok(words)
}

/// Adds what the root's loader sends to the subtrees: a frame for each.
fn add_frames(
    words: &mut Vec<Word18>,
    part: Part,
    root: Node,
    branches: &Branches,
    images: &Images,
) -> Result<(), BootError>
    requires near { AreNear root (subtrees_of branches.now) }
    requires few { count_in (subtrees_of branches.now) < 144 }
    ensures words { OnOk result (words.new.items
        ≡ words.old.items ++ frames part (grove images.now root (subtrees_of branches.now))) }
    ensures memory { IfErr result (λ error. error ≡ Memory) }
{
    let Branches::Branch(node, inner, beside) = branches else {
        return Ok(());
    };
    let side = side_to(root, *node).unwrap();
    words.extend_from_slice(&[word(MORE), port(side), word(0)])?;
    let start = words.len();
    add_sent(words, part, *node, side, inner, images)?;
    // the frame's count is known only behind its words
    words[start - 1] = word((words.len() - start) as u32);
    add_frames(words, part, root, beside, images)?;
    Ok(())
}

/// Adds what a node sends to its subtrees: a pump for each.
#[cycle(subtrees)]
fn add_pumps(
    words: &mut Vec<Word18>,
    part: Part,
    parent: Node,
    branches: &Branches,
    images: &Images,
) -> Result<(), BootError>
    requires near { AreNear parent (subtrees_of branches.now) }
    requires few { count_in (subtrees_of branches.now) < 144 }
    ensures words { OnOk result (words.new.items
        ≡ words.old.items ++ pumps part (grove images.now parent (subtrees_of branches.now))) }
    ensures grows { OnOk result (length words.old.items ≤ length words.new.items) }
    ensures short { OnOk result (length words.new.items
        ≤ length words.old.items + 76 * count_in (subtrees_of branches.now)) }
    ensures memory { IfErr result (λ error. error ≡ Memory) }
{
    let Branches::Branch(node, inner, beside) = branches else {
        return Ok(());
    };
    let side = side_to(parent, *node).unwrap();
    words.extend_from_slice(&[word(SET_A), port(side), word(0), word(PUSH), word(SEND)])?;
    let start = words.len();
    add_sent(words, part, *node, side, inner, images)?;
    // the loop's count is known only behind its words
    words[start - 3] = word((words.len() - start - 1) as u32);
    add_pumps(words, part, parent, beside, images)?;
    Ok(())
}

/// Adds what a node is sent at a side.
#[cycle(subtrees)]
fn add_sent(
    words: &mut Vec<Word18>,
    part: Part,
    node: Node,
    side: Side,
    inner: &Branches,
    images: &Images,
) -> Result<(), BootError>
    requires near { AreNear node (subtrees_of inner.now) }
    requires few { count_in (subtrees_of inner.now) < 144 }
    ensures words { OnOk result (words.new.items ≡ words.old.items ++ sent part node side
        (image_of images.now node) (pumps part (grove images.now node (subtrees_of inner.now)))) }
    ensures some { OnOk result (length words.old.items < length words.new.items) }
    ensures short { OnOk result (length words.new.items
        ≤ length words.old.items + 71 + 76 * count_in (subtrees_of inner.now)) }
    ensures memory { IfErr result (λ error. error ≡ Memory) }
{
    let image = image_of(images, node);
    match part {
        Part::Load => {
            words.push(jump_to(port_address(side)))?;
            add_pumps(words, part, node, inner, images)?;
            add_load(words, image)?;
            words.push(word(NOPS))?;
            Ok(())
        }
        Part::Start => {
            add_pumps(words, part, node, inner, images)?;
            words.push(jump_to(start_address(node, image)))?;
            Ok(())
        }
    }
}

/// Adds the words that fill a node's memory, if it has an image.
fn add_load(words: &mut Vec<Word18>, image: Option<&Image>) -> Result<(), BootError>
    ensures words { OnOk result
        (words.new.items ≡ words.old.items ++ load (option_copied image.entry)) }
    ensures grows { OnOk result (length words.old.items ≤ length words.new.items) }
    ensures short { OnOk result (length words.new.items ≤ length words.old.items + 69) }
    ensures memory { IfErr result (λ error. error ≡ Memory) }
{
    let Some(image) = image else {
        return Ok(());
    };
    let own = image.words();
    let count = word(own.len() as u32 - 1);
    words.extend_from_slice(&[word(SET_A), word(0), count, word(PUSH), word(STORE)])?;
    words.extend_from_slice(own)?;
    Ok(())
}

/// Adds the root's own frame: its memory; or none, and the root starts.
fn add_own_frame(
    words: &mut Vec<Word18>,
    part: Part,
    root: Node,
    image: Option<&Image>,
) -> Result<(), BootError>
    ensures words { OnOk result (words.new.items ≡ words.old.items
        ++ own_frame part root (option_copied image.entry)) }
    ensures memory { IfErr result (λ error. error ≡ Memory) }
{
    match (part, image) {
        (Part::Load, Some(image)) => {
            let own = image.words();
            words.extend_from_slice(&[word(MORE), word(0), word(own.len() as u32)])?;
            words.extend_from_slice(own)?;
            Ok(())
        }
        (Part::Load, None) => {
            words.extend_from_slice(&[word(MORE), word(0), word(0)])?;
            Ok(())
        }
        (Part::Start, _) => {
            let start = word(u32::from(start_address(root, image)));
            words.extend_from_slice(&[start, word(0), word(0)])?;
            Ok(())
        }
    }
}

/// The image of a node, if it has one.
pub fn image_of(images: &Images, node: Node) -> Option<&Image>
    ensures { option_copied result ≡ image_of images.now node }
{
    images.images().get(&node)
}

/// The address at which a node starts: its entry, or without an image its idle address.
fn start_address(node: Node, image: Option<&Image>) -> u16
    ensures value { result ≡ start_address node (option_copied image.entry) }
    ensures bound { result < 0x200 }
{
    match image {
        Some(image) => u16::from(image.entry()),
        None => idle_address(node),
    }
}

/// `jump` to an address, in slot 0.
fn jump_to(address: u16) -> Word18
    requires { address < 0x400 }
    ensures { result ≡ jump_to address }
{
    word(0x1_0000 + u32::from(address))
}

fn port(side: Side) -> Word18
    ensures { result ≡ port_address_of side }
{
    word(u32::from(port_address(side)))
}

fn word(number: u32) -> Word18
    requires { number < 2 ^ 18 }
    ensures { result ≡ number }
{
    Word18::new(number).unwrap()
}
