//! The label that a refused line may have meant.
ghost use Rattle.std.specs.Prelude.{◌≡◌, ◌++◌, IfOk, OnOk, option_map, string_bytes};
ghost use Rattle.ga_asm.specs.Image.{labels_of};
ghost use Rattle.ga_debug.specs.Command.{words_of};
ghost use Rattle.ga_debug.specs.Hint.{behind_at, behind_equals, hint_of, label_meant, near_label, nearest_of, refused_word, unless_address, unless_what};

use crate::beginning::Program;
use crate::error::DebugError;
use crate::label::label_in;
use crate::pieces::Pieces;
use crate::values::{plain_what, side_named};
use crate::word::address_of;
use ga_asm::Images;
use ga_nearest::Nearest;
use ga_place::Node;
use indexmap::IndexMap;
use std::alloc::{AllocError, Global};
use std::fmt::Write;

/// Adds the label that a refused line of a transcript may have meant, if one is near.
pub(crate) fn push_hint(
    alloc: Global,
    text: &mut String,
    program: Option<&Program>,
    line: &str,
    fault: DebugError,
) -> Result<(), AllocError>
    ensures { OnOk result (string_bytes text.new ≡ string_bytes text.old
        ++ hint_of (option_map (λ program. program.now) program.entry) line.now fault) }
{
    let Some(program) = program else {
        return Ok(());
    };
    let Some(label) = label_meant(alloc, &program.images, line, fault)? else {
        return Ok(());
    };
    write!(text, ", the nearest label is {label}")?;
    Ok(())
}

/// The label that a line may have meant which is refused so.
fn label_meant<'a>(
    alloc: Global,
    images: &'a Images,
    line: &'a str,
    fault: DebugError,
) -> Result<Option<&'a str>, AllocError>
    ensures { IfOk result (λ label. option_map (λ name. name.now) label
        ≡ label_meant images.now fault (words_of line.now)) }
{
    let mut words = Pieces::new(line, ' ');
    let _verb = words.next();
    let Some(name) = words.next() else {
        return Ok(None);
    };
    let Some(node) = Node::from_digits(name.as_bytes()) else {
        return Ok(None);
    };
    let Some(word) = refused_word(images, node, fault, &mut words) else {
        return Ok(None);
    };
    match Pieces::new(word, '+').next() {
        Some(label) => near_label(alloc, images, node, label),
        None => Ok(None),
    }
}

/// The word behind a node that is refused so, if it may be meant as a label.
fn refused_word<'a>(
    images: &Images,
    node: Node,
    fault: DebugError,
    words: &mut Pieces<'a>,
) -> Option<&'a str>
    ensures { option_map (λ word. word.now) result
        ≡ refused_word images.now node fault words.old }
{
    match fault {
        DebugError::BadAddress => unless_address(words.next()?),
        DebugError::BadValue => unless_what(images, node, behind_at(words)?),
        _ => None,
    }
}

/// No label is three hex digits.
fn unless_address(word: &str) -> Option<&str>
    ensures { option_map (λ word. word.now) result ≡ unless_address word.now }
{
    match address_of(word.as_bytes()) {
        Some(_) => None,
        None => Some(word),
    }
}

/// A word that names what a node shows isn't meant as a label.
fn unless_what<'a>(images: &Images, node: Node, word: &'a str) -> Option<&'a str>
    ensures { option_map (λ word. word.now) result ≡ unless_what images.now node word.now }
{
    if side_named(word.as_bytes()).is_some() || plain_what(Some(images), node, word).is_some() {
        return None;
    }
    Some(word)
}

/// The first of some words, or the value behind `at`.
fn behind_at<'a>(words: &mut Pieces<'a>) -> Option<&'a str>
    ensures { option_map (λ word. word.now) result ≡ behind_at words.old }
{
    match words.next()? {
        "at" => behind_equals(words),
        word => Some(word),
    }
}

/// The first of some words, or the one behind `=`.
fn behind_equals<'a>(words: &mut Pieces<'a>) -> Option<&'a str>
    ensures { option_map (λ word. word.now) result ≡ behind_equals words.old }
{
    match words.next()? {
        "=" => words.next(),
        word => Some(word),
    }
}

/// The label of a node that is nearest to a word, if that is no label, and one is near.
fn near_label<'a>(
    alloc: Global,
    images: &'a Images,
    node: Node,
    word: &'a str,
) -> Result<Option<&'a str>, AllocError>
    ensures { IfOk result (λ label. option_map (λ name. name.now) label
        ≡ near_label images.now node word.now) }
{
    if label_in(Some(images), node, word).is_some() {
        return Ok(None);
    }
    match images.image_of(node) {
        Some(image) => nearest_of(alloc, word, image.labels()),
        None => Ok(None),
    }
}

/// The one of some labels that is nearest to a word, if one is near.
fn nearest_of<'a>(
    alloc: Global,
    word: &'a str,
    labels: &'a IndexMap<String, u8>,
) -> Result<Option<&'a str>, AllocError>
    ensures { IfOk result (λ label. option_map (λ name. name.now) label
        ≡ nearest_of word.now (labels_of labels.now.entries)) }
{
    let mut nearest = Nearest::to(word);
    for (label, _) in labels {
        nearest.offer(alloc, label.as_str())?;
    }
    Ok(nearest.name())
}
