//! The sections of a text that name a node.
ghost use Rattle.std.specs.Prelude.{◌≡◌, ◌≤◌, All, IfOk, filter, length, map, slice_get, slice_range};
ghost use Rattle.std.specs.List.{find};
ghost use Rattle.ga_pack.specs.Model.Text.{lexemes, texts_of};
ghost use Rattle.ga_source.specs.Token.{token_of};
ghost use Rattle.ga_place.specs.Node.{node_named};
ghost use Rattle.ga_faults.specs.Sections.{has_line, has_name, is_node, names_node};

use crate::sections::{Section, token_text};
use ga_place::Node;
use ga_source::{Token, tokens};
use std::alloc::{AllocError, Global};

/// The first of some sections of a text that names a node.
pub(crate) fn section_naming(
    alloc: Global,
    text: &str,
    sections: &[Section],
    node: Node,
) -> Result<Option<Section>, AllocError>
    ensures { IfOk result (λ section. section ≡ find (names_node text.now node) sections.now) }
{
    let tokens = tokens(alloc, text)?;
    for section in sections {
        if names_node(*section, text, &tokens, node) {
            return Ok(Some(*section));
        }
    }
    Ok(None)
}

/// Whether a section of a text with these tokens names a node.
fn names_node(section: Section, text: &str, tokens: &[Token], node: Node) -> bool
    requires inside { All (λ t. (t.start ≤ t.end) × (t.end ≤ length text.now)) tokens.now }
    requires tokens { tokens.now ≡ map token_of (lexemes text.now) }
    requires slices { map (λ t. slice_range text.now t.start t.end) tokens.now ≡ texts_of text.now }
    ensures { result ≡ names_node text.now node section }
{
    match name_in(section, tokens) {
        Some(token) => has_name(token_text(text, token), node),
        None => false,
    }
}

/// The token behind the one with which a section begins.
fn name_in(section: Section, tokens: &[Token]) -> Option<Token>
    ensures { result ≡ slice_get (filter (λ token. has_line token.line section) tokens.now) 1 }
{
    tokens
        .iter()
        .copied()
        .filter(|token| section.has_line(token.line))
        .nth(1)
}

/// Whether a text is the name of a node, or has it between commas.
fn has_name(text: &[u8], node: Node) -> bool
    ensures { result ≡ has_name node text.now }
{
    text.split(|byte| *byte == b',')
        .any(|name| is_name(name, node))
}

/// Whether a text is the name of a node.
fn is_name(text: &[u8], node: Node) -> bool
    ensures { result ≡ is_node node (node_named text.now) }
{
    match Node::from_digits(text) {
        Some(other) => other == node,
        None => false,
    }
}
