//! Shared bodies, and the tokens that a `use` of one stands for.
ghost use Rattle.std.specs.Prelude.{◌≡◌, ◌++◌, IfOk, OnOk, map, option_map};
ghost use Rattle.std.specs.List.{find};
ghost use Rattle.std.specs.Str.{bytes_eq};
ghost use Rattle.ga_expand.specs.Bodies as model;
ghost use Rattle.ga_expand.specs.Expanding.{Body};
ghost use Rattle.ga_expand.specs.inner.Bodies.{filled_in, part_in};
ghost use Rattle.ga_expand.specs.inner.Role.{role_stage};

use crate::piece::Piece;
use crate::role::{Role, role_behind};
use std::alloc::AllocError;

/// A token of a body, or an argument. It may be the name of a parameter, which has a number from 0.
#[derive(Clone, Copy)]
pub(crate) struct Part<'a> {
    pub(crate) piece: Piece<'a>,
    pub(crate) parameter: Option<usize>,
}

#[derive(Drop)]
pub(crate) struct SharedBody<'a> {
    pub(crate) name: &'a [u8],
    /// How many arguments a `use` of it has.
    pub(crate) arity: usize,
    pub(crate) parts: Vec<Part<'a>>,
}

/// The body with a name.
pub(crate) fn body_named<'b, 'a>(
    bodies: &'b [SharedBody<'a>],
    name: &[u8],
) -> Option<&'b SharedBody<'a>>
    ensures { option_map (λ body. body.now) result
        ≡ find (λ body. bytes_eq body.name.now name.now) bodies.now }
{
    bodies.iter().find(|body| body.name == name)
}

/// What is behind a token, by what it is for.
pub(crate) fn behind(role: Role, text: &[u8]) -> Role
    ensures { role_stage result ≡ model.behind (role_stage role) text.now }
{
    match role {
        Role::NodeName => Role::Item,
        _ => role_behind(text),
    }
}

/// The argument, if a token is a parameter's name.
fn filled<'a>(arguments: &[Part<'a>], part: Part<'a>) -> Part<'a>
    ensures { result ≡ filled_in arguments.now part.entry }
{
    match part.parameter {
        Some(number) => arguments.get(number).copied().unwrap_or(part),
        None => part,
    }
}

/// Adds what a `use` in a body stands for, and returns what is behind it.
pub(crate) fn push_filled<'a>(
    parts: &mut Vec<Part<'a>>,
    body: &[Part<'a>],
    arguments: &[Part<'a>],
) -> Result<Role, AllocError>
    ensures parts { OnOk result (parts.new.items ≡ parts.old.items
        ++ map (filled_in arguments.now) body.now) }
    ensures role { IfOk result (λ role. role_stage role ≡ model.behind_all Body
        (map part_in (map (filled_in arguments.now) body.now))) }
{
    let mut role = Role::Item;
    for part in body {
        let part = filled(arguments, *part);
        role = behind(role, part.piece.text);
        parts.push(part)?;
    }
    Ok(role)
}

/// Adds what a `use` in the text stands for, and returns what is behind it.
pub(crate) fn push_pieces<'a>(
    pieces: &mut Vec<Piece<'a>>,
    body: &[Part<'a>],
    arguments: &[Part<'a>],
) -> Result<Role, AllocError>
    ensures pieces { OnOk result (pieces.new.items ≡ pieces.old.items
        ++ map (λ part. part.piece) (map (filled_in arguments.now) body.now)) }
    ensures role { IfOk result (λ role. role_stage role ≡ model.behind_all Body
        (map part_in (map (filled_in arguments.now) body.now))) }
{
    let mut role = Role::Item;
    for part in body {
        let part = filled(arguments, *part);
        role = behind(role, part.piece.text);
        pieces.push(part.piece)?;
    }
    Ok(role)
}
