//! What tokens of the plain language are for.
ghost use Rattle.std.specs.Prelude.{◌≡◌};
ghost use Rattle.ga_pack.specs.Model.Token as plain;
ghost use Rattle.ga_pack.specs.Model.Token.{meaning_of};
ghost use Rattle.ga_expand.specs.Expanding.{stage_by};
ghost use Rattle.ga_expand.specs.inner.Role.{mark_stage, role_stage};

use ga_word::Op;

/// What a token is for in the plain language.
#[derive(Clone, Copy)]
pub(crate) enum Role {
    /// An item, or a part of one.
    Item,
    /// The name of a node, behind `node`.
    NodeName,
    /// A number or the name of a label, behind `,` or an opcode that takes a destination.
    Value,
}

/// What the token behind one of the plain language is for.
pub(crate) fn role_behind(text: &[u8]) -> Role
    ensures { role_stage result ≡ stage_by (meaning_of text.now) }
{
    match Op::from_bytes(text) {
        Some(op) => behind_op(op),
        None => behind_mark(text),
    }
}

/// What the token behind an opcode is for.
pub(crate) fn behind_op(op: Op) -> Role
    ensures { role_stage result ≡ stage_by (plain.op op) }
{
    if op.takes_dest() {
        Role::Value
    } else {
        Role::Item
    }
}

/// What the token behind one that is no opcode is for.
pub(crate) fn behind_mark(text: &[u8]) -> Role
    ensures { role_stage result ≡ mark_stage text.now }
{
    match text {
        b"node" => Role::NodeName,
        b"," => Role::Value,
        _ => Role::Item,
    }
}
