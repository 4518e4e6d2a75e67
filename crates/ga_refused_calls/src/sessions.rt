//! Commands of a session over a chip on which a ring of four nodes has started.
use crate::chips::ring;
use crate::told::Told;
use ga_debug::{DebugError, Session, begin, reply_into};
use ga_place::Node;
use std::alloc::{AllocError, Global};

/// What the session has done before, so that a node is held.
const BEFORE: [&str; 2] = ["break 709 005", "turn 40"];

/// What shows whether breakpoints, passes and the tries to come are as they were.
const BEHIND: [&str; 6] = [
    "try 709 r",
    "pass 709",
    "pass 709",
    "try 709 r",
    "turn 9",
    "regs 709",
];

/// A command. After a refusal the session must give what one gives to which the command wasn't
/// given.
pub fn command_told(alloc: Global, line: &str) -> Result<Told, AllocError> {
    let mut session = begun(alloc)?;
    match session.command(alloc, line) {
        Ok(_) => Ok(Told::Answered),
        Err(fault) => {
            let is_alike = are_alike(alloc, session, begun(alloc)?)?;
            Ok(Told::failed(fault == DebugError::Memory, is_alike))
        }
    }
}

/// The borrowed text before a reply replaces it.
const KEPT: &str = "kept";

/// The beginning of a replay text.
pub fn begin_told(alloc: Global) -> Told {
    let came = begin(alloc, "profile 2\nroute 708,709\nnode 709 .\ngo\n");
    Told::answered(came.is_ok(), true)
}

/// A reply that replaces a text. After a refusal the text must be as it was, and the chip must show
/// the same as one on which as much was done.
pub fn reply_into_told(alloc: Global, line: &str) -> Result<Told, AllocError> {
    let mut chip = ring(alloc)?;
    let mut text = String::from_str(alloc, KEPT)?;
    match reply_into(alloc, &mut text, &mut chip, None, line) {
        Ok(()) => Ok(Told::Answered),
        Err(fault) => {
            let is_kept = text.as_str() == KEPT;
            let other = Session::new(ring(alloc)?);
            let is_alike = are_alike(alloc, Session::new(chip), other)?;
            Ok(Told::failed(fault == DebugError::Memory, is_alike && is_kept))
        }
    }
}

/// A session over the ring in which a node is held.
fn begun(alloc: Global) -> Result<Session, AllocError> {
    let mut session = Session::new(ring(alloc)?);
    for line in BEFORE {
        if session.command(alloc, line).is_err() {
            return Err(AllocError);
        }
    }
    Ok(session)
}

/// Whether two sessions show the same.
fn are_alike(alloc: Global, mut one: Session, mut other: Session) -> Result<bool, AllocError> {
    Ok(shown(alloc, &mut one)? == shown(alloc, &mut other)?)
}

/// All that a session shows: each node, and the replies to some commands behind that.
fn shown(alloc: Global, session: &mut Session) -> Result<String, AllocError> {
    let mut text = String::new(alloc);
    for index in 0..144 {
        let node = Node::at(index);
        for view in ["regs", "mem", "ports"] {
            push_reply(
                alloc,
                &mut text,
                session,
                &format!(in alloc; "{view} {node}")?,
            )?;
        }
    }
    for line in BEHIND {
        push_reply(alloc, &mut text, session, line)?;
    }
    Ok(text)
}

/// Adds the reply to a command to a text, or its fault.
fn push_reply(
    alloc: Global,
    text: &mut String,
    session: &mut Session,
    line: &str,
) -> Result<(), AllocError> {
    let reply = match session.command(alloc, line) {
        Ok(reply) => reply,
        Err(DebugError::Memory) => return Err(AllocError),
        Err(fault) => fault.to_string(alloc)?,
    };
    text.push_str(&reply)?;
    text.push('\n')
}
