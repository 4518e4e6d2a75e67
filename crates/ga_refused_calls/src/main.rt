//! Makes one call between two looks at its borrowed values, so that a test can refuse memory to it.
//!
//! The arguments are the name of the call, and its line if it takes one. It writes one line, as
//! `Told` has it. The status is 3, and nothing is written, if memory runs out outside the call, and
//! 2 if there is no call of this name.
#![tactic(auto)]

mod boots;
mod chips;
mod frames;
mod runs;
mod sessions;
mod told;
mod words;

use crate::boots::boot_told;
use crate::frames::{feed_told, read_frames_told, write_frame_told};
use crate::runs::{chip_text_told, run_workers_told};
use crate::sessions::{begin_told, command_told, reply_into_told};
use crate::told::Told;
use crate::words::{origin_told, push_words_told, tokens_told, words_text_told};
use std::alloc::AllocError;
use std::env;
use std::process::ExitCode;
use std::rt::Env;
use std::thread::Threads;
use std::time::Clock;

fn main(rt: HostRuntime) -> ExitCode {
    match told_of_arguments(&rt) {
        Ok(Some(told)) => {
            let _ = println!(&rt; "{told}");
            ExitCode::from(0)
        }
        Ok(None) => ExitCode::from(2),
        Err(_) => ExitCode::from(3),
    }
}

/// The result of the call that the arguments name.
fn told_of_arguments<Rt: Env + AllocGlobal + Threads + Clock + Sync>(
    rt: &Rt,
) -> Result<Option<Told>, AllocError> {
    let Ok(arguments) = env::args(rt) else {
        return Err(AllocError);
    };
    let mut words = Vec::new(rt.alloc());
    for argument in arguments {
        words.push(argument)?;
    }
    let mut texts = Vec::with_capacity(rt.alloc(), words.len())?;
    for word in &words {
        texts.push(word.as_str())?;
    }
    told_of(rt, texts.get(1..).unwrap_or_default())
}

/// The result of a call, which has a name and may have words behind it.
fn told_of<Rt: AllocGlobal + Threads + Clock + Sync>(
    rt: &Rt,
    words: &[&str],
) -> Result<Option<Told>, AllocError> {
    let told = match words {
        ["command", line] => command_told(rt.alloc(), line)?,
        ["reply_into", line] => reply_into_told(rt.alloc(), line)?,
        [name] => return told_alone(rt, name),
        _ => return Ok(None),
    };
    Ok(Some(told))
}

/// The same of a call with no word behind its name.
fn told_alone<Rt: AllocGlobal + Threads + Clock + Sync>(
    rt: &Rt,
    name: &str,
) -> Result<Option<Told>, AllocError> {
    let alloc = rt.alloc();
    let told = match name {
        "words_text" => words_text_told(alloc),
        "begin" => Ok(begin_told(alloc)),
        "push_words" => push_words_told(alloc),
        "tokens" => tokens_told(alloc),
        "origin" => origin_told(alloc),
        "write_frame" => write_frame_told(alloc),
        "read_frames" => read_frames_told(alloc),
        "feed" => feed_told(alloc),
        "boot" => boot_told(alloc),
        "chip_text" => chip_text_told(alloc),
        "run_workers" => run_workers_told(rt, alloc),
        _ => return Ok(None),
    }?;
    Ok(Some(told))
}
