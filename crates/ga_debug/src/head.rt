ghost use Rattle.std.specs.Prelude.{◌+◌, ◌<◌, ◌^◌, IfOk, length, ok_or, option_map};
ghost use Rattle.ga_path.specs.Names.{lists_in};
ghost use Rattle.ga_debug.specs.inner.ReplayError.{Gives};
ghost use Rattle.ga_debug.specs.Head.{Loading, head_in, loading_by, up_to_go};
ghost use Rattle.ga_debug.specs.Command.{words_of};
ghost use Rattle.ga_debug.specs.inner.HeadView.{head_view, head_with};
ghost use Rattle.ga_debug.specs.declared.replay_error.ReplayError.TheVariants.{BadRoute};

use crate::pieces::Pieces;
use crate::profile::Profile;
use crate::replay_error::ReplayError;
use ga_path::read_routes;
use ga_place::Node;
use std::alloc::Global;

/// The head of a replay text: all that comes before its commands.
#[derive(Drop)]
pub(crate) struct Head<'a> {
    /// The nodes of each route along which the chip boots, or `None` if each image is placed.
    pub(crate) routes: Option<Vec<Vec<Node>>>,
    /// The source lines, each ended by LF.
    pub(crate) source: String,
    /// The number of the line `go`, counted from 1.
    pub(crate) line: u64,
    /// The lines behind it.
    pub(crate) lines: Pieces<'a>,
}

/// The head of a text of a profile, or its first fault.
#[tactic(auto, unfolding(crate::specs::Head::head_in))]
pub(crate) fn head_of<'a>(
    alloc: Global,
    profile: Profile,
    text: &'a str,
) -> Result<Head<'a>, ReplayError>
    ensures head { Gives head_view result (head_in profile text.now) }
    ensures room { IfOk result (λ head. head.line + 1 + length head.lines < 2 ^ 64) }
{
    // From the text's length the proof gets that its lines can be counted.
    let _length = text.len();
    let mut lines = Pieces::new(text, '\n');
    let Some(first) = lines.next() else {
        return Err(ReplayError::BadProfile);
    };
    if first != profile.line() {
        return Err(ReplayError::BadProfile);
    }
    let Some(line) = lines.next() else {
        return Err(ReplayError::BadRoute);
    };
    let routes = loading_of(alloc, line)?;
    let (source, line) = source_of(alloc, &mut lines)?;
    Ok(Head {
        routes,
        source,
        line,
        lines,
    })
}

/// The source lines up to the line `go`, and its number; the first line has the number 3.
fn source_of(alloc: Global, lines: &mut Pieces<'_>) -> Result<(String, u64), ReplayError>
    requires { 4 + length lines.old < 2 ^ 64 }
    ensures head { (loading : Loading)
        → Gives (λ found. head_with loading found lines.new) result
        (up_to_go loading 3 lines.old) }
    ensures room { IfOk result (λ found. found.1 + 1 + length lines.new < 2 ^ 64) }
{
    let mut source = String::new(alloc);
    let mut number = 3;
    while let Some(line) = lines.next() {
        if line == "go" {
            return Ok((source, number));
        }
        source.push_str(line)?;
        source.push('\n')?;
        number += 1;
    }
    Err(ReplayError::NoGo)
}

/// How the chip is loaded, by the words of the second line.
fn loading_of(alloc: Global, line: &str) -> Result<Option<Vec<Vec<Node>>>, ReplayError>
    ensures { Gives (λ routes. option_map (λ list. lists_in list.items) routes) result
        (ok_or (loading_by (words_of line.now)) BadRoute) }
{
    let mut words = Pieces::new(line, ' ');
    match (words.next(), words.next(), words.next()) {
        (Some(word), None, None) if word == "place" => Ok(None),
        (Some(word), Some(names), None) if word == "route" => Ok(Some(read_routes(alloc, names)?)),
        _ => Err(ReplayError::BadRoute),
    }
}
