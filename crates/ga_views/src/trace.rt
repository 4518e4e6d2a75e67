ghost use Rattle.std.specs.Prelude.{◌≡◌, ◌++◌, ◌⊎◌, ℕ, IfErr, OnErr, OnOk, IfOk, option_map, string_bytes, take};
ghost use Rattle.std.specs.Io.KnownBytes.{Appends};
ghost use Rattle.ga_input.specs.Fault.{Answers, Gives};
ghost use Rattle.ga_views.specs.TraceJob.{IsTraceOutput, nodes_named, saved_for, text_of, turns_until_rest, wave_within};
ghost use Rattle.ga_input.specs.Writing.{Leaves};

use crate::race::TURNS;
use ga_input::{Loading, OutputFault, ServeError, Writes, open_session, write_output};
use ga_path::read_nodes;
use ga_place::Node;
use ga_trace::run;
use ga_transcript::Live;
use ga_wave::{Tracer, fits, nodes_with_image, push_end, waveform};
use std::alloc::{AllocError, Global};
use std::io::Write;

/// The most bytes of a waveform.
const MOST_BYTES: usize = 268_435_456;

/// How many bytes of a waveform are made before they are written.
const PIECE: usize = 65_536;

/// The waveform of a session's chip in a number of turns, which is written as it is made.
#[derive(Drop)]
pub struct Waveform {
    live: Live,
    nodes: Vec<Node>,
    turns: u32,
}

/// The waveform of the input's chip, in VCD. The commands behind the head of a session are done
/// first. Then come at most `turns` turns (by default 1,000,000), until no node moves but those
/// that spin. It shows the nodes that a text names, or those of the program. One of more than
/// 268,435,456 bytes is refused as [`OutputFault::TooLong`].
pub fn output(
    alloc: Global,
    loading: &Loading,
    turns: Option<u32>,
    names: &Option<String>,
    input: &[u8],
) -> Result<String, ServeError>
    ensures { Answers string_bytes (IsTraceOutput loading.now turns
        (option_map string_bytes names.now) input.now) result }
{
    let made = prepared(alloc, loading, turns, names, input)?;
    let text = made.text(alloc)?;
    Ok(text)
}

/// The same waveform, which isn't made yet.
pub fn prepared(
    alloc: Global,
    loading: &Loading,
    turns: Option<u32>,
    names: &Option<String>,
    input: &[u8],
) -> Result<Waveform, ServeError>
    ensures { Answers text_of (IsTraceOutput loading.now turns
        (option_map string_bytes names.now) input.now) result }
{
    let live = open_session(alloc, loading, input)?;
    let nodes = nodes_named(alloc, &live, names)?;
    traced(alloc, live, nodes, turns.unwrap_or(TURNS))
}

/// The save file of GTKWave for the waveform of a session: which signals it shows of the nodes that
/// a text names, or of those of the program.
pub fn save_text(alloc: Global, live: &Live, names: &Option<String>) -> Result<String, ServeError>
    ensures { Gives string_bytes result
        (saved_for live.now (option_map string_bytes names.now)) }
{
    let nodes = nodes_named(alloc, live, names)?;
    let text = ga_wave::save_text(alloc, &nodes)?;
    Ok(text)
}

/// The nodes that a text names, or those of the program.
fn nodes_named(alloc: Global, live: &Live, names: &Option<String>) -> Result<Vec<Node>, ServeError>
    ensures { Gives (λ nodes. nodes.items) result
        (nodes_named live.now (option_map string_bytes names.now)) }
{
    match names {
        Some(text) => Ok(read_nodes(alloc, text.as_str())?),
        None => Ok(nodes_with_image(alloc, live.images())?),
    }
}

/// The waveform of a session's chip, if it isn't too long.
fn traced(alloc: Global, live: Live, nodes: Vec<Node>, turns: u32) -> Result<Waveform, ServeError>
    ensures { Gives text_of result (wave_within live nodes.items turns) }
{
    let turns = turns_until_rest(alloc, &live, turns)?;
    let chip = live.chip().copied(alloc)?;
    if fits(alloc, chip, Some(live.images()), &nodes, turns, MOST_BYTES)? {
        Ok(Waveform { live, nodes, turns })
    } else {
        Err(ServeError::Output(OutputFault::TooLong))
    }
}

/// How many turns come until rest, but at most `turns`.
pub(crate) fn turns_until_rest(alloc: Global, live: &Live, turns: u32) -> Result<u32, AllocError>
    ensures { IfOk result (λ made. made ≡ turns_until_rest live.now turns) }
{
    let mut chip = live.chip().copied(alloc)?;
    Ok(run(&mut chip, turns).turns)
}

impl Waveform {
    /// All of it as one text.
    fn text(&self, alloc: Global) -> Result<String, AllocError>
        ensures { IfOk result (λ text. string_bytes text ≡ text_of self.now) }
    {
        let chip = self.live.chip().copied(alloc)?;
        waveform(
            alloc,
            chip,
            Some(self.live.images()),
            &self.nodes,
            self.turns,
        )
    }

    /// Writes it as it is made, a piece of some 65,536 bytes after another. It fails as
    /// [`ServeError::Write`], or as [`ServeError::Memory`] when out of memory; then a prefix of it
    /// was written.
    pub fn write<W: Write>(&self, alloc: Global, writer: &mut W) -> Result<(), ServeError>
        ensures written { OnOk result
            (Appends (W.contents writer.old) (W.contents writer.new) (text_of self.now)) }
        ensures part { OnErr result ((count : ℕ) × Appends
            (W.contents writer.old) (W.contents writer.new) (take count (text_of self.now))) }
        ensures fault { IfErr result (λ fault.
            (fault ≡ ServeError.Write) ⊎ (fault ≡ ServeError.Memory)) }
    {
        let mut piece = String::new(alloc);
        let chip = self.live.chip().copied(alloc)?;
        let mut tracer = Tracer::new(alloc, chip, &self.nodes, &mut piece)?;
        for turn in 0..u64::from(self.turns) {
            tracer.push_turn(&mut piece, alloc, Some(self.live.images()), turn)?;
            write_large(writer, &mut piece)?;
        }
        push_end(&mut piece, self.turns)?;
        write_output(writer, piece.as_bytes(), &mut Writes::default())
    }
}

/// Writes a piece that is large, of which nothing is left then.
fn write_large<W: Write>(writer: &mut W, piece: &mut String) -> Result<(), ServeError>
    ensures written { OnOk result (Leaves (W.contents writer.old) (W.contents writer.new)
        (string_bytes piece.old) (string_bytes piece.new)) }
    ensures part { OnErr result ((count : ℕ) × Appends
        (W.contents writer.old) (W.contents writer.new) (take count (string_bytes piece.old))) }
    ensures fault { IfErr result (λ fault. fault ≡ ServeError.Write) }
{
    if piece.len() >= PIECE {
        write_output(writer, piece.as_bytes(), &mut Writes::default())?;
        piece.clear();
    }
    Ok(())
}
