ghost use Rattle.std.specs.Prelude.{◌<◌, ◌^◌, ℕ, string_bytes};
ghost use Rattle.ga_input.specs.Fault.{Answers};
ghost use Rattle.ga_views.specs.Race.{IsJudgedBy, IsRaceOutput, IsReport, IsShown};

use crate::race_text::verdict_text;
use crate::witness::witness_text;
use ga_chip::Chip;
use ga_input::{Loading, ServeError, input_text, is_head, loaded};
use ga_race::{Report, Verdict, race};
use std::alloc::Global;

/// The most turns by default.
pub const TURNS: u32 = 1_000_000;

/// What one run of the input's chip, of at most `turns` turns (by default 1,000,000), shows of all
/// its runs. With `witness` the text for a race is a transcript up to the moment at which both
/// words are pending.
pub fn output(
    alloc: Global,
    loading: &Loading,
    turns: Option<u32>,
    witness: bool,
    input: &[u8],
) -> Result<String, ServeError>
    ensures { Answers string_bytes (IsRaceOutput loading.now turns witness input.now) result }
{
    let text = input_text(input)?;
    let (chip, _images) = loaded(alloc, loading, text)?;
    judged(alloc, chip, turns.unwrap_or(TURNS), loading, text, witness)
}

/// The text for what a run of a chip shows, or a witness of a race.
fn judged(
    alloc: Global,
    mut chip: Chip,
    turns: u32,
    loading: &Loading,
    text: &str,
    witness: bool,
) -> Result<String, ServeError>
    ensures { Answers string_bytes
        (IsJudgedBy chip turns loading.now witness text.now) result }
{
    let start = chip.copied(alloc)?;
    match race(alloc, &mut chip, turns) {
        Ok(report) => shown(alloc, start, loading, text, &report, witness),
        Err(error) => Err(ServeError::from(error)),
    }
}

/// The text for a report on the chip of a text, or a witness of a race.
fn shown(
    alloc: Global,
    chip: Chip,
    loading: &Loading,
    text: &str,
    report: &Report,
    witness: bool,
) -> Result<String, ServeError>
    ensures { (most : ℕ) → most < 2 ^ 32 → IsReport chip most report.now → Answers string_bytes
        (IsShown chip loading.now text.now report.now witness report.now.verdict) result }
{
    if !witness {
        return Ok(verdict_text(alloc, is_head(loading, text), text, report)?);
    }
    match &report.verdict {
        Verdict::Race(found) => witness_text(alloc, loading, text, chip, found),
        Verdict::AtRest { .. } | Verdict::Round { .. } | Verdict::Open => {
            Ok(verdict_text(alloc, is_head(loading, text), text, report)?)
        }
    }
}
