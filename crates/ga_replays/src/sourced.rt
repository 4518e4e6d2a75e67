//! Transcripts whose head names its source.
ghost use Rattle.std.specs.Prelude.{◌≡◌, ◌++◌, ◌+◌, ◌<◌, ◌^◌, ◌∷◌, [], IfOk, OnOk, drop, length, map, option_map, string_bytes, take};
ghost use Rattle.std.specs.List.{flat_map};
ghost use Rattle.ga_pack.specs.Model.Text.{lines_of};
ghost use Rattle.ga_transcript.specs.Record.{behind_ends, lines_text};
ghost use Rattle.ga_input.specs.Fault.{Answers};
ghost use Rattle.ga_input.specs.Session.{IsSession};
ghost use Rattle.ga_messages.specs.Shown.{shown_name};
ghost use Rattle.ga_replays.specs.Sourced.{IsFaultless, IsInFile, IsJoined, IsReplacementInFile, IsSourced, fault_in_file, line_in_file, line_of_report, named_line, number_of, recording_in_file, report_in_file, text_fault_in_file, with_lines};
ghost use Rattle.ga_replays.specs.Transcript.{IsCheckOutput, IsRecordOutput};
ghost use Rattle.ga_input.specs.declared.loading.Loading.TheVariants.{Any};

use crate::source_name::fault_in_source;
use crate::{check, record};
use ga_asm::assemble_text;
use ga_debug::Pieces;
use ga_input::{
    INPUT_LIMIT, InputFault, Loading, OutputFault, ServeError, TextFault, input_text, open_session,
    push_lines, shown_fault,
};
use ga_messages::whole_line;
use ga_transcript::{Live, Unmet, without_line_end};
use std::alloc::{AllocError, Global};
use std::fmt::Write;
use std::marker::Model;

/// A transcript whose head names its source. The calls answer what those of the whole text answer,
/// in which the lines of the source are in the place of its name, by the lines of the file. A
/// contract sees the line that names the source, how many lines the source has, and the whole text.
#[derive(Drop)]
pub struct Sourced {
    line: String,
    count: u64,
    whole: String,
}

impl Model for Sourced {
    ghost use Rattle.std.specs.Prelude.{string_bytes};
    ghost use Rattle.ga_replays.specs.Sourced.{SourcedView};

    ghost Value = { SourcedView };

    ghost view = { λ sourced. record {
      line = string_bytes sourced.line;
      count = sourced.count;
      whole = string_bytes sourced.whole;
    } };
}

impl Sourced {
    /// The transcript of a text whose head names a source. The source comes from a file with a
    /// name, and is assembled first, for its faults, which have this name in front of their places.
    /// A whole text of more than 1,048,576 bytes is refused as [`InputFault::TooLong`]. `Memory`
    /// comes only when out of memory. (The texts are this project's own: profile.)
    pub fn new(alloc: Global, text: &str, path: &str, source: &[u8]) -> Result<Sourced, ServeError>
        ensures { Answers (λ sourced. sourced)
            (IsSourced text.now (shown_name path.now) source.now) result }
    {
        match source_text(alloc, source) {
            Ok(source) => with_source(alloc, text, source),
            Err(fault) => Err(fault_in_source(alloc, path, fault)?),
        }
    }

    /// The whole text.
    pub fn whole(&self) -> &str
        ensures { result.now ≡ self.now.whole }
    {
        self.whole.as_str()
    }

    /// What `check` writes.
    pub fn check(&self, alloc: Global) -> Result<String, ServeError>
        ensures { Answers string_bytes
            (IsInFile self.now (λ text. text) (IsCheckOutput self.now.whole)) result }
    {
        match check::output(alloc, self.whole.as_bytes()) {
            Ok(text) => Ok(text),
            Err(fault) => Err(self.fault_in_file(fault)),
        }
    }

    /// What `record` writes: it names the source too.
    pub fn record(&self, alloc: Global) -> Result<String, ServeError>
        ensures { Answers string_bytes
            (IsInFile self.now (recording_in_file self.now) (IsRecordOutput self.now.whole))
            result }
    {
        match record::output(alloc, self.whole.as_bytes()) {
            Ok(recording) => Ok(self.recording_in_file(alloc, recording.as_str())?),
            Err(fault) => Err(self.fault_in_file(fault)),
        }
    }

    /// What replaces the file: its recording, or `None` if it is that already.
    pub fn replacement(&self, alloc: Global) -> Result<Option<String>, ServeError>
        ensures { Answers (λ text. option_map string_bytes text) (IsReplacementInFile self.now)
            result }
    {
        match record::replacement(alloc, self.whole.as_bytes()) {
            Ok(Some(recording)) => {
                let text = self.recording_in_file(alloc, recording.as_str())?;
                if text.len() > INPUT_LIMIT {
                    return Err(ServeError::Output(OutputFault::TooLong));
                }
                Ok(Some(text))
            }
            Ok(None) => Ok(None),
            Err(fault) => Err(self.fault_in_file(fault)),
        }
    }

    /// The session that the whole text opens.
    pub fn open_session(&self, alloc: Global) -> Result<Live, ServeError>
        ensures { Answers (λ live. live)
            (IsInFile self.now (λ live. live) (IsSession Any self.now.whole)) result }
    {
        match open_session(alloc, &Loading::Any, self.whole.as_bytes()) {
            Ok(live) => Ok(live),
            Err(fault) => Err(self.fault_in_file(fault)),
        }
    }

    /// A fault of the whole text, by the lines of the file.
    pub fn fault_in_file(&self, fault: ServeError) -> ServeError
        ensures { result ≡ fault_in_file self.now.count fault }
    {
        match fault {
            ServeError::Shown { fault, shown } => {
                let fault = self.text_fault_in_file(fault);
                ServeError::Shown { fault, shown }
            }
            _ => fault,
        }
    }

    /// A fault of the whole text as a text, by the lines of the file.
    fn text_fault_in_file(&self, fault: TextFault) -> TextFault
        ensures { result ≡ text_fault_in_file self.now.count fault }
    {
        match fault {
            TextFault::EarlyReply(line) => TextFault::EarlyReply(self.line_in_file(line)),
            TextFault::Differs(line) => TextFault::Differs(self.line_in_file(line)),
            TextFault::Failed(unmet) => TextFault::Failed(Unmet {
                count: unmet.count,
                first: self.line_in_file(unmet.first),
            }),
            _ => fault,
        }
    }

    /// The line of the file for a line of the whole text behind its source.
    fn line_in_file(&self, line: u64) -> u64
        ensures { result ≡ line_in_file self.now.count line }
    {
        line.saturating_sub(self.count.saturating_sub(1))
    }

    /// A recording of the whole text, as that of the file.
    fn recording_in_file(&self, alloc: Global, recording: &str) -> Result<String, AllocError>
        ensures { IfOk result (λ text.
            string_bytes text ≡ recording_in_file self.now recording.now) }
    {
        with_lines(
            alloc,
            recording,
            self.count,
            Pieces::new(self.line.as_str(), '\n'),
        )
    }

    /// A report on the whole text, in a file without a name, as that on the file with a name.
    #[tactic(auto, unfolding(crate::specs::Sourced::report_in_file))]
    pub(crate) fn report_in_file(
        &self,
        alloc: Global,
        name: &str,
        report: &str,
    ) -> Result<String, AllocError>
        ensures { IfOk result (λ text. string_bytes text
            ≡ report_in_file self.now.count name.now report.now) }
    {
        let mut lines = Pieces::new(report, '\n');
        let mut text = String::new(alloc);
        if let Some(line) = lines.next() {
            self.push_report_line(&mut text, name, line)?;
        }
        self.push_report_lines(&mut text, name, lines)?;
        Ok(text)
    }

    /// Adds lines of a report, each behind an LF.
    fn push_report_lines(
        &self,
        text: &mut String,
        name: &str,
        lines: Pieces<'_>,
    ) -> Result<(), AllocError>
        ensures { OnOk result (string_bytes text.new
            ≡ string_bytes text.old
            ++ behind_ends (map (line_of_report self.now.count name.now) lines.entry)) }
    {
        for line in lines {
            text.push('\n')?;
            self.push_report_line(text, name, line)?;
        }
        Ok(())
    }

    /// Adds a line of a report.
    fn push_report_line(&self, text: &mut String, name: &str, line: &str) -> Result<(), AllocError>
        ensures { OnOk result (string_bytes text.new
            ≡ string_bytes text.old ++ line_of_report self.now.count name.now line.now) }
    {
        match line.strip_prefix(":") {
            Some(behind) => self.push_named_line(text, name, behind),
            None => text.push_str(line),
        }
    }

    /// Adds a line of a report that names a line of the whole text, which is behind a colon.
    fn push_named_line(&self, text: &mut String, name: &str, behind: &str) -> Result<(), AllocError>
        ensures { OnOk result (string_bytes text.new
            ≡ string_bytes text.old ++ named_line self.now.count name.now behind.now) }
    {
        let (digits, rest) = match behind.split_once(':') {
            Some((digits, rest)) => (digits, rest),
            None => (behind, ""),
        };
        let line = self.line_in_file(number_of(digits.as_bytes()));
        write!(text, "{name}:{line}:{rest}")?;
        Ok(())
    }
}

/// The text of an input that is source text, if it has no fault.
fn source_text(alloc: Global, input: &[u8]) -> Result<&str, ServeError>
    ensures { Answers (λ text. text.now) (IsFaultless input.now) result }
{
    let text = input_text(input)?;
    match assemble_text(alloc, text) {
        Ok(_images) => Ok(text),
        Err(error) => Err(shown_fault(alloc, text, error)?),
    }
}

/// The transcript of a text whose head names a source that has no fault.
fn with_source(alloc: Global, text: &str, source: &str) -> Result<Sourced, ServeError>
    ensures { Answers (λ sourced. sourced) (IsJoined text.now source.now) result }
{
    let source = without_line_end(alloc, source)?;
    let lines = Pieces::new(source.as_str(), '\n');
    let whole = with_lines(alloc, text, 1, lines.again())?;
    if whole.len() > INPUT_LIMIT {
        return Err(ServeError::Input(InputFault::TooLong));
    }
    Ok(Sourced {
        line: String::from_str(alloc, whole_line(text, 3))?,
        count: count_of(lines),
        whole,
    })
}

/// A text with these lines in the place of as many as a count says, from the third line on.
#[tactic(auto, unfolding(crate::specs::Sourced::with_lines))]
fn with_lines(
    alloc: Global,
    text: &str,
    count: u64,
    lines: Pieces<'_>,
) -> Result<String, AllocError>
    ensures { IfOk result (λ whole.
        string_bytes whole ≡ with_lines text.now count lines.entry) }
{
    let mut left = Pieces::new(text, '\n');
    let mut whole = String::new(alloc);
    push_first(&mut whole, &mut left)?;
    push_first(&mut whole, &mut left)?;
    push_lines(&mut whole, lines)?;
    skip(&mut left, count);
    push_last(&mut whole, left)?;
    Ok(whole)
}

/// Adds the first line, if there is one, ended by LF.
fn push_first(text: &mut String, lines: &mut Pieces<'_>) -> Result<(), AllocError>
    ensures text { OnOk result (string_bytes text.new
        ≡ string_bytes text.old ++ flat_map (λ line. line ++ 10 ∷ []) (take 1 lines.old)) }
    ensures lines { OnOk result (lines.new ≡ drop 1 lines.old) }
{
    if let Some(line) = lines.next() {
        text.push_str(line)?;
        text.push('\n')?;
    }
    Ok(())
}

/// Leaves out the first lines.
fn skip(lines: &mut Pieces<'_>, count: u64)
    ensures { lines.new ≡ drop count lines.old }
{
    let mut left = count;
    while left > 0 {
        lines.next();
        left -= 1;
    }
}

/// Adds lines, with LF between them.
fn push_last(text: &mut String, mut lines: Pieces<'_>) -> Result<(), AllocError>
    ensures { OnOk result (string_bytes text.new
        ≡ string_bytes text.old ++ lines_text lines.entry) }
{
    if let Some(line) = lines.next() {
        text.push_str(line)?;
    }
    push_behind(text, lines)
}

/// Adds lines, each behind an LF.
fn push_behind(text: &mut String, lines: Pieces<'_>) -> Result<(), AllocError>
    ensures { OnOk result (string_bytes text.new
        ≡ string_bytes text.old ++ behind_ends lines.entry) }
{
    for line in lines {
        text.push('\n')?;
        text.push_str(line)?;
    }
    Ok(())
}

/// How many lines there are.
fn count_of(mut lines: Pieces<'_>) -> u64
    requires { length lines < 2 ^ 64 }
    ensures { result ≡ length lines.entry }
{
    let mut count = 0;
    while let Some(_line) = lines.next() {
        count += 1;
    }
    count
}

/// The number that decimal digits write.
fn number_of(digits: &[u8]) -> u64
    ensures { result ≡ number_of digits.now }
{
    let mut number: u64 = 0;
    for digit in digits {
        number = number
            .wrapping_mul(10)
            .wrapping_add(u64::from(*digit).saturating_sub(48));
    }
    number
}
