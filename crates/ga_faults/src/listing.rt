//! The faults of a text.
ghost use Rattle.std.specs.Prelude.{◌≡◌, ◌≢◌, ◌≤◌, AllPairs, IfOk, OnOk, Some, length, take};
ghost use Rattle.ga_faults.specs.Faults.{AreFaults, ArePartFaults, HasFirst, IsFaults, with_first, with_new};

use crate::fault::Fault;
use crate::first::first_fault;
use crate::order::sort_by_place;
use crate::parts::{lines_of, part_text};
use crate::sections::{section_starts, sections_at};
use std::alloc::{AllocError, Global};

/// The most faults that are reported.
const MOST_FAULTS: usize = 20;

/// The most sections that are looked at.
const MOST_SECTIONS: usize = 144;

/// The faults of a text of the larger language, which a plain text is too; or none if it has no
/// fault. They are the first faults of its parts, each once, and at most 20, in the order of their
/// places. A part has the lines of one section, which begins at a line with `node`, and those
/// before the first section. The first fault of the whole text is always among them. Only the first
/// 144 sections are looked at. Fails only when out of memory. (The rules are this project's own:
/// profile.)
pub fn faults(alloc: Global, text: &str) -> Result<Vec<Fault>, AllocError>
    ensures faults { IfOk result (λ faults. IsFaults text.now faults.items) }
    ensures most { IfOk result (λ faults. length faults.items ≤ 20) }
    // no fault is there twice
    ensures once { IfOk result (λ faults. AllPairs (λ one other. one ≢ other) faults.items) }
    // the first fault is there, or there is none
    ensures first { IfOk result (λ faults. HasFirst text.now faults.items) }
{
    match first_fault(alloc, text)? {
        Some(fault) => faults_with(alloc, text, fault),
        None => Ok(Vec::new(alloc)),
    }
}

/// The faults of a text whose first one is known.
fn faults_with(alloc: Global, text: &str, first: Fault) -> Result<Vec<Fault>, AllocError>
    ensures { IfOk result (λ faults. AreFaults text.now (Some first) faults.items) }
{
    let mut faults = part_faults(alloc, text)?;
    faults.truncate(MOST_FAULTS);
    push_first(&mut faults, first)?;
    sort_by_place(&mut faults)?;
    Ok(faults)
}

/// Adds the first fault of a text in front of others, if it isn't one of them.
fn push_first(faults: &mut Vec<Fault>, first: Fault) -> Result<(), AllocError>
    ensures { OnOk result (faults.new.items ≡ with_first first faults.old.items) }
{
    if !faults.contains(&first) {
        faults.insert(0, first)?;
        faults.truncate(MOST_FAULTS);
    }
    Ok(())
}

/// The first faults of the parts of a text, each once, until there are as many as are reported.
fn part_faults(alloc: Global, text: &str) -> Result<Vec<Fault>, AllocError>
    ensures { IfOk result (λ faults. ArePartFaults text.now faults.items) }
{
    let lines = lines_of(alloc, text)?;
    let starts = section_starts(alloc, text)?;
    let head = starts.first().copied().unwrap_or(0);
    let mut sections = sections_at(alloc, &starts)?;
    sections.truncate(MOST_SECTIONS);
    let mut faults = Vec::new(alloc);
    for section in &sections {
        if faults.len() >= MOST_FAULTS {
            return Ok(faults);
        }
        let part = part_text(alloc, &lines, head, *section)?;
        push_new(&mut faults, first_fault(alloc, part.as_str())?)?;
    }
    Ok(faults)
}

/// Adds a fault behind others, if there is one and it isn't one of them.
fn push_new(faults: &mut Vec<Fault>, found: Option<Fault>) -> Result<(), AllocError>
    ensures { OnOk result (faults.new.items ≡ with_new faults.old.items found) }
{
    let Some(fault) = found else {
        return Ok(());
    };
    if faults.contains(&fault) {
        return Ok(());
    }
    faults.push(fault)?;
    Ok(())
}
