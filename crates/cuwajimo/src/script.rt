ghost use Rattle.std.specs.Prelude.{◌≡◌};
ghost use Rattle.cuwajimo.specs.Lines.{before_comment, line_words};
ghost use Rattle.cuwajimo.specs.Scripts.{ReadsWords, ReadsLine, ReadsScript};

use super::call::read_call;
use super::case::Case;
use super::line::{Line, split_words};
use super::trouble::{Spot, Trouble};
use std::alloc::Global;
use std::mem;

/// What a line says, apart from its comment.
fn statement(line: &str) -> &str
    ensures { result.now ≡ before_comment line.now }
{
    let Some((before, _)) = line.split_once('#') else {
        return line;
    };
    before
}

/// Adds what one line says to the case that is being read.
fn read_words(line: Line<'_>, case: &mut Case) -> Result<(), Trouble>
    ensures { ReadsWords line.entry.spot.line (line_words line.entry) case.old case.new result }
{
    match read_call(line)? {
        Some(call) => case.add(call),
        None if case.first().is_none() => case.plan.read(line),
        None => Err(
            line.spot.about(
                "no call, and what builds stands before the first call:",
                line.text,
            ),
        ),
    }
}

/// Reads a line: a `reset` ends the case that is being read and begins another.
fn read_line(spot: Spot, line: &str, cases: &mut Vec<Case>, case: &mut Case) -> Result<(), Trouble>
    ensures { ReadsLine spot.line line.now cases.old.items case.old cases.new.items case.new result }
{
    let text = statement(line).trim();
    if text == "reset" {
        cases.push(mem::replace(case, Case::new(spot.heap)))?;
        return Ok(());
    }
    if text.is_empty() {
        return Ok(());
    }
    let words = split_words(spot.heap, text)?;
    let words = words.as_slice();
    read_words(Line { spot, words, text }, case)
}

/// The cases of a script. It is read whole before any of it is carried out.
pub(super) fn cases(heap: Global, text: &str) -> Result<Vec<Case>, Trouble>
    ensures { ReadsScript text.now result }
{
    let mut cases = Vec::new(heap);
    let mut case = Case::new(heap);
    // `enumerate` would be no plainer: each number would be one less, of another width, and turned by two more calls
    let mut line = 0u32;
    for whole in text.lines() {
        line = line.saturating_add(1);
        read_line(Spot { heap, line }, whole, &mut cases, &mut case)?;
    }
    cases.push(case)?;
    Ok(cases)
}
