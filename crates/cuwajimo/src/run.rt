ghost use Rattle.std.specs.Prelude.{◌≡◌, ◌++◌, IfErr, IfOk, MatchResult, OnOk, Some};
ghost use Rattle.std.specs.Io.KnownBytes.{Appends};
ghost use Rattle.cuwajimo.specs.declared.session.Outcome.TheVariants.{Refused};
ghost use Rattle.cuwajimo.specs.Calls.{calls_off, calls_on};
ghost use Rattle.cuwajimo.specs.Left.{PileStays};
ghost use Rattle.cuwajimo.specs.Masters.{meant_by};
ghost use Rattle.cuwajimo.specs.Media.{medium_offered, medium_refusal};
ghost use Rattle.cuwajimo.specs.Plans.{pile_blocks};
ghost use Rattle.cuwajimo.specs.Troubles.{CannotPrint};
ghost use Rattle.cuwajimo.specs.Printed.{AfterOff, AreRun, FromOff, IsRun, Prints, RunOver, compared_lines, nothing_lines, off_lines, refused_line, save_line, saved_of, saved_word};

use super::call::{Act, Call};
use super::case::{Case, CaseRun};
use super::comparison::Compare;
use super::fill::prepare;
use super::masters::{load_master, master_over};
use super::medium::{Medium, load};
use super::pile::{Serve, Show};
use super::plan::{MasterSource, Source};
use super::say;
use super::session::Outcome;
use super::trouble::{Spot, Trouble};
use image::refusal::Refusal;
use layer::run::Run;
use std::fmt;
use std::io::Write;

/// What came of a `save`.
#[derive(Clone, Copy)]
enum Saved {
    Written,
    /// the image came from no file
    NoFile,
}

impl fmt::Display for Saved {
    ghost output = { λ saved. Some (saved_word saved) };

    fn fmt<W: fmt::Write>(&self, f: &mut fmt::Formatter<W>) -> fmt::Result {
        f.write_str(match self {
            Saved::Written => "written",
            Saved::NoFile => "no file",
        })
    }
}

/// That the files of every case can be opened.
pub(super) fn check_files(rt: &HostRuntime, cases: &[Case]) -> Result<(), Trouble> {
    for case in cases {
        match &case.plan.source {
            Some(
                Source::FlatFiles {
                    bytes,
                    damage: beside,
                }
                | Source::RawFiles {
                    bytes,
                    spares: beside,
                    records: _,
                },
            ) => {
                bytes.check(rt)?;
                beside.check(rt)?;
            }
            _ => {}
        }
        if let Some(MasterSource::File(file)) = &case.plan.master {
            file.check(rt)?;
        }
    }
    Ok(())
}

/// Writes the image back to the files that it came from, if it came from any: all of it beside them first, so that they stay as they
/// are where it cannot be written. A raw image's spare places never change.
fn write_back(
    rt: &HostRuntime,
    line: u32,
    source: &Source,
    medium: &Medium,
) -> Result<Saved, Trouble>
    ensures { IfOk result (λ saved. saved ≡ saved_of source.now medium.now) }
{
    match (source, medium) {
        (
            Source::FlatFiles {
                bytes: to,
                damage: map,
            },
            Medium::Flat { bytes, damage },
        ) => {
            to.stage(rt, line, bytes.as_slice())?;
            map.stage(rt, line, damage.as_slice())
                .inspect_err(|_| to.unstage(rt))?;
            to.replace(rt, line)?;
            map.replace(rt, line)?;
        }
        (
            Source::RawFiles {
                bytes: to,
                spares: _,
                records: _,
            },
            Medium::Raw {
                bytes,
                spares: _,
                records: _,
            },
        ) => {
            to.stage(rt, line, bytes.as_slice())?;
            to.replace(rt, line)?;
        }
        _ => return Ok(Saved::NoFile),
    }
    Ok(Saved::Written)
}

/// Saves the image, and tells what came of it.
fn save<W: Write>(
    rt: &HostRuntime,
    out: &mut W,
    line: u32,
    source: &Source,
    medium: &Medium,
) -> Result<(), Trouble>
    ensures { OnOk result (Appends (W.contents out.old) (W.contents out.new) (save_line source.now medium.now)) }
{
    let saved = write_back(rt, line, source, medium)?;
    writeln!(out, "save: {saved}")?;
    Ok(())
}

/// What a job on a case's pile came to: where its image was refused, that is printed.
fn decided<W: Write>(
    out: &mut W,
    done: Result<Result<Outcome, Trouble>, Refusal>,
) -> Result<Outcome, Trouble>
    ensures { MatchResult done (λ outcome. (result ≡ outcome) × (W.contents out.new ≡ W.contents out.old)) (λ refusal. IfOk result (λ outcome. outcome ≡ Refused) × OnOk result (Appends (W.contents out.old) (W.contents out.new) (refused_line refusal))) }
{
    match done {
        Ok(outcome) => outcome,
        Err(refusal) => {
            writeln!(out, "image: refused {refusal}")?;
            Ok(Outcome::Refused)
        }
    }
}

impl CaseRun<'_, '_> {
    /// Compares a run of the pile's blocks with a run of the master's, if there is one.
    fn compare<W: Write>(
        self,
        out: &mut W,
        medium: &mut Medium,
        pile: Run,
        master: Run,
    ) -> Result<(), Trouble>
        ensures printed { OnOk result (Appends (W.contents out.old) (W.contents out.new) (compared_lines (medium_refusal medium.old) (pile_blocks self.entry.case.now.plan (medium_offered medium.old self.entry.case.now.plan.protection)) pile (meant_by self.entry.master) master)) }
        ensures left { OnOk result (PileStays self.entry.case.now.plan medium.old medium.new) }
    {
        let Some(of) = self.master else {
            writeln!(out, "compare: no master")?;
            return Ok(());
        };
        let compared = self.on_pile(out, medium, &Compare { pile, of, master });
        decided(out, compared)?;
        Ok(())
    }

    /// One call after the device is off.
    fn answer_off<W: Write>(
        self,
        out: &mut W,
        source: &Source,
        medium: &mut Medium,
        call: &Call,
    ) -> Result<(), Trouble>
        ensures printed { OnOk result (Appends (W.contents out.old) (W.contents out.new) (off_lines self.entry.case.now.plan source.now medium.old (meant_by self.entry.master) call.now.act)) }
        ensures left { OnOk result (PileStays self.entry.case.now.plan medium.old medium.new) }
    {
        match &call.act {
            Act::Blocks { first, count } => {
                let first = *first;
                let count = *count;
                let shown = self.on_pile(out, medium, &Show { first, count });
                decided(out, shown)?;
                Ok(())
            }
            Act::Compare { pile, master } => self.compare(out, medium, *pile, *master),
            Act::Save => save(self.rt, out, call.line, source, medium),
            act => say::nothing(out, act),
        }
    }

    /// Calls after the device is off, one after the other.
    fn answer_all_off<W: Write>(
        self,
        out: &mut W,
        source: &Source,
        medium: &mut Medium,
        calls: &[Call],
    ) -> Result<(), Trouble>
        ensures { OnOk result (Prints (AfterOff self.entry.case.now.plan source.now medium.old (meant_by self.entry.master) calls.now) (W.contents out.old) (W.contents out.new)) }
    {
        for call in calls {
            self.answer_off(out, source, medium, call)?;
        }
        Ok(())
    }

    /// The calls from the first `off` on, of a case that had a device.
    fn finish<W: Write>(
        self,
        out: &mut W,
        source: &Source,
        medium: &mut Medium,
    ) -> Result<(), Trouble>
        ensures { OnOk result (Prints (FromOff self.entry.case.now.plan source.now medium.old (meant_by self.entry.master) (calls_off self.entry.case.now)) (W.contents out.old) (W.contents out.new)) }
    {
        let Some((_, after)) = self.case.off.as_slice().split_first() else {
            return Ok(());
        };
        writeln!(out, "off: settled")?;
        self.answer_all_off(out, source, medium, after)
    }

    /// The calls of a case that has no device.
    fn decline<W: Write>(self, out: &mut W) -> Result<(), Trouble>
        ensures printed { OnOk result (Appends (W.contents out.old) (W.contents out.new) (nothing_lines (calls_on self.entry.case.now) ++ nothing_lines (calls_off self.entry.case.now))) }
        ensures trouble { IfErr result CannotPrint }
    {
        say::nothing_of(out, self.case.on.as_slice())?;
        say::nothing_of(out, self.case.off.as_slice())
    }

    /// Carries the case out over the memory that its image was brought into.
    fn run_over<W: Write>(
        self,
        out: &mut W,
        source: &Source,
        medium: &mut Medium,
    ) -> Result<(), Trouble>
        ensures { OnOk result (Prints (RunOver (medium_refusal medium.old) self.entry.case.now source.now medium.old (meant_by self.entry.master)) (W.contents out.old) (W.contents out.new)) }
    {
        let served = self.on_pile(out, medium, &Serve);
        match decided(out, served)? {
            Outcome::Served => self.finish(out, source, medium),
            Outcome::Refused => self.decline(out),
        }
    }
}

/// Carries a case out, if it has any call.
fn run_case<'a, W: Write>(rt: &'a HostRuntime, out: &mut W, case: &'a Case) -> Result<(), Trouble>
    ensures { OnOk result (Prints (IsRun case.now) (W.contents out.old) (W.contents out.new)) }
{
    let Some(first) = case.first() else {
        return Ok(());
    };
    let spot = Spot {
        heap: rt.alloc(),
        line: first.line,
    };
    let Some(source) = &case.plan.source else {
        return Err(spot.trouble("a call, and no image to make it on"));
    };
    let mut medium = load(rt, source)?;
    prepare(&mut medium, case.plan.fills.as_slice());
    let memory = load_master(rt, &case.plan.master)?;
    let master = master_over(&memory);
    CaseRun { rt, case, master }.run_over(out, source, &mut medium)
}

/// Carries out each case in turn.
pub(super) fn run<W: Write>(rt: &HostRuntime, out: &mut W, cases: &[Case]) -> Result<(), Trouble>
    ensures { OnOk result (Prints (AreRun cases.now) (W.contents out.old) (W.contents out.new)) }
{
    for case in cases {
        run_case(rt, out, case)?;
    }
    Ok(())
}
