ghost use Rattle.std.specs.Prelude.{◌≡◌, ◌++◌, IfErr, OnOk, Some, codes};
ghost use Rattle.std.specs.Io.KnownBytes.{Appends};
ghost use Rattle.master.specs.Masters.{master_meaning};
ghost use Rattle.cuwajimo.specs.Printed.{compare_line, compared_words, line};
ghost use Rattle.cuwajimo.specs.Troubles.{CannotPrint};

use super::case::CaseRun;
use super::pile::Job;
use super::session::{Ended, Outcome};
use super::trouble::Trouble;
use layer::run::Run;
use master::compare::compare_runs;
use master::master::Master;
use std::{fmt, io};
use store::store::Store;

/// What a comparison came to: `block 5 differs`, or `none differs`.
#[derive(Clone, Copy)]
struct Compared(Option<u32>);

impl fmt::Display for Compared {
    ghost output = { λ compared. Some (compared_words compared.0) };

    fn fmt<W: fmt::Write>(&self, f: &mut fmt::Formatter<W>) -> fmt::Result {
        match self.0 {
            Some(block) => write!(f, "block {block} differs"),
            None => f.write_str("none differs"),
        }
    }
}

/// Tells what a comparison came to.
fn tell<W: io::Write>(out: &mut W, compared: Compared) -> Result<Outcome, Trouble>
    ensures printed { OnOk result (Appends (W.contents out.old) (W.contents out.new) (line (codes "compare: " ++ compared_words compared.0))) }
    ensures trouble { IfErr result CannotPrint }
{
    writeln!(out, "compare: {compared}")?;
    Ok(Outcome::Served)
}

/// A run of the pile's blocks is compared with a run of a master's.
#[derive(Clone, Copy)]
pub(super) struct Compare<'a> {
    pub(super) pile: Run,
    pub(super) of: Master<'a>,
    pub(super) master: Run,
}

impl Job for Compare<'_> {
    ghost comes = { λ job case before outcome after old new. (after ≡ before) × OnOk outcome (Appends old new (compare_line before job.pile (master_meaning job.of) job.master)) };

    fn perform<S: Store, W: io::Write>(
        &self,
        out: &mut W,
        _run: CaseRun<'_, '_>,
        mut store: S,
    ) -> Ended<S> {
        let mut master = self.of;
        let differs = compare_runs(&mut store, self.pile, &mut master, self.master);
        let outcome = tell(out, Compared(differs));
        Ended { store, outcome }
    }
}
