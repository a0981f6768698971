ghost use Rattle.std.specs.Prelude.{◌≡◌, ℕ, List, Option, Result, IfErr, IfOk, MatchResult, OnOk, Some, length};
ghost use Rattle.std.specs.Io.KnownBytes.{Appends};
ghost use Rattle.std.specs.Result.{result_err};
ghost use Rattle.store.specs.Blocks.{Block};
ghost use Rattle.flat.specs.Flat.{flat_refusal, FlatLeft};
ghost use Rattle.raw.specs.Raw.{raw_refusal, RawLeft};
ghost use Rattle.layer.specs.Guards.{guarded};
ghost use Rattle.layer.specs.Windows.{outside, windowed};
ghost use Rattle.cuwajimo.specs.declared.case.Case.{Case};
ghost use Rattle.cuwajimo.specs.declared.session.Outcome.{Outcome};
ghost use Rattle.cuwajimo.specs.declared.trouble.Trouble.{Trouble};
ghost use Rattle.cuwajimo.specs.Media.{medium_offered, medium_refusal};
ghost use Rattle.cuwajimo.specs.Left.{PileLeft, SameBytes, flat_outside, flat_shown, raw_outside, raw_shown};
ghost use Rattle.cuwajimo.specs.Plans.{layers, pile_blocks, shown_run, NoLayer};
ghost use Rattle.cuwajimo.specs.Printed.{block_lines, Serves};
ghost use Rattle.cuwajimo.specs.Troubles.{CannotPrint};
ghost use Rattle.cuwajimo.specs.Shown.{block_said, protection_word, shown_at};

use super::case::CaseRun;
use super::fnv::Sum;
use super::medium::Medium;
use super::plan::Plan;
use super::session::{Ended, Outcome};
use super::trouble::Trouble;
use cache::cache::Cache;
use flat::flat::FlatImage;
use image::refusal::Refusal;
use layer::guard::WriteGuard;
use layer::window::Window;
use raw::raw::RawImage;
use std::{fmt, io};
use store::calls::fetch_block;
use store::fault::Protection;
use store::store::Store;

/// What a line tells of a block.
#[derive(Clone, Copy)]
enum Shown {
    Beyond,
    Sound { sum: Sum, protection: Protection },
    Damaged { protection: Protection },
}

/// A block of a pile: `block 3: sound 9f5c2a0e4d7b8316, open`.
#[derive(Clone, Copy)]
struct BlockSaid {
    block: u64,
    shown: Shown,
}

impl fmt::Display for BlockSaid {
    ghost output = { λ said. Some (block_said said) };

    fn fmt<W: fmt::Write>(&self, f: &mut fmt::Formatter<W>) -> fmt::Result {
        let block = self.block;
        match self.shown {
            Shown::Beyond => write!(f, "block {block}: beyond"),
            Shown::Sound { sum, protection } => {
                let may = may(protection);
                write!(f, "block {block}: sound {sum}, {may}")
            }
            Shown::Damaged { protection } => {
                let may = may(protection);
                write!(f, "block {block}: damaged, {may}")
            }
        }
    }
}

/// The word for a protection.
fn may(protection: Protection) -> &'static str
    ensures { result.now ≡ protection_word protection }
{
    match protection {
        Protection::Open => "open",
        Protection::Protected => "protected",
    }
}

/// Looks at a block of a store. A number past what counts blocks is beyond every store.
fn look<S: Store>(store: &mut S, block: u64) -> Shown
    ensures answer { result ≡ shown_at (S.blocks store.old) block }
    ensures same { S.blocks store.new ≡ S.blocks store.old }
    ensures base { S.base_of store.new ≡ S.base_of store.old }
{
    let Ok(block) = u32::try_from(block) else {
        return Shown::Beyond;
    };
    let Ok(protection) = store.protection(block) else {
        return Shown::Beyond;
    };
    match fetch_block(store, block) {
        Ok(bytes) => Shown::Sound {
            sum: Sum::of(&bytes),
            protection,
        },
        Err(_) => Shown::Damaged { protection },
    }
}

/// Shows so many blocks from the first on.
fn show_blocks<S: Store, W: io::Write>(
    out: &mut W,
    store: &mut S,
    first: u32,
    count: u32,
) -> Result<(), Trouble>
    ensures same { S.blocks store.new ≡ S.blocks store.old }
    ensures base { S.base_of store.new ≡ S.base_of store.old }
    ensures printed { OnOk result (Appends (W.contents out.old) (W.contents out.new) (block_lines (S.blocks store.old) first count)) }
    ensures trouble { IfErr result CannotPrint }
{
    let first = u64::from(first);
    for block in first..first + u64::from(count) {
        let shown = look(store, block);
        let said = BlockSaid { block, shown };
        writeln!(out, "{said}")?;
    }
    Ok(())
}

/// What is done with a pile while it stands. The pile is handed back.
pub(super) trait Job {
    // What it comes to: of a case, the pile's blocks before it, the outcome, the blocks after it, and what an output is known to hold before and after.
    ghost comes: { Self → Case → List Block → Result Outcome Trouble → List Block → Option (List ℕ) → Option (List ℕ) → Type 0 };

    fn perform<S: Store, W: io::Write>(
        &self,
        out: &mut W,
        run: CaseRun<'_, '_>,
        store: S,
    ) -> Ended<S>
        ensures comes { comes self.now run.entry.case.now (S.blocks store) result.outcome (S.blocks result.store) (W.contents out.old) (W.contents out.new) }
        ensures base { S.base_of result.store ≡ S.base_of store };
}

/// A device over the pile answers the calls before `off`.
#[derive(Clone, Copy)]
pub(super) struct Serve;

impl Job for Serve {
    ghost comes = { λ job case before outcome after old new. IfOk outcome (λ o. Serves case before o after old new) };

    fn perform<S: Store, W: io::Write>(
        &self,
        out: &mut W,
        run: CaseRun<'_, '_>,
        store: S,
    ) -> Ended<S> {
        run.serve(out, store)
    }
}

/// Blocks of the pile are shown.
#[derive(Clone, Copy)]
pub(super) struct Show {
    pub(super) first: u32,
    pub(super) count: u32,
}

impl Job for Show {
    ghost comes = { λ job case before outcome after old new. (after ≡ before) × OnOk outcome (Appends old new (block_lines before job.first job.count)) };

    fn perform<S: Store, W: io::Write>(
        &self,
        out: &mut W,
        _run: CaseRun<'_, '_>,
        mut store: S,
    ) -> Ended<S> {
        let shown = show_blocks(out, &mut store, self.first, self.count);
        Ended {
            store,
            outcome: shown.map(|_| Outcome::Served),
        }
    }
}

/// The window and the write guard that the plan asks for, over its image.
fn layered<S: Store>(plan: &Plan, image: S) -> WriteGuard<Window<S>>
    ensures exact { result ≡ layers plan.now image }
    ensures plain { NoLayer plan.now → guarded (windowed S.blocks) result ≡ S.blocks image }
{
    WriteGuard::new(Window::new(image, plan.shown()), plan.guarded())
}

impl CaseRun<'_, '_> {
    /// Does a job on the case's whole pile over an image: window, write guard and, if its plan asks for one, a cache.
    fn over_image<S: Store, J: Job, W: io::Write>(
        self,
        out: &mut W,
        image: &mut S,
        job: &J,
    ) -> Result<Outcome, Trouble>
        ensures done { J.comes job.now self.entry.case.now (pile_blocks self.entry.case.now.plan (S.blocks image.old)) result (pile_blocks self.entry.case.now.plan (S.blocks image.new)) (W.contents out.old) (W.contents out.new) }
        ensures others { outside (S.blocks image.new) (shown_run self.entry.case.now.plan) ≡ outside (S.blocks image.old) (shown_run self.entry.case.now.plan) }
        ensures base { S.base_of image.new ≡ S.base_of image.old }
    {
        let plan = &self.case.plan;
        let below = layered(plan, image);
        if !plan.cache {
            let Ended { store, outcome } = job.perform(out, self, below);
            let _ = store.release().release();
            return outcome;
        }
        let Ended { store, outcome } = job.perform(out, self, Cache::new(below));
        let _ = store.release().release().release();
        outcome
    }

    /// Does a job on the pile that the plan asks for over a flat image in this memory, unless it is refused.
    fn on_flat<J: Job, W: io::Write>(
        self,
        out: &mut W,
        bytes: &mut [u8],
        damage: &mut [u8],
        job: &J,
    ) -> Result<Result<Outcome, Trouble>, Refusal>
        ensures refusal { result_err result ≡ flat_refusal (length bytes.old) (length damage.old) }
        ensures done { MatchResult result (λ outcome. J.comes job.now self.entry.case.now (flat_shown self.entry.case.now.plan bytes.old damage.old) outcome (flat_shown self.entry.case.now.plan bytes.new damage.new) (W.contents out.old) (W.contents out.new)) (λ _. (W.contents out.new ≡ W.contents out.old) × (bytes.new ≡ bytes.old) × (damage.new ≡ damage.old)) }
        ensures others { flat_outside self.entry.case.now.plan bytes.new damage.new ≡ flat_outside self.entry.case.now.plan bytes.old damage.old }
        ensures memory { FlatLeft bytes.old damage.old bytes.new damage.new }
    {
        FlatImage::check(bytes.len(), damage.len())?;
        let mut image = FlatImage::over(bytes, damage, self.case.plan.protection);
        Ok(self.over_image(out, &mut image, job))
    }

    /// The same over a raw image.
    fn on_raw<J: Job, W: io::Write>(
        self,
        out: &mut W,
        bytes: &mut [u8],
        spares: &[u8],
        records: u32,
        job: &J,
    ) -> Result<Result<Outcome, Trouble>, Refusal>
        ensures refusal { result_err result ≡ raw_refusal (length bytes.old) spares.now records }
        ensures done { MatchResult result (λ outcome. J.comes job.now self.entry.case.now (raw_shown self.entry.case.now.plan bytes.old spares.now records) outcome (raw_shown self.entry.case.now.plan bytes.new spares.now records) (W.contents out.old) (W.contents out.new)) (λ _. (W.contents out.new ≡ W.contents out.old) × (bytes.new ≡ bytes.old)) }
        ensures others { raw_outside self.entry.case.now.plan bytes.new spares.now records ≡ raw_outside self.entry.case.now.plan bytes.old spares.now records }
        ensures memory { RawLeft bytes.old spares.now records bytes.new }
    {
        RawImage::check(bytes.len(), spares, records)?;
        let mut image = RawImage::over(bytes, spares, records, self.case.plan.protection);
        Ok(self.over_image(out, &mut image, job))
    }

    /// The same over an image of either kind.
    pub(super) fn on_pile<J: Job, W: io::Write>(
        self,
        out: &mut W,
        medium: &mut Medium,
        job: &J,
    ) -> Result<Result<Outcome, Trouble>, Refusal>
        ensures refusal { result_err result ≡ medium_refusal medium.old }
        ensures done { MatchResult result (λ outcome. (left : List Block) × J.comes job.now self.entry.case.now (pile_blocks self.entry.case.now.plan (medium_offered medium.old self.entry.case.now.plan.protection)) outcome left (W.contents out.old) (W.contents out.new) × PileLeft self.entry.case.now.plan medium.old left medium.new) (λ _. (W.contents out.new ≡ W.contents out.old) × SameBytes medium.old medium.new) }
    {
        match medium {
            Medium::Flat { bytes, damage } => {
                self.on_flat(out, bytes.as_mut_slice(), damage.as_mut_slice(), job)
            }
            Medium::Raw {
                bytes,
                spares,
                records,
            } => self.on_raw(out, bytes.as_mut_slice(), spares.as_slice(), *records, job),
        }
    }
}
