ghost use Rattle.std.specs.Prelude.{◌≡◌, List};
ghost use Rattle.std.proofs.Common.{ap};
ghost use Rattle.store.specs.Blocks.{Block, read_answer, read_buffer, write_answer, written};
ghost use Rattle.store.specs.declared.fault.Protection.{Protection};
ghost use Rattle.layer.specs.declared.run.Run.{Run};
ghost use Rattle.layer.specs.Guards.{GuardBase, guard_base, guarded, guard, guard_sized, guard_below, RunStays};

use super::run::Run;
use store::fault::{BLOCK_BYTES, FaultKind, Protection, StoreFault};
use store::store::{ReadStore, Store};

/// Protects one run of the store below, besides what is protected there.
// One type for this and a window would be no plainer: what each means of its run differs, and what is alike, `new`,
// `below`, `release` and `settle`, is of one line each.
#[derive(Drop)]
pub struct WriteGuard<S> {
    below: S,
    run: Run,
}

impl<S: Store> WriteGuard<S> {
    /// Protects the blocks of this run.
    pub fn new(below: S, run: Run) -> WriteGuard<S>
        ensures below { result.below ≡ below }
        ensures run { result.run ≡ run }
    {
        WriteGuard { below, run }
    }

    /// The store below.
    pub fn below(&self) -> &S
        ensures { result.now ≡ self.now.below }
    {
        &self.below
    }

    /// Ends the guard, and hands back the store below.
    pub fn release(self) -> S
        ensures { result ≡ self.below }
    {
        let WriteGuard { below, run: _ } = self;
        below
    }
}

impl<S: Store> ReadStore for WriteGuard<S> {
    ghost blocks = { λ s. guarded S.blocks s };

    ghost Base = { GuardBase S.Base };

    ghost base_of = { λ s. guard_base S.base_of S.blocks s };

    ghost sized = { λ s. guard_sized (S.blocks s.below) s.run (S.sized s.below) };

    fn size(&self) -> u32 {
        self.below.size()
    }

    fn read(&mut self, block: u32, buffer: &mut [u8]) -> Result<(), StoreFault>
        ensures answer { result ≡ read_answer (guarded S.blocks self.old) block buffer.old }
        ensures buffer { buffer.new ≡ read_buffer (guarded S.blocks self.old) block buffer.old }
        ensures same { guarded S.blocks self.new ≡ guarded S.blocks self.old }
        ensures below { S.blocks self.new.below ≡ S.blocks self.old.below }
        ensures run { self.new.run ≡ self.old.run }
        ensures base { guard_base S.base_of S.blocks self.new ≡ guard_base S.base_of S.blocks self.old }
    {
        self.below.read(block, buffer)
    }
}

impl<S: Store> Store for WriteGuard<S> {
    ghost stored = { λ s. guarded S.stored s };

    ghost settled = { λ s. S.settled s.below };

    ghost holds = { λ s h. ap (λ bs. guard bs s.run) (S.holds s.below h) };

    fn write(&mut self, block: u32, bytes: &[u8]) -> Result<(), StoreFault>
        ensures answer { result ≡ write_answer (guarded S.blocks self.old) block bytes.now }
        ensures after { guarded S.blocks self.new ≡ written (guarded S.blocks self.old) block bytes.now }
        ensures below { S.blocks self.new.below ≡ guard_below (S.blocks self.old.below) self.old.run block bytes.now }
        ensures stays { RunStays (S.blocks self.old.below) (S.blocks self.new.below) self.old.run }
        ensures run { self.new.run ≡ self.old.run }
        ensures base { guard_base S.base_of S.blocks self.new ≡ guard_base S.base_of S.blocks self.old }
    {
        if bytes.len() != BLOCK_BYTES {
            return Err(FaultKind::Length.at(block));
        }
        if block >= self.below.size() {
            return Err(FaultKind::Beyond.at(block));
        }
        if self.run.contains(block) {
            return Err(FaultKind::Protected.at(block));
        }
        self.below.write(block, bytes)
    }

    fn protection(&self, block: u32) -> Result<Protection, StoreFault> {
        let below = self.below.protection(block)?;
        let covered = self.run.contains(block);
        Ok(if covered {
            Protection::Protected
        } else {
            below
        })
    }

    fn settle(&mut self)
        ensures same { guarded S.blocks self.new ≡ guarded S.blocks self.old }
        ensures settled { S.settled self.new.below }
        ensures below { S.blocks self.new.below ≡ S.blocks self.old.below }
        ensures run { self.new.run ≡ self.old.run }
        ensures base { guard_base S.base_of S.blocks self.new ≡ guard_base S.base_of S.blocks self.old }
    {
        self.below.settle()
    }
}
