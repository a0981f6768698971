ghost use Rattle.std.specs.Prelude.{◌≡◌, List};
ghost use Rattle.std.proofs.Common.{ap};
ghost use Rattle.store.specs.Blocks.{Block, read_answer, read_buffer, write_answer, written};
ghost use Rattle.layer.specs.declared.run.Run.{Run};
ghost use Rattle.layer.specs.Windows.{WindowBase, window_base, windowed, window, window_sized, number_below, window_below, renumbered, OutsideStays};

use super::run::Run;
use store::fault::{BLOCK_BYTES, FaultKind, Protection, StoreFault};
use store::store::{ReadStore, Store};

/// A run of the blocks of the store below, cut at its end and numbered from 0.
// A type of its own: see `WriteGuard`.
#[derive(Drop)]
pub struct Window<S> {
    below: S,
    run: Run,
}

/// A fault of the store below, with the block's number as the window counts it.
fn renumber<T>(r: Result<T, StoreFault>, block: u32) -> Result<T, StoreFault>
    ensures { result ≡ renumbered r block }
{
    r.map_err(|fault| fault.kind.at(block))
}

impl<S: ReadStore> Window<S> {
    /// The window on the blocks of this run.
    pub fn new(below: S, run: Run) -> Window<S>
        ensures below { result.below ≡ below }
        ensures run { result.run ≡ run }
    {
        Window { below, run }
    }

    /// The store below.
    pub fn below(&self) -> &S
        ensures { result.now ≡ self.now.below }
    {
        &self.below
    }

    /// Ends the window, and hands back the store below.
    pub fn release(self) -> S
        ensures { result ≡ self.below }
    {
        let Window { below, run: _ } = self;
        below
    }

    /// The number that a block of the window has below.
    fn place(&self, block: u32) -> Result<u32, StoreFault>
        ensures { result ≡ number_below (S.blocks self.now.below) self.now.run block }
    {
        if block < self.size() {
            Ok(self.run.first + block)
        } else {
            Err(FaultKind::Beyond.at(block))
        }
    }
}

impl<S: ReadStore> ReadStore for Window<S> {
    ghost blocks = { λ s. windowed S.blocks s };

    ghost Base = { WindowBase S.Base };

    ghost base_of = { λ s. window_base S.base_of S.blocks s };

    ghost sized = { λ s. window_sized (S.blocks s.below) s.run (S.sized s.below) };

    fn size(&self) -> u32 {
        self.run.count_in(self.below.size())
    }

    fn read(&mut self, block: u32, buffer: &mut [u8]) -> Result<(), StoreFault>
        ensures answer { result ≡ read_answer (windowed S.blocks self.old) block buffer.old }
        ensures buffer { buffer.new ≡ read_buffer (windowed S.blocks self.old) block buffer.old }
        ensures same { windowed S.blocks self.new ≡ windowed S.blocks self.old }
        ensures below { S.blocks self.new.below ≡ S.blocks self.old.below }
        ensures run { self.new.run ≡ self.old.run }
        ensures base { window_base S.base_of S.blocks self.new ≡ window_base S.base_of S.blocks self.old }
    {
        if buffer.len() != BLOCK_BYTES {
            return Err(FaultKind::Length.at(block));
        }
        let at = self.place(block)?;
        renumber(self.below.read(at, buffer), block)
    }
}

impl<S: Store> Store for Window<S> {
    ghost stored = { λ s. windowed S.stored s };

    ghost settled = { λ s. S.settled s.below };

    ghost holds = { λ s h. ap (λ bs. window bs s.run) (S.holds s.below h) };

    fn write(&mut self, block: u32, bytes: &[u8]) -> Result<(), StoreFault>
        ensures answer { result ≡ write_answer (windowed S.blocks self.old) block bytes.now }
        ensures after { windowed S.blocks self.new ≡ written (windowed S.blocks self.old) block bytes.now }
        ensures below { S.blocks self.new.below ≡ window_below (S.blocks self.old.below) self.old.run block bytes.now }
        ensures outside { OutsideStays (S.blocks self.old.below) (S.blocks self.new.below) self.old.run }
        ensures run { self.new.run ≡ self.old.run }
        ensures base { window_base S.base_of S.blocks self.new ≡ window_base S.base_of S.blocks self.old }
    {
        if bytes.len() != BLOCK_BYTES {
            return Err(FaultKind::Length.at(block));
        }
        let at = self.place(block)?;
        renumber(self.below.write(at, bytes), block)
    }

    fn protection(&self, block: u32) -> Result<Protection, StoreFault> {
        let at = self.place(block)?;
        self.below.protection(at)
    }

    fn settle(&mut self)
        ensures same { windowed S.blocks self.new ≡ windowed S.blocks self.old }
        ensures settled { S.settled self.new.below }
        ensures below { S.blocks self.new.below ≡ S.blocks self.old.below }
        ensures run { self.new.run ≡ self.old.run }
        ensures base { window_base S.base_of S.blocks self.new ≡ window_base S.base_of S.blocks self.old }
    {
        self.below.settle()
    }
}
