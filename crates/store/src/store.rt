ghost use Rattle.std.specs.Prelude.{◌≡◌, ℕ, List, length};
ghost use Rattle.store.specs.Blocks.{Block, Sized, read_answer, read_buffer, write_answer, written, protection_answer};

use super::fault::{Protection, StoreFault};

/// A fixed count of blocks of 256 bytes that can be read, each sound or damaged, each open or protected.
/// What a call answers is worked out from the meaning, so whatever is built on a reader holds for each of them.
pub trait ReadStore {
    // What is meant, read from what is held now.
    ghost blocks: { Self → List Block };

    // What it stands on: which lent memory is at its bottom, and whatever there no call changes.
    ghost Base: { Type 0 };

    ghost base_of: { Self → Base };

    // What each implementation owes of its blocks.
    ghost sized: { (s : Self) → Sized (blocks s) };

    /// How many blocks there are.
    fn size(&self) -> u32
        ensures { result ≡ length (blocks self.now) };

    /// Hands over a sound block's bytes.
    fn read(&mut self, block: u32, buffer: &mut [u8]) -> Result<(), StoreFault>
        ensures answer { result ≡ read_answer (blocks self.old) block buffer.old }
        ensures buffer { buffer.new ≡ read_buffer (blocks self.old) block buffer.old }
        ensures same { blocks self.new ≡ blocks self.old }
        ensures base { base_of self.new ≡ base_of self.old };
}

/// A reader whose open blocks can be written.
pub trait Store: ReadStore {
    // What the memory at the bottom holds, shown as the store shows it, with nothing kept back above it.
    ghost stored: { Self → List Block };

    // That nothing is kept back: what is meant has reached the memory at the bottom.
    ghost settled: { Self → Type 0 };

    /// Makes an open block sound with these bytes.
    fn write(&mut self, block: u32, bytes: &[u8]) -> Result<(), StoreFault>
        ensures answer { result ≡ write_answer (Self.blocks self.old) block bytes.now }
        ensures after { Self.blocks self.new ≡ written (Self.blocks self.old) block bytes.now }
        ensures base { Self.base_of self.new ≡ Self.base_of self.old };

    /// Tells whether a block may be written.
    fn protection(&self, block: u32) -> Result<Protection, StoreFault>
        ensures { result ≡ protection_answer (Self.blocks self.now) block };

    /// Writes down whatever is kept back.
    fn settle(&mut self)
        ensures same { Self.blocks self.new ≡ Self.blocks self.old }
        ensures settled { settled self.new }
        ensures base { Self.base_of self.new ≡ Self.base_of self.old };

    // What each implementation owes of being settled: then what the memory holds is what is meant.
    ghost holds: { (s : Self) → settled s → stored s ≡ Self.blocks s };
}

/// A reader that is lent is a reader.
impl<S: ReadStore> ReadStore for &mut S {
    ghost blocks = { λ s. S.blocks s.now };

    ghost Base = { ℕ × S.Base };

    ghost base_of = { λ s. (s.ghost_name, S.base_of s.now) };

    ghost sized = { λ s. S.sized s.now };

    fn size(&self) -> u32 {
        (**self).size()
    }

    fn read(&mut self, block: u32, buffer: &mut [u8]) -> Result<(), StoreFault> {
        (**self).read(block, buffer)
    }
}

/// A store that is lent is a store: a pile over it leaves the image to its maker, who learns what the memory holds.
impl<S: Store> Store for &mut S {
    ghost stored = { λ s. S.stored s.now };

    ghost settled = { λ s. S.settled s.now };

    ghost holds = { λ s h. S.holds s.now h };

    fn write(&mut self, block: u32, bytes: &[u8]) -> Result<(), StoreFault> {
        (**self).write(block, bytes)
    }

    fn protection(&self, block: u32) -> Result<Protection, StoreFault> {
        (**self).protection(block)
    }

    fn settle(&mut self) {
        (**self).settle()
    }
}
