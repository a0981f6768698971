ghost use Rattle.std.specs.Prelude.{◌≡◌, ℕ, List, length};
ghost use Rattle.store.specs.Blocks.{read_answer, read_buffer};

use image::check::{ask, may_have};
use image::copy::copy_block;
use store::fault::{BLOCK_BYTES, StoreFault};
use store::store::ReadStore;

/// Memory that is only read, with block b at byte 256 x b: each block is sound and protected.
/// Memory that is not whole blocks, or has more than a store may have, shows none.
#[derive(Clone, Copy, Drop)]
pub struct Master<'a> {
    bytes: &'a [u8],
}

impl<'a> Master<'a> {
    ghost use Rattle.master.specs.Masters.{master_size, master_blocks, master_meaning};

    /// The master that this memory is, of any length. Nothing is refused.
    pub fn new(bytes: &'a [u8]) -> Master<'a>
        ensures memory { result.bytes.now ≡ bytes.now }
        ensures blocks { master_meaning result ≡ master_blocks bytes.now }
    {
        Master { bytes }
    }

    /// How many blocks there are.
    fn count(&self) -> u32
        ensures size { result ≡ master_size (length self.now.bytes.now) }
        ensures blocks { result ≡ length (master_meaning self.now) }
    {
        let blocks = self.bytes.len() / BLOCK_BYTES;
        if self.bytes.len() % BLOCK_BYTES == 0 && may_have(blocks) {
            blocks as u32
        } else {
            0
        }
    }
}

impl ReadStore for Master<'_> {
    ghost use Rattle.master.specs.Masters.{master_meaning};
    ghost use Rattle.master.specs.Sized.{master_sized};

    ghost blocks = { λ s. master_meaning s };

    ghost Base = { List ℕ };

    ghost base_of = { λ s. s.bytes.now };

    ghost sized = { λ s. master_sized s.bytes.now };

    fn size(&self) -> u32 {
        self.count()
    }

    fn read(&mut self, block: u32, buffer: &mut [u8]) -> Result<(), StoreFault>
        ensures answer { result ≡ read_answer (master_meaning self.old) block buffer.old }
        ensures buffer { buffer.new ≡ read_buffer (master_meaning self.old) block buffer.old }
        ensures same { master_meaning self.new ≡ master_meaning self.old }
        ensures base { self.new.bytes.now ≡ self.old.bytes.now }
    {
        let number = ask(buffer.len(), block, self.count())?;
        let at = BLOCK_BYTES * number;
        copy_block(&self.bytes[at..at + BLOCK_BYTES], buffer);
        Ok(())
    }
}
