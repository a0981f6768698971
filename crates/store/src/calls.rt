ghost use Rattle.std.specs.Prelude.{◌≡◌};
ghost use Rattle.store.specs.Blocks.{fetched, write_answer, written};
ghost use Rattle.store.specs.Laws.{WriteLaw};

use super::fault::{BLOCK_BYTES, StoreFault};
use super::store::{ReadStore, Store};

/// Writes a block, and says what whoever reads the store afterwards gets.
pub fn put_block<S: Store>(store: &mut S, block: u32, bytes: &[u8]) -> Result<(), StoreFault>
    ensures answer { result ≡ write_answer (S.blocks store.old) block bytes.now }
    ensures after { S.blocks store.new ≡ written (S.blocks store.old) block bytes.now }
    ensures law { WriteLaw (S.blocks store.old) block bytes.now result (S.blocks store.new) }
    ensures base { S.base_of store.new ≡ S.base_of store.old }
{
    store.write(block, bytes)
}

/// A block's bytes.
pub fn fetch_block<S: ReadStore>(store: &mut S, block: u32) -> Result<[u8; BLOCK_BYTES], StoreFault>
    ensures answer { result ≡ fetched (S.blocks store.old) block }
    ensures same { S.blocks store.new ≡ S.blocks store.old }
    ensures base { S.base_of store.new ≡ S.base_of store.old }
{
    let mut bytes = [0u8; BLOCK_BYTES];
    store.read(block, &mut bytes)?;
    Ok(bytes)
}

/// Settles a store, so that the memory at its bottom holds what the store means.
pub fn settle_down<S: Store>(store: &mut S)
    ensures same { S.blocks store.new ≡ S.blocks store.old }
    ensures settled { S.settled store.new }
    ensures holds { S.stored store.new ≡ S.blocks store.old }
    ensures base { S.base_of store.new ≡ S.base_of store.old }
{
    store.settle()
}
