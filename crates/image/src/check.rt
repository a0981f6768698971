ghost use Rattle.std.specs.Prelude.{◌≡◌, nat_le};
ghost use Rattle.store.specs.Counts.{most_blocks};
ghost use Rattle.image.specs.Images.{asked};

use store::count::MOST_BLOCKS;
use store::fault::{BLOCK_BYTES, FaultKind, StoreFault};

/// Whether an image may have so many blocks.
pub fn may_have(blocks: usize) -> bool
    ensures { result ≡ nat_le blocks most_blocks }
{
    blocks <= MOST_BLOCKS as usize
}

/// What a call that moves a block's bytes asks first: a buffer of one block, then a block that is there.
// Inlined before all else, since its answer would otherwise be handed over in memory at each block.
#[inline(always)]
pub fn ask(length: usize, block: u32, count: u32) -> Result<usize, StoreFault>
    ensures { result ≡ asked length block count }
{
    if length != BLOCK_BYTES {
        return Err(FaultKind::Length.at(block));
    }
    if block >= count {
        return Err(FaultKind::Beyond.at(block));
    }
    Ok(block as usize)
}
