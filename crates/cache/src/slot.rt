ghost use Rattle.std.specs.Prelude.{◌≡◌, ◌<◌, length, IfSome, Some};
ghost use Rattle.cache.specs.Caches.{slot, place};

use store::fault::BLOCK_BYTES;

/// The place of one block in a cache: the block that it keeps, or none, and that block's bytes.
// The bytes stand beside the block and not within its Option, which would be no plainer: the definitions say what the
// slots hold after each call, the bytes of a vacant one too.
#[derive(Clone, Copy)]
pub(super) struct Slot {
    pub(super) block: Option<u32>,
    pub(super) bytes: [u8; BLOCK_BYTES],
}

impl Slot {
    /// Keeps this block with these bytes from now on.
    pub(super) fn fill(&mut self, block: u32, bytes: &[u8; BLOCK_BYTES])
        ensures { self.new ≡ slot block bytes.now }
    {
        self.block = Some(block);
        self.bytes = *bytes;
    }
}

/// The first slot that keeps this block, or with `None` the first that keeps nothing.
pub(super) fn find(slots: &[Slot], block: Option<u32>) -> Option<usize>
    ensures place { result ≡ place slots.now block }
    ensures within { IfSome result (λ i. i < length slots.now) }
{
    slots.iter().position(|slot| slot.block == block)
}
