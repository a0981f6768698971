ghost use Rattle.std.specs.Prelude.{◌≡◌, ◌==◌, ◌&&◌, length, if◌then◌else◌};

use store::fault::BLOCK_BYTES;

/// Copies a block's bytes; where either side is not one block long, nothing.
// As arrays, since a copy between slices of which the compiler does not know that they are apart asks that first.
#[inline(always)]
pub fn copy_block(from: &[u8], to: &mut [u8])
    ensures { to.new ≡ (if length from.now == 256 && length to.old == 256 then from.now else to.old) }
{
    if let Some(from) = from.as_array::<BLOCK_BYTES>()
        && let Some(to) = to.as_mut_array::<BLOCK_BYTES>()
    {
        *to = *from;
    }
}
