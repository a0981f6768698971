ghost use Rattle.std.specs.Prelude.{◌≡◌};
ghost use Rattle.flat.specs.Lengths.{flat_count};

use super::marks::MARKS_A_BYTE;
use image::check::may_have;
use store::fault::BLOCK_BYTES;

/// How many blocks memory and map of these lengths have, if they fit.
pub fn flat_count(bytes: usize, damage: usize) -> Option<u32>
    ensures { result ≡ flat_count bytes damage }
{
    let blocks = bytes / BLOCK_BYTES;
    let fits = bytes % BLOCK_BYTES == 0
        && may_have(blocks)
        && damage == blocks.div_ceil(MARKS_A_BYTE);
    fits.then(|| blocks as u32)
}
