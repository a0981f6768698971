ghost use Rattle.std.specs.Prelude.{◌≡◌};
ghost use Rattle.image.specs.Images.{harmed};
ghost use Rattle.flat.specs.Flat.{flat_offered, FlatLeft};
ghost use Rattle.raw.specs.Raw.{raw_offered, RawLeft};
ghost use Rattle.cuwajimo.specs.Bytes.{pattern_byte, pattern_block};
ghost use Rattle.cuwajimo.specs.Fills.{patterned, harmed_all, filled, filled_all};
ghost use Rattle.cuwajimo.specs.Left.{Prepared};

use super::medium::Medium;
use super::plan::Fill;
use flat::flat::FlatImage;
use raw::raw::RawImage;
use store::calls::put_block;
use store::fault::{BLOCK_BYTES, Protection};
use store::store::Store;

/// An image of which a block can be marked damaged.
pub(super) trait Mark: Store {
    fn mark(&mut self, block: u32)
        ensures after { Self.blocks self.new ≡ harmed (Self.blocks self.old) block }
        ensures base { Self.base_of self.new ≡ Self.base_of self.old };
}

impl Mark for FlatImage<'_, '_> {
    fn mark(&mut self, block: u32) {
        self.mark_damaged(block);
    }
}

impl Mark for RawImage<'_> {
    fn mark(&mut self, block: u32) {
        self.mark_damaged(block);
    }
}

/// The byte that pattern `p` has at a place of a block.
fn pattern_byte(p: u32, block: u32, place: u32) -> u8
    ensures { result ≡ pattern_byte p block place }
{
    ((u64::from(p) + 7 * u64::from(block) + u64::from(place)) % 256) as u8
}

/// The bytes that pattern `p` has in a block.
pub(super) fn pattern(p: u32, block: u32) -> [u8; BLOCK_BYTES]
    ensures { result ≡ pattern_block p block }
{
    let mut bytes = [0u8; BLOCK_BYTES];
    for (place, byte) in bytes.iter_mut().enumerate() {
        *byte = pattern_byte(p, block, place as u32);
    }
    bytes
}

/// Makes every block of an image sound, with a pattern's bytes.
fn lay_pattern<S: Mark>(image: &mut S, p: u32)
    ensures after { S.blocks image.new ≡ patterned p (S.blocks image.old) }
    ensures base { S.base_of image.new ≡ S.base_of image.old }
{
    for block in 0..image.size() {
        let _ = put_block(image, block, &pattern(p, block));
    }
}

/// Marks blocks of an image damaged.
fn mark_all<S: Mark>(image: &mut S, blocks: &[u32])
    ensures after { S.blocks image.new ≡ harmed_all (S.blocks image.old) blocks.now }
    ensures base { S.base_of image.new ≡ S.base_of image.old }
{
    for block in blocks {
        image.mark(*block);
    }
}

/// Does what one line of the script asks of the image.
fn apply<S: Mark>(image: &mut S, fill: &Fill)
    ensures after { S.blocks image.new ≡ filled fill.now (S.blocks image.old) }
    ensures base { S.base_of image.new ≡ S.base_of image.old }
{
    match fill {
        Fill::Pattern(p) => lay_pattern(image, *p),
        Fill::Damage(blocks) => mark_all(image, blocks.as_slice()),
    }
}

/// Does what each line asks, in their order.
fn apply_all<S: Mark>(image: &mut S, fills: &[Fill])
    ensures after { S.blocks image.new ≡ filled_all fills.now (S.blocks image.old) }
    ensures base { S.base_of image.new ≡ S.base_of image.old }
{
    for fill in fills {
        apply(image, fill);
    }
}

/// Does what each line asks of a flat image in this memory, protected or not. Memory that is refused is left as it is.
fn prepare_flat(bytes: &mut [u8], damage: &mut [u8], fills: &[Fill])
    ensures blocks { flat_offered bytes.new damage.new Protection.Open ≡ filled_all fills.now (flat_offered bytes.old damage.old Protection.Open) }
    ensures memory { FlatLeft bytes.old damage.old bytes.new damage.new }
{
    if FlatImage::check(bytes.len(), damage.len()).is_ok() {
        let mut image = FlatImage::over(bytes, damage, Protection::Open);
        apply_all(&mut image, fills);
    }
}

/// The same of a raw image.
fn prepare_raw(bytes: &mut [u8], spares: &[u8], records: u32, fills: &[Fill])
    ensures blocks { raw_offered bytes.new spares.now records Protection.Open ≡ filled_all fills.now (raw_offered bytes.old spares.now records Protection.Open) }
    ensures memory { RawLeft bytes.old spares.now records bytes.new }
{
    if RawImage::check(bytes.len(), spares, records).is_ok() {
        let mut image = RawImage::over(bytes, spares, records, Protection::Open);
        apply_all(&mut image, fills);
    }
}

/// The same of an image of either kind.
pub(super) fn prepare(medium: &mut Medium, fills: &[Fill])
    ensures { Prepared fills.now medium.old medium.new }
{
    match medium {
        Medium::Flat { bytes, damage } => {
            prepare_flat(bytes.as_mut_slice(), damage.as_mut_slice(), fills);
        }
        Medium::Raw {
            bytes,
            spares,
            records,
        } => prepare_raw(bytes.as_mut_slice(), spares.as_slice(), *records, fills),
    }
}
