ghost use Rattle.std.specs.Prelude.{◌≡◌, ◌*◌, ◌<◌, true, false, length, if◌then◌else◌, Ok, nat_lt};
ghost use Rattle.std.specs.Result.{result_err};
ghost use Rattle.store.specs.Blocks.{read_answer, read_buffer, write_answer, written};
ghost use Rattle.image.specs.Memory.{laid};
ghost use Rattle.image.specs.Images.{if_accepted, harmed};
ghost use Rattle.flat.specs.Lengths.{flat_size};

use super::lengths::flat_count;
use super::marks::{is_marked, mark, unmark};
use image::check::ask;
use image::copy::copy_block;
use image::refusal::Refusal;
use store::fault::{BLOCK_BYTES, FaultKind, Protection, StoreFault};
use store::store::{ReadStore, Store};

/// Lent memory with block b at byte 256 x b, and a lent map of one bit a block.
// One text for this and a raw image would be no plainer: each call's contract says what its own memory holds after,
// and a trait of the layout would have to carry all of that, for texts of a few lines.
#[derive(Drop)]
pub struct FlatImage<'a, 'd> {
    bytes: &'a mut [u8],
    damage: &'d mut [u8],
    protection: Protection,
    count: u32,
    ghost counted: { count ≡ flat_size (length bytes.now) (length damage.now) },
}

impl<'a, 'd> FlatImage<'a, 'd> {
    ghost use Rattle.flat.specs.Flat.{flat_meaning, flat_refusal, flat_offered, flat_base, with_mark, FlatHolds, OnlyMark};

    /// Tells whether memory and map of these lengths, in bytes, fit one another: `Ok`, or the refusal.
    pub fn check(bytes: usize, damage: usize) -> Result<(), Refusal>
        ensures { result_err result ≡ flat_refusal bytes damage }
    {
        flat_count(bytes, damage).ok_or(Refusal::Lengths)?;
        Ok(())
    }

    /// Takes memory and map as an image; where `check` refuses their lengths, it has no blocks.
    pub fn over(
        bytes: &'a mut [u8],
        damage: &'d mut [u8],
        protection: Protection,
    ) -> FlatImage<'a, 'd>
        ensures memory { (result.bytes.now ≡ bytes.old) × (result.damage.now ≡ damage.old) × (result.protection ≡ protection) }
        ensures bytes_name { result.bytes.ghost_name ≡ bytes.entry.ghost_name }
        ensures damage_name { result.damage.ghost_name ≡ damage.entry.ghost_name }
        ensures blocks { flat_meaning result ≡ flat_offered bytes.old damage.old protection }
        ensures law { FlatHolds bytes.old damage.old (flat_meaning result) }
    {
        let count = flat_count(bytes.len(), damage.len()).unwrap_or(0);
        FlatImage {
            bytes,
            damage,
            protection,
            count,
        }
    }

    /// The memory, as the image leaves it so far.
    pub fn bytes(&self) -> &[u8]
        ensures { result.now ≡ self.now.bytes.now }
    {
        &*self.bytes
    }

    /// The map, as the image leaves it so far.
    pub fn damage(&self) -> &[u8]
        ensures { result.now ≡ self.now.damage.now }
    {
        &*self.damage
    }

    /// How many blocks there are.
    fn count(&self) -> u32
        ensures size { result ≡ flat_size (length self.now.bytes.now) (length self.now.damage.now) }
        ensures blocks { result ≡ length (flat_meaning self.now) }
    {
        self.count
    }

    /// Marks a block damaged, whatever its protection.
    pub fn mark_damaged(&mut self, block: u32)
        ensures blocks { flat_meaning self.new ≡ harmed (flat_meaning self.old) block }
        ensures bytes { self.new.bytes.now ≡ self.old.bytes.now }
        ensures damage { self.new.damage.now ≡ (if nat_lt block (length (flat_meaning self.old)) then with_mark self.old.damage.now block else self.old.damage.now) }
        ensures protection { self.new.protection ≡ self.old.protection }
        ensures law { block < length (flat_meaning self.old) → OnlyMark self.old.damage.now block true self.new.damage.now }
        ensures base { flat_base self.new ≡ flat_base self.old }
    {
        if block < self.count() {
            mark(self.damage, block as usize);
        }
    }

    fn fetch(&self, block: u32, buffer: &mut [u8]) -> Result<(), StoreFault>
        ensures answer { result ≡ read_answer (flat_meaning self.now) block buffer.old }
        ensures buffer { buffer.new ≡ read_buffer (flat_meaning self.now) block buffer.old }
    {
        let number = ask(buffer.len(), block, self.count())?;
        if is_marked(self.damage, number) {
            return Err(FaultKind::Damaged.at(block));
        }
        let at = BLOCK_BYTES * number;
        copy_block(&self.bytes[at..at + BLOCK_BYTES], buffer);
        Ok(())
    }
}

impl ReadStore for FlatImage<'_, '_> {
    ghost use Rattle.flat.specs.Flat.{FlatBase, flat_meaning, flat_base, SameFlat};
    ghost use Rattle.flat.specs.Lawful.{flat_sized};

    ghost blocks = { λ s. flat_meaning s };

    ghost Base = { FlatBase };

    ghost base_of = { λ s. flat_base s };

    ghost sized = { λ s. flat_sized s.bytes.now s.damage.now s.protection };

    fn size(&self) -> u32 {
        self.count()
    }

    fn read(&mut self, block: u32, buffer: &mut [u8]) -> Result<(), StoreFault>
        ensures answer { result ≡ read_answer (flat_meaning self.old) block buffer.old }
        ensures buffer { buffer.new ≡ read_buffer (flat_meaning self.old) block buffer.old }
        ensures same { flat_meaning self.new ≡ flat_meaning self.old }
        ensures memory { SameFlat self.old self.new }
        ensures base { flat_base self.new ≡ flat_base self.old }
    {
        self.fetch(block, buffer)
    }
}

impl Store for FlatImage<'_, '_> {
    ghost use Rattle.std.specs.Prelude.{refl};
    ghost use Rattle.flat.specs.Flat.{flat_meaning, flat_base, without_mark, OnlyMark, SameFlat};

    ghost stored = { λ s. flat_meaning s };

    ghost settled = { λ _. Unit {0} };

    ghost holds = { λ _ _. refl };

    fn write(&mut self, block: u32, bytes: &[u8]) -> Result<(), StoreFault>
        ensures answer { result ≡ write_answer (flat_meaning self.old) block bytes.now }
        ensures after { flat_meaning self.new ≡ written (flat_meaning self.old) block bytes.now }
        ensures bytes { self.new.bytes.now ≡ if_accepted result (laid self.old.bytes.now (256 * block) bytes.now) self.old.bytes.now }
        ensures damage { self.new.damage.now ≡ if_accepted result (without_mark self.old.damage.now block) self.old.damage.now }
        ensures protection { self.new.protection ≡ self.old.protection }
        ensures law { result ≡ Ok tt → OnlyMark self.old.damage.now block false self.new.damage.now }
        ensures base { flat_base self.new ≡ flat_base self.old }
    {
        let number = ask(bytes.len(), block, self.count())?;
        self.protection.permit(block)?;
        let at = BLOCK_BYTES * number;
        copy_block(bytes, &mut self.bytes[at..at + BLOCK_BYTES]);
        unmark(self.damage, number);
        Ok(())
    }

    fn protection(&self, block: u32) -> Result<Protection, StoreFault> {
        if block >= self.count() {
            return Err(FaultKind::Beyond.at(block));
        }
        Ok(self.protection)
    }

    fn settle(&mut self)
        ensures same { flat_meaning self.new ≡ flat_meaning self.old }
        ensures settled { Unit {0} }
        ensures memory { SameFlat self.old self.new }
        ensures base { flat_base self.new ≡ flat_base self.old }
    {
        // an image keeps nothing back
    }
}
