ghost use Rattle.std.specs.Prelude.{◌≡◌, ◌+◌, ◌-◌, ◌*◌, ◌<◌, ◌≤◌, [], None, length, IfOk, if◌then◌else◌, Ok, MatchResult, nat_lt};
ghost use Rattle.std.specs.Result.{result_err};
ghost use Rattle.store.specs.Blocks.{read_answer, read_buffer, write_answer, written};
ghost use Rattle.image.specs.Images.{if_accepted, harmed};
ghost use Rattle.raw.specs.Lengths.{raw_size};

use super::lengths::{raw_count, records_fit};
use super::tracks::{HEADER_BYTES, first_misplaced, record_start};
use image::check::ask;
use image::copy::copy_block;
use image::refusal::Refusal;
use store::fault::{BLOCK_BYTES, FaultKind, Protection, StoreFault};
use store::store::{ReadStore, Store};

/// What header byte 0 of a record is set to: any other number than SOUND says damaged too.
const SOUND: u8 = 0;

const DAMAGED: u8 = 1;

/// Lent memory of 276-byte records in tracks, and one lent byte a track that is the place of its spare record.
// A type of its own: see `FlatImage`.
#[derive(Drop)]
pub struct RawImage<'a> {
    bytes: &'a mut [u8],
    spares: &'a [u8],
    records: u32,
    protection: Protection,
    count: u32,
    ghost counted: { count ≡ raw_size (length bytes.now) spares.now records },
}

impl<'a> RawImage<'a> {
    ghost use Rattle.raw.specs.Raw.{raw_meaning, image_record, raw_offered, raw_refusal, raw_base, with_flag, Layout, RawHolds, SpareTold};

    /// Tells whether memory of this length, in bytes, is an image with these spare places, one byte a track, and so many
    /// records a track: `Ok`, or the refusal.
    pub fn check(bytes: usize, spares: &[u8], records: u32) -> Result<(), Refusal>
        ensures answer { result_err result ≡ raw_refusal bytes spares.now records }
        ensures law { MatchResult result (λ _. Layout spares.now records (raw_size bytes spares.now records)) (SpareTold spares.now records) }
    {
        if !records_fit(records) {
            return Err(Refusal::Records);
        }
        raw_count(bytes, spares.len(), records).ok_or(Refusal::Lengths)?;
        match first_misplaced(spares, records) {
            Some(track) => Err(Refusal::Spare { track }),
            None => Ok(()),
        }
    }

    /// Takes memory and spare places, one byte a track, as an image of so many records a track. Where `check` refuses them, it
    /// has no blocks.
    pub fn over(
        bytes: &'a mut [u8],
        spares: &'a [u8],
        records: u32,
        protection: Protection,
    ) -> RawImage<'a>
        ensures memory { (result.bytes.now ≡ bytes.old) × (result.spares.now ≡ spares.now) × (result.records ≡ records) × (result.protection ≡ protection) }
        ensures bytes_name { result.bytes.ghost_name ≡ bytes.entry.ghost_name }
        ensures spares_reference { result.spares ≡ spares.entry }
        ensures blocks { raw_meaning result ≡ raw_offered bytes.old spares.now records protection }
        ensures law { RawHolds bytes.old spares.now records (raw_meaning result) }
    {
        let count = match RawImage::check(bytes.len(), spares, records) {
            Ok(()) => raw_count(bytes.len(), spares.len(), records).unwrap_or(0),
            Err(_) => 0,
        };
        RawImage {
            bytes,
            spares,
            records,
            protection,
            count,
        }
    }

    /// The memory, as the image leaves it so far.
    pub fn bytes(&self) -> &[u8]
        ensures { result.now ≡ self.now.bytes.now }
    {
        &*self.bytes
    }

    /// The spare places, which no call changes.
    pub fn spares(&self) -> &[u8]
        ensures { result.now ≡ self.now.spares.now }
    {
        &*self.spares
    }

    /// Marks a block damaged, whatever its protection.
    pub fn mark_damaged(&mut self, block: u32)
        ensures blocks { raw_meaning self.new ≡ harmed (raw_meaning self.old) block }
        ensures bytes { self.new.bytes.now ≡ (if nat_lt block (length (raw_meaning self.old)) then with_flag self.old.bytes.now (image_record self.old block) else self.old.bytes.now) }
        ensures spares { self.new.spares.now ≡ self.old.spares.now }
        ensures records { self.new.records ≡ self.old.records }
        ensures protection { self.new.protection ≡ self.old.protection }
        ensures base { raw_base self.new ≡ raw_base self.old }
    {
        if block < self.count() {
            let at = self.start(block);
            self.bytes[at] = DAMAGED;
        }
    }

    /// How many blocks there are.
    fn count(&self) -> u32
        ensures size { result ≡ raw_size (length self.now.bytes.now) self.now.spares.now self.now.records }
        ensures blocks { result ≡ length (raw_meaning self.now) }
    {
        self.count
    }

    /// The byte at which the record of a block begins.
    fn start(&self, block: u32) -> usize
        requires { block < raw_size (length self.now.bytes.now) self.now.spares.now self.now.records }
        ensures value { result ≡ 276 * image_record self.now block }
        ensures inside { result + 276 ≤ length self.now.bytes.now }
    {
        record_start(self.spares, self.records, block)
    }

    fn fetch(&self, block: u32, buffer: &mut [u8]) -> Result<(), StoreFault>
        ensures answer { result ≡ read_answer (raw_meaning self.now) block buffer.old }
        ensures buffer { buffer.new ≡ read_buffer (raw_meaning self.now) block buffer.old }
    {
        ask(buffer.len(), block, self.count())?;
        let at = self.start(block);
        if self.bytes[at] != SOUND {
            return Err(FaultKind::Damaged.at(block));
        }
        let from = at + HEADER_BYTES;
        copy_block(&self.bytes[from..from + BLOCK_BYTES], buffer);
        Ok(())
    }
}

impl ReadStore for RawImage<'_> {
    ghost use Rattle.raw.specs.Raw.{RawBase, raw_meaning, raw_base, SameRaw};
    ghost use Rattle.raw.specs.Lawful.{raw_sized};

    ghost blocks = { λ s. raw_meaning s };

    ghost Base = { RawBase };

    ghost base_of = { λ s. raw_base s };

    ghost sized = { λ s. raw_sized s.bytes.now s.spares.now s.records s.protection };

    fn size(&self) -> u32 {
        self.count()
    }

    fn read(&mut self, block: u32, buffer: &mut [u8]) -> Result<(), StoreFault>
        ensures answer { result ≡ read_answer (raw_meaning self.old) block buffer.old }
        ensures buffer { buffer.new ≡ read_buffer (raw_meaning self.old) block buffer.old }
        ensures same { raw_meaning self.new ≡ raw_meaning self.old }
        ensures memory { SameRaw self.old self.new }
        ensures base { raw_base self.new ≡ raw_base self.old }
    {
        self.fetch(block, buffer)
    }
}

impl Store for RawImage<'_> {
    ghost use Rattle.std.specs.Prelude.{refl};
    ghost use Rattle.raw.specs.Raw.{raw_meaning, raw_base, image_record, with_data, SameRaw, RecordWritten};

    ghost stored = { λ s. raw_meaning s };

    ghost settled = { λ _. Unit {0} };

    ghost holds = { λ _ _. refl };

    fn write(&mut self, block: u32, bytes: &[u8]) -> Result<(), StoreFault>
        ensures answer { result ≡ write_answer (raw_meaning self.old) block bytes.now }
        ensures after { raw_meaning self.new ≡ written (raw_meaning self.old) block bytes.now }
        ensures bytes { self.new.bytes.now ≡ if_accepted result (with_data self.old.bytes.now (image_record self.old block) bytes.now) self.old.bytes.now }
        ensures spares { self.new.spares.now ≡ self.old.spares.now }
        ensures records { self.new.records ≡ self.old.records }
        ensures protection { self.new.protection ≡ self.old.protection }
        ensures base { raw_base self.new ≡ raw_base self.old }
        ensures law { result ≡ Ok tt → RecordWritten self.old.bytes.now (image_record self.old block) bytes.now self.new.bytes.now }
    {
        ask(bytes.len(), block, self.count())?;
        self.protection.permit(block)?;
        let at = self.start(block);
        self.bytes[at] = SOUND;
        let from = at + HEADER_BYTES;
        copy_block(bytes, &mut self.bytes[from..from + BLOCK_BYTES]);
        Ok(())
    }

    fn protection(&self, block: u32) -> Result<Protection, StoreFault> {
        if block >= self.count() {
            return Err(FaultKind::Beyond.at(block));
        }
        Ok(self.protection)
    }

    fn settle(&mut self)
        ensures same { raw_meaning self.new ≡ raw_meaning self.old }
        ensures settled { Unit {0} }
        ensures memory { SameRaw self.old self.new }
        ensures base { raw_base self.new ≡ raw_base self.old }
    {
        // an image keeps nothing back
    }
}
