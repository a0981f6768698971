ghost use Rattle.std.specs.Prelude.{◌≡◌, ◌<◌, true, is_some, is_ok, if◌then◌else◌, IfSome, Some, None, slice_index_or};
ghost use Rattle.store.specs.Blocks.{read_answer, read_buffer, write_answer, written, is_open_at};
ghost use Rattle.std.specs.List.{slice_get};
ghost use Rattle.cache.specs.Once.{Once};

use super::slot::{Slot, find};
use store::fault::{BLOCK_BYTES, FaultKind, Protection, StoreFault};
use store::store::{ReadStore, Store};

/// How many blocks a cache keeps.
pub const SLOTS: usize = 8;

/// Keeps up to eight open blocks above any store, and writes them to it late.
/// It is not `Drop`: what it keeps is let go by `release` alone, which settles it first.
pub struct Cache<S> {
    below: S,
    slots: [Slot; SLOTS],
    turn: usize,
    ghost once: { Once slots },
}

impl<S: Store> Cache<S> {
    ghost use Rattle.cache.specs.Caches.{kept, vacant_slots, cached_by, held, no_slot, without_block, turn_place, giving_up, place, place_for, with_room, keeping, KeptLate};

    /// A cache that keeps nothing yet.
    pub fn new(below: S) -> Cache<S>
        ensures below { result.below ≡ below }
        ensures vacant { (result.slots ≡ vacant_slots) × (result.turn ≡ 0) }
        ensures same { cached_by S.blocks result ≡ S.blocks below }
    {
        let vacant = Slot {
            block: None,
            bytes: [0; BLOCK_BYTES],
        };
        Cache {
            below,
            slots: [vacant; SLOTS],
            turn: 0,
        }
    }

    /// The store below, as it is with what is kept not yet written to it.
    pub fn below(&self) -> &S
        ensures { result.now ≡ self.now.below }
    {
        &self.below
    }

    /// Whether a block is kept.
    pub fn keeps(&self, block: u32) -> bool
        ensures { result ≡ is_some (kept self.now.slots block) }
    {
        find(&self.slots, Some(block)).is_some()
    }

    /// Settles the cache, ends it, and hands back the store below.
    pub fn release(mut self) -> S
        ensures same { S.blocks result ≡ cached_by S.blocks self }
        ensures settled { S.settled result }
        ensures base { S.base_of result ≡ S.base_of self.below }
    {
        self.settle();
        let Cache {
            below,
            slots: _,
            turn: _,
        } = self;
        below
    }

    /// Writes the block of a slot, if it keeps one, to the store below, and keeps it no more.
    fn flush(&mut self, place: usize)
        requires { place < 8 }
        ensures held { held S.blocks self.new ≡ without_block (held S.blocks self.old) (slice_index_or self.old.slots place no_slot).block }
        ensures base { S.base_of self.new.below ≡ S.base_of self.old.below }
    {
        if let Some(block) = self.slots[place].block {
            let _ = self.below.write(block, &self.slots[place].bytes);
            self.slots[place].block = None;
        }
    }

    /// Gives up the block in the slot whose turn it is, and says which slot that is.
    fn give_up(&mut self) -> usize
        ensures place { result ≡ turn_place self.old.turn }
        ensures held { held S.blocks self.new ≡ giving_up (held S.blocks self.old) }
        ensures base { S.base_of self.new.below ≡ S.base_of self.old.below }
    {
        let place = self.turn % SLOTS;
        self.flush(place);
        self.turn = place + 1;
        place
    }

    /// The slot to put a block in: its own, a vacant one, or one whose block is given up for it.
    fn room(&mut self, own: Option<usize>, block: u32) -> usize
        requires own { own ≡ place self.old.slots (Some block) }
        requires inside { IfSome own (λ i. i < 8) }
        ensures place { result ≡ place_for self.old.slots self.old.turn block }
        ensures within { result < 8 }
        ensures held { held S.blocks self.new ≡ with_room (held S.blocks self.old) block }
        ensures base { S.base_of self.new.below ≡ S.base_of self.old.below }
    {
        // `unwrap_or_else` was tried: from it the proof learns nothing of `self` where no block is given up
        match own.or_else(|| find(&self.slots, None)) {
            Some(place) => place,
            None => self.give_up(),
        }
    }

    /// Keeps a block with these bytes, in the slot that keeps it already if one does.
    // The caller says which does, since `read` has looked for it before.
    fn keep(&mut self, own: Option<usize>, block: u32, bytes: &[u8; BLOCK_BYTES])
        requires own { own ≡ place self.old.slots (Some block) }
        requires inside { IfSome own (λ i. i < 8) }
        ensures held { held S.blocks self.new ≡ keeping (held S.blocks self.old) block bytes.now }
        ensures after { cached_by S.blocks self.new ≡ written (cached_by S.blocks self.old) block bytes.now }
        ensures late { KeptLate (held S.blocks self.old) (held S.blocks self.new) block bytes.now }
        ensures base { S.base_of self.new.below ≡ S.base_of self.old.below }
    {
        let place = self.room(own, block);
        self.slots[place].fill(block, bytes);
    }

    /// Reads an open block that is not kept, and keeps it.
    fn fetch(&mut self, block: u32, buffer: &mut [u8; BLOCK_BYTES]) -> Result<(), StoreFault>
        requires { place self.old.slots (Some block) ≡ None }
        ensures answer { result ≡ read_answer (S.blocks self.old.below) block buffer.old }
        ensures buffer { buffer.new ≡ read_buffer (S.blocks self.old.below) block buffer.old }
        ensures held { held S.blocks self.new ≡ (if is_ok result then keeping (held S.blocks self.old) block buffer.new else held S.blocks self.old) }
        ensures after { cached_by S.blocks self.new ≡ (if is_ok result then written (cached_by S.blocks self.old) block buffer.new else cached_by S.blocks self.old) }
        ensures late { is_ok result ≡ true → KeptLate (held S.blocks self.old) (held S.blocks self.new) block buffer.new }
        ensures base { S.base_of self.new.below ≡ S.base_of self.old.below }
    {
        self.below.read(block, buffer)?;
        self.keep(None, block, buffer);
        Ok(())
    }
}

impl<S: Store> ReadStore for Cache<S> {
    ghost use Rattle.cache.specs.Caches.{cached_by, cached_sized, held, after_read, KeptLate};

    ghost blocks = { λ s. cached_by S.blocks s };

    ghost Base = { S.Base };

    ghost base_of = { λ s. S.base_of s.below };

    ghost sized = { λ s. cached_sized (S.blocks s.below) s.slots (S.sized s.below) };

    fn size(&self) -> u32 {
        self.below.size()
    }

    fn read(&mut self, block: u32, buffer: &mut [u8]) -> Result<(), StoreFault>
        ensures answer { result ≡ read_answer (cached_by S.blocks self.old) block buffer.old }
        ensures buffer { buffer.new ≡ read_buffer (cached_by S.blocks self.old) block buffer.old }
        ensures same { cached_by S.blocks self.new ≡ cached_by S.blocks self.old }
        ensures held { held S.blocks self.new ≡ after_read (held S.blocks self.old) block buffer.old }
        ensures late { is_ok result ≡ true → is_open_at (slice_get (S.blocks self.old.below) block) ≡ true → KeptLate (held S.blocks self.old) (held S.blocks self.new) block buffer.new }
        ensures base { S.base_of self.new.below ≡ S.base_of self.old.below }
    {
        let buffer = buffer.as_mut_array().ok_or(FaultKind::Length.at(block))?;
        if self.below.protection(block) != Ok(Protection::Open) {
            return self.below.read(block, buffer);
        }
        if let Some(place) = find(&self.slots, Some(block)) {
            *buffer = self.slots[place].bytes;
            return Ok(());
        }
        self.fetch(block, buffer)
    }
}

impl<S: Store> Store for Cache<S> {
    ghost use Rattle.std.proofs.Common.{◌∙◌};
    ghost use Rattle.cache.specs.Caches.{cached_by, held, after_write, after_settle, KeptLate};

    ghost stored = { λ s. S.stored s.below };

    ghost settled = { λ s. S.settled s.below × (S.blocks s.below ≡ cached_by S.blocks s) };

    ghost holds = { λ s h. S.holds s.below h.0 ∙ h.1 };

    fn write(&mut self, block: u32, bytes: &[u8]) -> Result<(), StoreFault>
        ensures answer { result ≡ write_answer (cached_by S.blocks self.old) block bytes.now }
        ensures after { cached_by S.blocks self.new ≡ written (cached_by S.blocks self.old) block bytes.now }
        ensures held { held S.blocks self.new ≡ after_write (held S.blocks self.old) block bytes.now }
        ensures late { is_ok result ≡ true → KeptLate (held S.blocks self.old) (held S.blocks self.new) block bytes.now }
        ensures base { S.base_of self.new.below ≡ S.base_of self.old.below }
    {
        let bytes = bytes.as_array().ok_or(FaultKind::Length.at(block))?;
        self.below.protection(block)?.permit(block)?;
        let own = find(&self.slots, Some(block));
        self.keep(own, block, bytes);
        Ok(())
    }

    fn protection(&self, block: u32) -> Result<Protection, StoreFault> {
        self.below.protection(block)
    }

    fn settle(&mut self)
        ensures same { cached_by S.blocks self.new ≡ cached_by S.blocks self.old }
        ensures settled { S.settled self.new.below × (S.blocks self.new.below ≡ cached_by S.blocks self.new) }
        ensures held { held S.blocks self.new ≡ after_settle (held S.blocks self.old) }
        ensures base { S.base_of self.new.below ≡ S.base_of self.old.below }
    {
        for slot in self.slots.iter().rev() {
            if let Some(block) = slot.block {
                let _ = self.below.write(block, &slot.bytes);
            }
        }
        self.below.settle()
    }
}
