ghost use Rattle.std.specs.Prelude.{◌≡◌, ◌+◌, ◌*◌, ◌^◌, ◌<◌, ◌≤◌, ◌++◌, length, drop, replicate, Some};
ghost use Rattle.std.specs.List.{slice_get};
ghost use Rattle.std.specs.Result.{result_err};
ghost use Rattle.store.specs.Blocks.{read_at, buffer_at, write_at, written};
ghost use Rattle.host.specs.Progress.{first_fault, segment_of};
ghost use Rattle.transfer.specs.Segments.{zeros, met_by, converted, read_fault, read_bytes, write_fault, write_tried, put, laid};

use host::fault::{HostFault, TransferFault};
use host::transaction::Transaction;
use store::fault::{BLOCK_BYTES, StoreFault};
use store::store::{ReadStore, Store};

/// The blocks of a transaction's next segment, by the number of the first of them in the store.
#[derive(Clone, Copy)]
pub(super) struct Span {
    pub(super) transaction: Transaction,
    pub(super) first: u32,
    ghost blocks_fit: { first + segment_of transaction ≤ 2 ^ 32 },
    ghost addresses_fit: { transaction.at + segment_of transaction ≤ 2 ^ 32 },
}

impl Span {
    ghost use Rattle.transfer.specs.Spans.{in_span};

    /// How many blocks it has.
    fn count(&self) -> u32
        ensures { result ≡ segment_of self.now.transaction }
    {
        self.transaction.segment()
    }

    /// The host's fault where the store refuses block k.
    // That k is below the count is asked by three functions and is no type of its own: k counts the turns of a loop,
    // and a type for it would be made anew at each turn.
    fn fault(&self, k: u32, fault: StoreFault) -> HostFault
        requires { k < segment_of self.now.transaction }
        ensures { result ≡ record { fault = record { store = fault }; unit = self.now.transaction.unit; address = self.now.transaction.at + k } }
    {
        HostFault {
            fault: TransferFault::from(fault),
            unit: self.transaction.unit,
            address: self.transaction.at + k,
        }
    }

    /// Makes zeros of the part of a buffer whose block k cannot be read, and keeps the fault if it is the first.
    // Out of line, so that the loops over blocks that can be read hold no fault.
    #[cold]
    #[inline(never)]
    fn miss(&self, k: u32, refusal: StoreFault, part: &mut [u8], first: &mut Option<HostFault>)
        requires { k < segment_of self.now.transaction }
        ensures part { part.new ≡ replicate (length part.old) 0 }
        ensures fault { first.new ≡ first_fault first.old (Some (record { fault = record { store = refusal }; unit = self.now.transaction.unit; address = self.now.transaction.at + k })) }
    {
        part.fill(0);
        *first = first.or(Some(self.fault(k, refusal)));
    }

    /// Reads block k into its part of a buffer. One that cannot be read reads as zeros, and its fault is kept if it is the first.
    // Inlined, since a call would cost as much as all that is asked of a block.
    #[inline(always)]
    fn read_one<S: ReadStore>(
        &self,
        store: &mut S,
        k: u32,
        part: &mut [u8],
        first: &mut Option<HostFault>,
    )
        requires within { k < segment_of self.now.transaction }
        requires whole { length part.old ≡ 256 }
        ensures fault { first.new ≡ first_fault first.old (met_by (converted (read_at (self.now.first + k) (slice_get (S.blocks store.old) (self.now.first + k)))) self.now.transaction.unit (self.now.transaction.at + k)) }
        ensures part { part.new ≡ buffer_at zeros (slice_get (S.blocks store.old) (self.now.first + k)) }
        ensures same { S.blocks store.new ≡ S.blocks store.old }
        ensures base { S.base_of store.new ≡ S.base_of store.old }
    {
        if let Err(refusal) = store.read(self.first + k, part) {
            self.miss(k, refusal, part, first);
        }
    }

    /// Reads the blocks into the front of the buffer, and tells the first fault.
    pub(super) fn read<S: ReadStore>(&self, store: &mut S, buffer: &mut [u8]) -> Option<HostFault>
        requires room { 256 * segment_of self.now.transaction ≤ length buffer.old }
        ensures fault { result ≡ read_fault self.now.transaction.unit self.now.first self.now.transaction.at (in_span self.now (S.blocks store.old)) }
        ensures buffer { buffer.new ≡ read_bytes (in_span self.now (S.blocks store.old)) ++ drop (256 * segment_of self.now.transaction) buffer.old }
        ensures same { S.blocks store.new ≡ S.blocks store.old }
        ensures base { S.base_of store.new ≡ S.base_of store.old }
    {
        let mut fault = None;
        for k in 0..self.count() {
            // Over `chunks_exact_mut` the proof doesn't close: its contract doesn't say what the buffer ends as.
            let from = BLOCK_BYTES * k as usize;
            let part = &mut buffer[from..from + BLOCK_BYTES];
            self.read_one(store, k, part, &mut fault);
        }
        fault
    }

    /// Reads the blocks to see whether they can be read, and tells the first fault.
    #[tactic(auto, using(crate::proofs::ReadTurns::fault_more))]
    pub(super) fn verify<S: ReadStore>(&self, store: &mut S) -> Option<HostFault>
        ensures fault { result ≡ read_fault self.now.transaction.unit self.now.first self.now.transaction.at (in_span self.now (S.blocks store.old)) }
        ensures same { S.blocks store.new ≡ S.blocks store.old }
        ensures base { S.base_of store.new ≡ S.base_of store.old }
    {
        // One loop for this and `read` would ask for each block where its bytes go, and be no shorter.
        let mut scratch = [0u8; BLOCK_BYTES];
        let mut fault = None;
        for k in 0..self.count() {
            self.read_one(store, k, &mut scratch, &mut fault);
        }
        fault
    }

    /// Writes block k, and tells the fault.
    // Inlined, as `read_one` is.
    #[inline(always)]
    fn write_one<S: Store>(&self, store: &mut S, k: u32, part: &[u8]) -> Result<(), HostFault>
        requires within { k < segment_of self.now.transaction }
        requires whole { length part.now ≡ 256 }
        ensures fault { result_err result ≡ met_by (converted (write_at (self.now.first + k) (slice_get (S.blocks store.old) (self.now.first + k)))) self.now.transaction.unit (self.now.transaction.at + k) }
        ensures after { S.blocks store.new ≡ written (S.blocks store.old) (self.now.first + k) part.now }
        ensures base { S.base_of store.new ≡ S.base_of store.old }
    {
        store
            .write(self.first + k, part)
            .map_err(|refusal| self.fault(k, refusal))
    }

    /// Writes the blocks from the front of the buffer until one refuses, and tells how many were tried and the fault.
    pub(super) fn write<S: Store>(&self, store: &mut S, buffer: &[u8]) -> (u32, Option<HostFault>)
        requires room { 256 * segment_of self.now.transaction ≤ length buffer.now }
        ensures tried { result.0 ≡ write_tried self.now.first (in_span self.now (S.blocks store.old)) }
        ensures fault { result.1 ≡ write_fault self.now.transaction.unit self.now.first self.now.transaction.at (in_span self.now (S.blocks store.old)) }
        ensures after { S.blocks store.new ≡ laid (S.blocks store.old) self.now.first (put self.now.first (in_span self.now (S.blocks store.old)) buffer.now) }
        ensures base { S.base_of store.new ≡ S.base_of store.old }
    {
        for k in 0..self.count() {
            let from = BLOCK_BYTES * k as usize;
            if let Err(fault) = self.write_one(store, k, &buffer[from..from + BLOCK_BYTES]) {
                return (k + 1, Some(fault));
            }
        }
        (self.count(), None)
    }
}
