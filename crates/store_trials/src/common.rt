use store::fault::{FaultKind, Protection, StoreFault};
use store::store::{ReadStore, Store};

/// Whether a call was refused with this fault.
pub(super) fn refused(answer: Result<(), StoreFault>, kind: FaultKind, block: u32) -> bool {
    answer == Err(StoreFault { kind, block })
}

/// Whether a block is sound with this byte all over.
pub(super) fn reads<S: ReadStore>(store: &mut S, block: u32, byte: u8) -> bool {
    let mut buffer = [!byte; 256];
    let answer = store.read(block, &mut buffer);
    answer == Ok(()) && buffer == [byte; 256]
}

/// Whether a read is refused with this fault, and leaves the buffer.
pub(super) fn read_refused<S: ReadStore>(
    store: &mut S,
    block: u32,
    length: usize,
    kind: FaultKind,
) -> bool {
    let mut buffer = [7u8; 300];
    if length > 300 {
        return false;
    }
    let answer = store.read(block, &mut buffer[0..length]);
    refused(answer, kind, block) && buffer == [7u8; 300]
}

/// Whether a write of this byte all over is taken.
pub(super) fn writes<S: Store>(store: &mut S, block: u32, byte: u8) -> bool {
    store.write(block, &[byte; 256]) == Ok(())
}

pub(super) fn write_refused<S: Store>(store: &mut S, block: u32, kind: FaultKind) -> bool {
    refused(store.write(block, &[9u8; 256]), kind, block)
}

pub(super) fn is_open<S: Store>(store: &S, block: u32) -> bool {
    store.protection(block) == Ok(Protection::Open)
}

pub(super) fn is_protected<S: Store>(store: &S, block: u32) -> bool {
    store.protection(block) == Ok(Protection::Protected)
}

pub(super) fn is_beyond<S: Store>(store: &S, block: u32) -> bool {
    store.protection(block)
        == Err(StoreFault {
            kind: FaultKind::Beyond,
            block,
        })
}

/// Whether a byte of some memory is this one.
pub(super) fn has(bytes: &[u8], at: usize, byte: u8) -> bool {
    bytes.get(at).copied() == Some(byte)
}
