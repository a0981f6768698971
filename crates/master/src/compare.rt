ghost use Rattle.std.specs.Prelude.{◌≡◌, ◌↔◌, IsTrue};
ghost use Rattle.store.specs.Blocks.{fetched};
ghost use Rattle.store.specs.Laws.{ReadsAlike};
ghost use Rattle.layer.specs.Windows.{window};
ghost use Rattle.master.specs.Compares.{first_unlike, read_out, CompareLaw};

use layer::run::Run;
use layer::window::Window;
use store::fault::{BLOCK_BYTES, StoreFault};
use store::store::ReadStore;

/// Whether two refusals are the same.
fn same_fault(fault: StoreFault, other: StoreFault) -> bool
    ensures { IsTrue result ↔ (fault ≡ other) }
{
    fault == other
}

/// Reads a block into memory of one block.
#[inline(always)]
fn read_whole<S: ReadStore>(
    store: &mut S,
    block: u32,
    bytes: &mut [u8; BLOCK_BYTES],
) -> Result<(), StoreFault>
    ensures read { read_out result bytes.new ≡ fetched (S.blocks store.old) block }
    ensures same { S.blocks store.new ≡ S.blocks store.old }
    ensures base { S.base_of store.new ≡ S.base_of store.old }
{
    store.read(block, bytes)
}

/// Whether whoever reads this block gets the same from both. What is read of each is left in its memory.
#[inline(always)]
fn is_alike<A: ReadStore, B: ReadStore>(
    a: &mut A,
    b: &mut B,
    block: u32,
    bytes: &mut [u8; BLOCK_BYTES],
    others: &mut [u8; BLOCK_BYTES],
) -> bool
    ensures answer { IsTrue result ↔ ReadsAlike (A.blocks a.old) (B.blocks b.old) block }
    ensures one_same { A.blocks a.new ≡ A.blocks a.old }
    ensures one_base { A.base_of a.new ≡ A.base_of a.old }
    ensures other_same { B.blocks b.new ≡ B.blocks b.old }
    ensures other_base { B.base_of b.new ≡ B.base_of b.old }
{
    match (read_whole(a, block, bytes), read_whole(b, block, others)) {
        (Ok(()), Ok(())) => *bytes == *others,
        (Err(fault), Err(other)) => same_fault(fault, other),
        _ => false,
    }
}

/// The first block, counted from 0, that is in one only, is damaged in one only, or has other bytes; none where there is no such.
/// A block that is damaged in both is alike, and protection plays no part. Units of two discs are compared through windows,
/// and then the count is from the windows' first blocks. Both readers mean the same after.
pub fn compare<A: ReadStore, B: ReadStore>(a: &mut A, b: &mut B) -> Option<u32>
    ensures answer { result ≡ first_unlike (A.blocks a.old) (B.blocks b.old) }
    ensures law { CompareLaw (A.blocks a.old) (B.blocks b.old) result }
    ensures one_same { A.blocks a.new ≡ A.blocks a.old }
    ensures one_base { A.base_of a.new ≡ A.base_of a.old }
    ensures other_same { B.blocks b.new ≡ B.blocks b.old }
    ensures other_base { B.base_of b.new ≡ B.base_of b.old }
{
    let mut bytes = [0u8; BLOCK_BYTES];
    let mut others = [0u8; BLOCK_BYTES];
    for block in 0..a.size().max(b.size()) {
        if !is_alike(a, b, block, &mut bytes, &mut others) {
            return Some(block);
        }
    }
    None
}

/// The same of a run of each, seen through a window: the count is from the runs' first blocks, and a run that passes an end
/// has the blocks that are there.
pub fn compare_runs<A: ReadStore, B: ReadStore>(
    a: &mut A,
    run: Run,
    b: &mut B,
    other: Run,
) -> Option<u32>
    ensures answer { result ≡ first_unlike (window (A.blocks a.old) run) (window (B.blocks b.old) other) }
    ensures law { CompareLaw (window (A.blocks a.old) run) (window (B.blocks b.old) other) result }
    ensures one_same { A.blocks a.new ≡ A.blocks a.old }
    ensures one_base { A.base_of a.new ≡ A.base_of a.old }
    ensures other_same { B.blocks b.new ≡ B.blocks b.old }
    ensures other_base { B.base_of b.new ≡ B.base_of b.old }
{
    let mut unit = Window::new(a, run);
    let mut of = Window::new(b, other);
    let differs = compare(&mut unit, &mut of);
    let _ = unit.release();
    let _ = of.release();
    differs
}
