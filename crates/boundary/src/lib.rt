//! Traces over lent memory, for C and Rust: one function for each kind of store; and a comparison. docs/TRACE.md says what they take and give.
#![tactic(auto)]

ghost use Rattle.std.specs.Prelude.{◌≡◌, length};
ghost use Rattle.store.specs.declared.fault.Protection.TheVariants.{Open};
ghost use Rattle.flat.specs.Flat.{flat_offered, flat_refusal, FlatLeft};
ghost use Rattle.raw.specs.Raw.{raw_offered, raw_refusal, RawLeft};
ghost use Rattle.layer.specs.Windows.{outside};
ghost use Rattle.trace.specs.Heads.{head_in};
ghost use Rattle.master.specs.Masters.{master_blocks};
ghost use Rattle.boundary.specs.Exports.{compared, Returns, piled};

use flat::flat::FlatImage;
use layer::run::Run;
use master::compare::compare_runs;
use master::master::Master;
use store::fault::Protection;
use trace::images::{play_flat, play_pile, play_raw};

/// What a comparison returns where no block differs: a number that no block has.
const NONE_DIFFERS: u64 = 1 << 32;

/// Plays a trace over a flat image, and tells how it ended.
#[unsafe(no_mangle)]
pub extern "C" fn cuwajimo_flat(
    image: &mut [u8],
    damage: &mut [u8],
    trace: &[u8],
    output: &mut [u8],
) -> u64
    ensures told { Returns (head_in trace.now) (flat_refusal (length image.old) (length damage.old)) (flat_offered image.old damage.old Open) (flat_offered image.new damage.new Open) ((image.new ≡ image.old) × (damage.new ≡ damage.old)) output.old output.new result }
    ensures memory { FlatLeft image.old damage.old image.new damage.new }
{
    play_flat(image, damage, trace, output).number()
}

/// Plays a trace over a raw image, and tells how it ended.
#[unsafe(no_mangle)]
pub extern "C" fn cuwajimo_raw(
    image: &mut [u8],
    spares: &[u8],
    records: u32,
    trace: &[u8],
    output: &mut [u8],
) -> u64
    ensures told { Returns (head_in trace.now) (raw_refusal (length image.old) spares.now records) (raw_offered image.old spares.now records Open) (raw_offered image.new spares.now records Open) (image.new ≡ image.old) output.old output.new result }
    ensures memory { RawLeft image.old spares.now records image.new }
{
    play_raw(image, spares, records, trace, output).number()
}

/// Plays a trace over a flat image under a window, a write guard and a cache, and tells how it ended.
#[unsafe(no_mangle)]
pub extern "C" fn cuwajimo_pile(
    image: &mut [u8],
    damage: &mut [u8],
    window_first: u32,
    window_count: u32,
    guard_first: u32,
    guard_count: u32,
    trace: &[u8],
    output: &mut [u8],
) -> u64
    ensures told { Returns (head_in trace.now) (flat_refusal (length image.old) (length damage.old)) (piled window_first window_count guard_first guard_count (flat_offered image.old damage.old Open)) (piled window_first window_count guard_first guard_count (flat_offered image.new damage.new Open)) ((image.new ≡ image.old) × (damage.new ≡ damage.old)) output.old output.new result }
    ensures others { outside (flat_offered image.new damage.new Open) (record { first = window_first; count = window_count }) ≡ outside (flat_offered image.old damage.old Open) (record { first = window_first; count = window_count }) }
    ensures memory { FlatLeft image.old damage.old image.new damage.new }
{
    let shown = Run {
        first: window_first,
        count: window_count,
    };
    let guarded = Run {
        first: guard_first,
        count: guard_count,
    };
    play_pile(image, damage, shown, guarded, trace, output).number()
}

/// Compares a run of a flat image's blocks with a run of a master's, and tells the first that differs.
#[unsafe(no_mangle)]
pub extern "C" fn cuwajimo_compare(
    image: &mut [u8],
    damage: &mut [u8],
    first: u32,
    count: u32,
    master: &[u8],
    master_first: u32,
    master_count: u32,
) -> u64
    ensures answer { result ≡ compared (flat_offered image.old damage.old Open) first count (master_blocks master.now) master_first master_count }
    ensures blocks { flat_offered image.new damage.new Open ≡ flat_offered image.old damage.old Open }
    ensures memory { FlatLeft image.old damage.old image.new damage.new }
{
    let mut image = FlatImage::over(image, damage, Protection::Open);
    let run = Run { first, count };
    let other = Run {
        first: master_first,
        count: master_count,
    };
    match compare_runs(&mut image, run, &mut Master::new(master), other) {
        Some(block) => u64::from(block),
        None => NONE_DIFFERS,
    }
}
