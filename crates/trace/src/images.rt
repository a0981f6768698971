ghost use Rattle.std.specs.Prelude.{◌≡◌, true, length};
ghost use Rattle.flat.specs.Flat.{flat_offered, flat_refusal, FlatLeft};
ghost use Rattle.raw.specs.Raw.{raw_offered, raw_refusal, RawLeft};
ghost use Rattle.layer.specs.Guards.{guard};
ghost use Rattle.layer.specs.Windows.{outside, window};
ghost use Rattle.trace.specs.Endings.{unplayed};
ghost use Rattle.trace.specs.Heads.{head_in};
ghost use Rattle.trace.specs.Plays.{PlaysAll, tells};

use super::ending::Ending;
use super::play::{Playable, play_lent, play_piled};
use flat::flat::FlatImage;
use layer::run::Run;
use raw::raw::RawImage;
use store::fault::Protection;

/// Plays a trace over a flat image.
pub fn play_flat(image: &mut [u8], damage: &mut [u8], trace: &[u8], output: &mut [u8]) -> Ending
    ensures plays { PlaysAll (head_in trace.now) (flat_refusal (length image.old) (length damage.old)) (flat_offered image.old damage.old Protection.Open) output.old (tells (flat_offered image.new damage.new Protection.Open) output.new result) }
    ensures unplayed { unplayed result.how ≡ true → (image.new ≡ image.old) × (damage.new ≡ damage.old) }
    ensures memory { FlatLeft image.old damage.old image.new damage.new }
{
    let refusal = FlatImage::check(image.len(), damage.len());
    let playable = match Playable::of(trace, refusal) {
        Ok(playable) => playable,
        Err(how) => return Ending::refused(how),
    };
    let mut flat = FlatImage::over(image, damage, Protection::Open);
    play_lent(&mut flat, playable, output)
}

/// Plays a trace over a raw image.
pub fn play_raw(
    image: &mut [u8],
    spares: &[u8],
    records: u32,
    trace: &[u8],
    output: &mut [u8],
) -> Ending
    ensures plays { PlaysAll (head_in trace.now) (raw_refusal (length image.old) spares.now records) (raw_offered image.old spares.now records Protection.Open) output.old (tells (raw_offered image.new spares.now records Protection.Open) output.new result) }
    ensures unplayed { unplayed result.how ≡ true → image.new ≡ image.old }
    ensures memory { RawLeft image.old spares.now records image.new }
{
    let refusal = RawImage::check(image.len(), spares, records);
    let playable = match Playable::of(trace, refusal) {
        Ok(playable) => playable,
        Err(how) => return Ending::refused(how),
    };
    let mut raw = RawImage::over(image, spares, records, Protection::Open);
    play_lent(&mut raw, playable, output)
}

/// Plays a trace over a flat image under a window, a write guard and a cache.
pub fn play_pile(
    image: &mut [u8],
    damage: &mut [u8],
    shown: Run,
    guarded: Run,
    trace: &[u8],
    output: &mut [u8],
) -> Ending
    ensures plays { PlaysAll (head_in trace.now) (flat_refusal (length image.old) (length damage.old)) (guard (window (flat_offered image.old damage.old Protection.Open) shown) guarded) output.old (tells (guard (window (flat_offered image.new damage.new Protection.Open) shown) guarded) output.new result) }
    ensures others { outside (flat_offered image.new damage.new Protection.Open) shown ≡ outside (flat_offered image.old damage.old Protection.Open) shown }
    ensures unplayed { unplayed result.how ≡ true → (image.new ≡ image.old) × (damage.new ≡ damage.old) }
    ensures memory { FlatLeft image.old damage.old image.new damage.new }
{
    let refusal = FlatImage::check(image.len(), damage.len());
    let playable = match Playable::of(trace, refusal) {
        Ok(playable) => playable,
        Err(how) => return Ending::refused(how),
    };
    let mut bottom = FlatImage::over(image, damage, Protection::Open);
    play_piled(&mut bottom, shown, guarded, playable, output)
}
