ghost use Rattle.std.specs.Prelude.{◌≡◌, false, true, MatchResult, Ok};
ghost use Rattle.std.specs.Result.{result_err};
ghost use Rattle.store.specs.Blocks.{protections_of};
ghost use Rattle.layer.specs.Guards.{guard};
ghost use Rattle.layer.specs.Windows.{outside, window};
ghost use Rattle.trace.specs.Endings.{unplayed};
ghost use Rattle.trace.specs.Heads.{head_in};
ghost use Rattle.trace.specs.Plays.{IsRefused, outcome, tells};

use super::ending::{Ending, How, MOST_WRITTEN};
use super::head::Head;
use super::player::run;
use cache::cache::Cache;
use desk::session::Session;
use device::device::power_on;
use flex::unit_map::UnitMap;
use image::refusal::Refusal;
use layer::guard::WriteGuard;
use layer::run::Run;
use layer::window::Window;
use store::store::Store;

/// What a trace asks for: a device of this number, a map of its units, and the calls.
#[derive(Clone, Copy)]
pub struct Playable<'t> {
    device: u32,
    map: UnitMap,
    calls: &'t [u8],
}

/// A store that a trace was played over, and how it ended.
pub struct Played<S> {
    pub store: S,
    pub ending: Ending,
}

impl<'t> Playable<'t> {
    ghost use Rattle.trace.specs.Playables.{IsPlayable};

    /// What the bytes of a trace ask for, over an image that is refused or not; or why nothing is played, which is looked for
    /// in this order: the head is not whole, the image is refused, the units make no map.
    pub fn of(trace: &'t [u8], image: Result<(), Refusal>) -> Result<Playable<'t>, How>
        ensures { MatchResult result (IsPlayable (head_in trace.now) (result_err image)) (IsRefused (head_in trace.now) (result_err image)) }
    {
        let (head, calls) = Head::split(trace).ok_or(How::NoHead)?;
        if image.is_err() {
            return Err(How::NoImage);
        }
        let Ok(map) = head.map() else {
            return Err(How::NoMap);
        };
        Ok(Playable {
            device: head.device(),
            map,
            calls,
        })
    }
}

/// Powers a device on over a store, makes the calls of a trace, and powers it off.
pub fn play<S: Store>(store: S, trace: Playable<'_>, output: &mut [u8]) -> Played<S>
    ensures plays { tells (S.blocks result.store) output.new result.ending ≡ outcome (Ok trace.entry.map) trace.entry.device (S.blocks store) trace.entry.calls.now output.old }
    ensures played { unplayed result.ending.how ≡ false }
    ensures settled { S.settled result.store }
    ensures base { S.base_of result.store ≡ S.base_of store }
{
    let room = output.len().min(MOST_WRITTEN);
    let mut session = Session::new(power_on(trace.device, trace.map, store));
    let ending = run(&mut session, trace.calls, &mut output[..room]);
    Played {
        store: session.power_off(),
        ending,
    }
}

/// The same over a store that is lent: what its memory holds afterwards is its lender's to look at.
pub fn play_lent<S: Store>(store: &mut S, trace: Playable<'_>, output: &mut [u8]) -> Ending
    ensures plays { tells (S.blocks store.new) output.new result ≡ outcome (Ok trace.entry.map) trace.entry.device (S.blocks store.old) trace.entry.calls.now output.old }
    ensures played { unplayed result.how ≡ false }
    ensures settled { S.settled store.new }
    ensures base { S.base_of store.new ≡ S.base_of store.old }
{
    let Played { store: _, ending } = play(store, trace, output);
    ending
}

/// The same under a window, a write guard and a cache: what the pile stands on tells of the blocks that it does not show.
pub fn play_piled<S: Store>(
    store: &mut S,
    shown: Run,
    guarded: Run,
    trace: Playable<'_>,
    output: &mut [u8],
) -> Ending
    ensures plays { tells (guard (window (S.blocks store.new) shown) guarded) output.new result ≡ outcome (Ok trace.entry.map) trace.entry.device (guard (window (S.blocks store.old) shown) guarded) trace.entry.calls.now output.old }
    ensures played { unplayed result.how ≡ false }
    ensures settled { S.settled store.new }
    ensures open { protections_of (window (S.blocks store.new) shown) ≡ protections_of (window (S.blocks store.old) shown) }
    ensures others { outside (S.blocks store.new) shown ≡ outside (S.blocks store.old) shown }
    ensures base { S.base_of store.new ≡ S.base_of store.old }
{
    let pile = Cache::new(WriteGuard::new(Window::new(store, shown), guarded));
    let Played { store, ending } = play(pile, trace, output);
    let _ = store.release().release().release();
    ending
}
