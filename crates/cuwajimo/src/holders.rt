ghost use Rattle.std.specs.Prelude.{◌≡◌, Some, is_none};
ghost use Rattle.std.specs.List.{list_all};
ghost use Rattle.cuwajimo.specs.Holders.{held_words, holders_of, holders_words, units_words, first_holder, holds};

use desk::answer::Answer;
use desk::session::Session;
use device::controller::HOSTS;
use flex::unit_map::UNITS;
use std::fmt;
use store::store::Store;

/// Who holds the lock of the device, and that of each unit.
#[derive(Clone, Copy)]
pub struct Holders {
    device: Option<u8>,
    units: [Option<u8>; UNITS],
}

impl Holders {
    /// Those of a session's device.
    pub(super) fn of<S: Store>(session: &Session<S>) -> Holders
        ensures { result ≡ holders_of session.now.device.controller.hosts }
    {
        let mut units = [None; UNITS];
        // by index: `from_fn` and `iter_mut` were tried, and the proof does not close over what they ensure of an `Option`
        for unit in 0..UNITS {
            units[unit] = holder(session, Lock::Unit(unit as u8));
        }
        Holders {
            device: holder(session, Lock::Device),
            units,
        }
    }
}

/// `locks: device none units 0=1 3=2`
impl fmt::Display for Holders {
    ghost output = { λ holders. Some (holders_words holders) };

    fn fmt<W: fmt::Write>(&self, f: &mut fmt::Formatter<W>) -> fmt::Result {
        let units = UnitHolders(&self.units);
        match self.device {
            Some(host) => write!(f, "locks: device {host} units{units}"),
            None => write!(f, "locks: device none units{units}"),
        }
    }
}

/// Each locked unit with its holder, or that there is none.
#[derive(Clone, Copy)]
struct UnitHolders<'a>(&'a [Option<u8>]);

impl fmt::Display for UnitHolders<'_> {
    ghost output = { λ holders. Some (units_words holders.0.now) };

    fn fmt<W: fmt::Write>(&self, f: &mut fmt::Formatter<W>) -> fmt::Result {
        if none_held(self.0) {
            return f.write_str(" none");
        }
        for (unit, holder) in self.0.iter().enumerate() {
            if let Some(host) = holder {
                write!(f, " {unit}={host}")?;
            }
        }
        Ok(())
    }
}

/// Whether no unit has a holder.
fn none_held(units: &[Option<u8>]) -> bool
    ensures { result ≡ list_all is_none units.now }
{
    units.iter().all(|holder| holder.is_none())
}

/// What a host can hold: the device, or a unit.
#[derive(Clone, Copy)]
enum Lock {
    Device,
    Unit(u8),
}

/// Whether a host holds a lock.
fn has<S: Store>(session: &Session<S>, host: u8, lock: Lock) -> bool
    ensures { result ≡ holds session.now.device.controller.hosts lock host }
{
    match session.locks(host) {
        Answer::Locks(locks) => match lock {
            Lock::Device => locks.device,
            Lock::Unit(unit) => locks.has_unit(unit),
        },
        _ => false,
    }
}

/// The first host that holds a lock; no two do.
fn holder<S: Store>(session: &Session<S>, lock: Lock) -> Option<u8>
    ensures { result ≡ first_holder session.now.device.controller.hosts lock }
{
    (0..HOSTS as u8).find(|host| has(session, *host, lock))
}
