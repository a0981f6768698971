ghost use Rattle.std.specs.Prelude.{◌≡◌};
ghost use Rattle.host.specs.Hosts.{any, unit_lock};
ghost use Rattle.host.specs.Messages.{locks_after, with_unit_lock};

use flex::unit_map::UNITS;
use message::command::Command;

/// The locks that a host holds, by default none. The controller has no lock.
#[derive(Clone, Copy, Default)]
pub struct Locks {
    pub device: bool,
    pub units: [bool; UNITS],
}

impl Locks {
    /// Whether the lock of that unit is held.
    pub fn has_unit(&self, unit: u8) -> bool
        ensures { result ≡ unit_lock self.now unit }
    {
        self.units.get(usize::from(unit)).is_some_and(|held| *held)
    }

    /// Whether any unit's lock is held.
    pub(super) fn has_any_unit(&self) -> bool
        ensures { result ≡ any self.now.units }
    {
        self.units.contains(&true)
    }

    /// Holds the lock of that unit, or holds it no more; there is none above the last unit.
    #[tactic(auto, using(std::proofs::lemmas::List::set_past))]
    fn set_unit(&mut self, unit: u8, held: bool)
        ensures { self.new ≡ with_unit_lock self.old unit held }
    {
        // By `get_mut` the proof doesn't close: its contract doesn't say what the array is once the place it lends is written.
        if usize::from(unit) < UNITS {
            self.units[usize::from(unit)] = held;
        }
    }

    /// The change of locks by an accepted message.
    pub(super) fn accept(&mut self, command: Option<Command>, unit: u8)
        ensures { self.new ≡ locks_after command unit self.old }
    {
        match command {
            Some(Command::SetDeviceLock) => self.device = true,
            Some(Command::DeleteDeviceLock) => self.device = false,
            Some(Command::SetUnitLock) => self.set_unit(unit, true),
            Some(Command::DeleteUnitLock) => self.set_unit(unit, false),
            Some(Command::Read | Command::Write | Command::Verify | Command::ExtendedDescribe)
            | None => {}
        }
    }
}
