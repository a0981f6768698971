ghost use Rattle.std.specs.Prelude.{◌≡◌};
ghost use Rattle.host.specs.Messages.{wanted};
ghost use Rattle.host.specs.Waits.{notice_of};

use flex::status::Status;
use message::command::Command;
use message::message::Message;

/// What a message that comes to the lock check asks for.
#[derive(Clone, Copy, PartialEq, Eq, Debug)]
pub enum Want {
    /// Neither a lock nor a unit.
    Pass,
    /// The device's lock.
    Device,
    /// A unit's lock.
    Lock(u8),
    /// A unit.
    Unit(u8),
}

impl Want {
    /// What a message asks for.
    // By name, where `From` would be no plainer: it is a part of the message and not the message in another form.
    pub fn of(message: Message) -> Want
        ensures { result ≡ wanted message }
    {
        let unit = message.parameters.unit;
        match message.command {
            None | Some(Command::ExtendedDescribe | Command::DeleteDeviceLock) => Want::Pass,
            Some(Command::SetDeviceLock) => Want::Device,
            Some(Command::SetUnitLock) => Want::Lock(unit),
            Some(Command::Read | Command::Write | Command::Verify | Command::DeleteUnitLock) => {
                Want::Unit(unit)
            }
        }
    }

    /// What a host that waits for it is told once nothing stands in its way.
    pub fn notice(self) -> Status
        ensures { result ≡ notice_of self }
    {
        match self {
            Want::Pass | Want::Device => Status::DeviceAvailable,
            Want::Lock(_) | Want::Unit(_) => Status::UnitAvailable,
        }
    }
}
