ghost use Rattle.std.specs.Prelude.{◌≡◌};
ghost use Rattle.message.specs.Commands.{is_on_unit};

/// A real command.
#[derive(Clone, Copy, PartialEq, Eq, Debug)]
pub enum Command {
    Read,
    Write,
    Verify,
    ExtendedDescribe,
    SetDeviceLock,
    DeleteDeviceLock,
    SetUnitLock,
    DeleteUnitLock,
}

impl Command {
    /// Whether the command is on a unit, which is then the one in effect.
    pub fn on_unit(self) -> bool
        ensures { result ≡ is_on_unit self }
    {
        match self {
            Command::Read
            | Command::Write
            | Command::Verify
            | Command::SetUnitLock
            | Command::DeleteUnitLock => true,
            Command::ExtendedDescribe | Command::SetDeviceLock | Command::DeleteDeviceLock => false,
        }
    }
}
