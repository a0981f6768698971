ghost use Rattle.std.specs.Prelude.{◌≡◌, ◌++◌, Some, codes, decimal};
ghost use Rattle.flex.specs.Statuses.{numbers_of};

use std::fmt;

/// Why the device refuses, or what it has to report.
#[derive(Clone, Copy, PartialEq, Eq, Debug)]
pub enum Status {
    IllegalOpcode,
    ModuleAddressing,
    AddressBounds,
    ParameterBounds,
    MessageSequence,
    MessageLength,
    PowerOn,
    DeviceAvailable,
    ResourceUnavailable,
    UnitAvailable,
    UnitFault,
    UnrecoverableData,
    EndOfVolume,
    BadUnitMap,
    StoreTooSmall,
    BadHost,
    BadBuffer,
}

impl Status {
    /// The group and, within it, the code.
    fn numbers(self) -> (u8, u8)
        ensures { result ≡ numbers_of self }
    {
        match self {
            Status::IllegalOpcode => (1, 1),
            Status::ModuleAddressing => (1, 2),
            Status::AddressBounds => (1, 3),
            Status::ParameterBounds => (1, 4),
            Status::MessageSequence => (1, 6),
            Status::MessageLength => (2, 0),
            Status::PowerOn => (3, 1),
            Status::DeviceAvailable => (4, 1),
            Status::ResourceUnavailable => (4, 3),
            Status::UnitAvailable => (4, 8),
            Status::UnitFault => (5, 4),
            Status::UnrecoverableData => (8, 4),
            Status::EndOfVolume => (8, 5),
            Status::BadUnitMap => (128, 1),
            Status::StoreTooSmall => (128, 2),
            Status::BadHost => (128, 4),
            Status::BadBuffer => (128, 5),
        }
    }

    /// The group.
    pub fn group(self) -> u8
        ensures { result ≡ (numbers_of self).0 }
    {
        self.numbers().0
    }

    /// The code within the group.
    pub fn code(self) -> u8
        ensures { result ≡ (numbers_of self).1 }
    {
        self.numbers().1
    }
}

/// A status is written group/code.
impl fmt::Display for Status {
    ghost output = { λ s. Some (decimal (numbers_of s).0 ++ (codes "/" ++ decimal (numbers_of s).1)) };

    fn fmt<W: fmt::Write>(&self, f: &mut fmt::Formatter<W>) -> fmt::Result {
        let (group, code) = self.numbers();
        write!(f, "{group}/{code}")
    }
}
