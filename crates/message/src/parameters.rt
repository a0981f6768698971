ghost use Rattle.std.specs.Prelude.{◌≡◌};
ghost use Rattle.message.specs.Messages.{at_power_on};

/// What a host's commands go by.
#[derive(Clone, Copy, PartialEq, Eq, Debug)]
pub struct Parameters {
    pub unit: u8,
    /// The target address in the unit.
    pub address: u32,
    /// The length in bytes.
    pub length: u32,
}

/// The length that stands for the whole unit.
pub const WHOLE_UNIT: u32 = 0xffff_ffff;

impl Parameters {
    /// The parameters at power on.
    pub fn power_on() -> Parameters
        ensures { result ≡ at_power_on }
    {
        Parameters {
            unit: 0,
            address: 0,
            length: WHOLE_UNIT,
        }
    }
}
