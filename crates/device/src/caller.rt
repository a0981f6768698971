ghost use Rattle.std.specs.Prelude.{◌≡◌, ◌<◌};

use super::controller::HOSTS;

/// The number of a host that makes a call: 0 to 7.
#[derive(Clone, Copy)]
pub struct Caller {
    pub(super) number: u8,
    ghost within: { number < 8 },
}

impl Caller {
    ghost use Rattle.device.specs.Callers.{number_of, number_at};

    /// The host of that number, or none above 7.
    pub(super) fn find(number: u8) -> Option<Caller>
        ensures { number_of result ≡ number_at number }
    {
        if usize::from(number) < HOSTS {
            Some(Caller { number })
        } else {
            None
        }
    }

    /// Its place in the table.
    pub(super) fn place(self) -> usize
        ensures { result ≡ self.number }
    {
        usize::from(self.number)
    }
}
