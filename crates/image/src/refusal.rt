ghost use Rattle.std.specs.Prelude.{◌≡◌, Some};
ghost use Rattle.image.specs.Refusals.{refusal_numbers, refusal_text};

use std::fmt;

/// Why lent memory is no image: the check that refused it, of those in this order.
#[derive(Clone, Copy, PartialEq, Eq, Debug)]
pub enum Refusal {
    /// a track has not 2 to 256 records
    Records,
    /// the lengths do not fit one another, or there are too many blocks
    Lengths,
    /// the spare place of this track, the first such, is not in its track
    Spare { track: u32 },
}

impl Refusal {
    /// The group of the refusal's status and the code within it.
    fn numbers(&self) -> (u8, u8)
        ensures { result ≡ refusal_numbers self.now }
    {
        match self {
            Refusal::Records | Refusal::Lengths | Refusal::Spare { .. } => (128, 3),
        }
    }

    /// The group of the refusal's status.
    pub fn group(&self) -> u8
        ensures { result ≡ (refusal_numbers self.now).0 }
    {
        self.numbers().0
    }

    /// The code of the refusal's status within its group.
    pub fn code(&self) -> u8
        ensures { result ≡ (refusal_numbers self.now).1 }
    {
        self.numbers().1
    }
}

/// A refusal is written as its status, group/code.
impl fmt::Display for Refusal {
    ghost output = { λ r. Some (refusal_text r) };

    fn fmt<W: fmt::Write>(&self, f: &mut fmt::Formatter<W>) -> fmt::Result {
        let (group, code) = self.numbers();
        write!(f, "{group}/{code}")
    }
}
