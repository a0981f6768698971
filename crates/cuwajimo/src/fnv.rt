ghost use Rattle.std.specs.Prelude.{◌≡◌, Some};
ghost use Rattle.cuwajimo.specs.Sums.{fnv, hex_digits, sum_of};

use std::fmt;

/// The sum by which bytes are shown, in 16 hexadecimal digits.
#[derive(Clone, Copy)]
pub struct Sum(u64);

impl Sum {
    /// That of some bytes.
    pub(super) fn of(bytes: &[u8]) -> Sum
        ensures { result ≡ sum_of bytes.now }
    {
        Sum(fnv1a(bytes))
    }
}

impl fmt::Display for Sum {
    ghost output = { λ sum. Some (hex_digits 16 sum.0) };

    fn fmt<W: fmt::Write>(&self, f: &mut fmt::Formatter<W>) -> fmt::Result {
        write!(f, "{:016x}", self.0)
    }
}

/// The 64-bit FNV-1a hash of some bytes.
fn fnv1a(bytes: &[u8]) -> u64
    ensures { result ≡ fnv bytes.now }
{
    let mut h = 0xcbf2_9ce4_8422_2325u64;
    for b in bytes {
        h = (h ^ u64::from(*b)).wrapping_mul(0x100_0000_01b3);
    }
    h
}
