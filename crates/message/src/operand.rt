//! The bytes that follow a code: numbers, the most significant byte first.
ghost use Rattle.std.specs.Prelude.{◌≡◌, ◌^◌, ◌<◌, ◌≤◌, IfSome};
ghost use Rattle.message.specs.Operands.{number_in, vector_within};

use flex::vector::Vector;

/// The number of the first N bytes, or none where there are fewer.
pub(super) fn number<const N: usize>(rest: &[u8]) -> Option<u64>
    requires { N ≤ 8 }
    ensures is { result ≡ number_in N rest.now }
    ensures small { IfSome result (λ n. n < 256 ^ N) }
{
    let bytes = rest.first_chunk::<N>()?;
    let mut number = 0;
    for byte in bytes {
        number = 256 * number + u64::from(*byte);
    }
    Some(number)
}

/// The vector of three bytes of cylinder, one of head and two of sector, or none where there are fewer.
pub(super) fn vector(rest: &[u8]) -> Option<Vector>
    ensures { result ≡ vector_within rest.now }
{
    let [a, b, c, head, e, f, ..] = rest else {
        return None;
    };
    Some(Vector {
        cylinder: u32::from_be_bytes([0, *a, *b, *c]),
        head: *head,
        sector: u16::from_be_bytes([*e, *f]),
    })
}
