ghost use Rattle.std.specs.Prelude.{◌≡◌, ◌≤◌, ◌++◌, length, drop};

use super::number::split_u32;

/// The buffer that a call lends the device: how many bytes it has, and those that its front is given.
#[derive(Clone, Copy)]
pub struct Filling<'t> {
    size: u32,
    given: &'t [u8],
    ghost fits: { length given.now ≤ size },
}

impl<'t> Filling<'t> {
    ghost use Rattle.std.specs.Option.{option_map};
    ghost use Rattle.trace.specs.Entries.{lent, lent_in};

    /// The filling at the front of bytes, and the bytes after it; or none where it is not whole.
    pub(super) fn split(bytes: &'t [u8]) -> Option<(Filling<'t>, &'t [u8])>
        ensures { option_map (λ p. (lent p.0, p.1.now)) result ≡ lent_in bytes.now }
    {
        let (size, rest) = split_u32(bytes)?;
        let (count, rest) = split_u32(rest)?;
        if count > size {
            return None;
        }
        let (given, rest) = rest.split_at_checked(count as usize)?;
        Some((Filling { size, given }, rest))
    }

    /// How many bytes the buffer has.
    pub fn size(self) -> usize
        ensures { result ≡ self.entry.size }
    {
        self.size as usize
    }

    /// Lays the given bytes into the front of the buffer.
    pub(super) fn lay(self, buffer: &mut [u8])
        requires { self.size ≤ length buffer.old }
        ensures { buffer.new ≡ self.entry.given.now ++ drop (length self.entry.given.now) buffer.old }
    {
        buffer[..self.given.len()].copy_from_slice(self.given);
    }
}
