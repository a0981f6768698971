//! Numbers at the front of bytes, the most significant byte first.
ghost use Rattle.std.specs.Prelude.{◌≡◌};
ghost use Rattle.trace.specs.Reading.{shown, u16_in, u32_in};

/// A number of two bytes, and the bytes after it; or none where there are fewer.
pub(super) fn split_u16(bytes: &[u8]) -> Option<(u16, &[u8])>
    ensures { shown result ≡ u16_in bytes.now }
{
    let (number, rest) = bytes.split_first_chunk()?;
    Some((u16::from_be_bytes(*number), rest))
}

/// A number of four bytes, and the bytes after it; or none where there are fewer.
pub(super) fn split_u32(bytes: &[u8]) -> Option<(u32, &[u8])>
    ensures { shown result ≡ u32_in bytes.now }
{
    let (number, rest) = bytes.split_first_chunk()?;
    Some((u32::from_be_bytes(*number), rest))
}
