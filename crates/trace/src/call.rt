ghost use Rattle.std.specs.Prelude.{◌≡◌, ◌<◌, length, IfSome};
ghost use Rattle.std.specs.Option.{option_map};
ghost use Rattle.trace.specs.Entries.{buffer_size, entry, entry_in, message_in};

use super::filling::Filling;
use super::number::split_u16;

/// A call of a trace.
#[derive(Clone, Copy)]
pub enum Call<'t> {
    Command { host: u8, message: &'t [u8] },
    Segment { host: u8, filling: Filling<'t> },
    Report { host: u8, filling: Filling<'t> },
    Cancel { host: u8 },
    Clear { host: u8 },
    Notice { host: u8 },
    Fault { host: u8 },
    Parameters { host: u8 },
    Locks { host: u8 },
    Activity,
}

/// A command's message, and the bytes after it.
fn split_message(bytes: &[u8]) -> Option<(&[u8], &[u8])>
    ensures { option_map (λ p. (p.0.now, p.1.now)) result ≡ message_in bytes.now }
{
    let (length, rest) = split_u16(bytes)?;
    rest.split_at_checked(usize::from(length))
}

impl<'t> Call<'t> {
    /// The call at the front of a trace, and the bytes after it; or none where it is not whole, or of no kind.
    pub fn split(trace: &'t [u8]) -> Option<(Call<'t>, &'t [u8])>
        ensures is { option_map (λ p. (entry p.0, p.1.now)) result ≡ entry_in trace.now }
        ensures shorter { IfSome result (λ p. length p.1.now < length trace.now) }
    {
        let [kind, host, rest @ ..] = trace else {
            return None;
        };
        let host = *host;
        match *kind {
            0 => {
                let (message, rest) = split_message(rest)?;
                Some((Call::Command { host, message }, rest))
            }
            1 => {
                let (filling, rest) = Filling::split(rest)?;
                Some((Call::Segment { host, filling }, rest))
            }
            2 => {
                let (filling, rest) = Filling::split(rest)?;
                Some((Call::Report { host, filling }, rest))
            }
            3 => Some((Call::Cancel { host }, rest)),
            4 => Some((Call::Clear { host }, rest)),
            5 => Some((Call::Notice { host }, rest)),
            6 => Some((Call::Fault { host }, rest)),
            7 => Some((Call::Parameters { host }, rest)),
            8 => Some((Call::Locks { host }, rest)),
            9 => Some((Call::Activity, rest)),
            _ => None,
        }
    }

    /// How many bytes the buffer of the call has; a call that lends none has none.
    pub fn buffer_size(&self) -> usize
        ensures { result ≡ buffer_size (entry self.now) }
    {
        match self {
            Call::Segment { host: _, filling } | Call::Report { host: _, filling } => {
                filling.size()
            }
            _ => 0,
        }
    }
}
