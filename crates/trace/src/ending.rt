ghost use Rattle.std.specs.Prelude.{◌≡◌, ◌<◌, ◌^◌};

/// How a trace ended.
#[derive(Clone, Copy)]
pub enum How {
    /// every call was made
    Whole,
    /// the head is not whole
    NoHead,
    /// the image was refused
    NoImage,
    /// the units make no map
    NoMap,
    /// a call is not whole, or is of no kind
    NoCall,
    /// the output has no room for a call's answer and buffer
    NoRoom,
}

/// How a trace ended, and how many bytes of the output were written.
#[derive(Clone, Copy)]
pub struct Ending {
    how: How,
    written: usize,
    ghost few: { written < 2 ^ 56 },
}

/// The most bytes of an output that are used: what is left of a number's 64 bits beside how it ended.
pub const MOST_WRITTEN: usize = (1 << 56) - 1;

impl How {
    ghost use Rattle.trace.specs.Endings.{how_code};

    fn code(self) -> u8
        ensures { result ≡ how_code self }
    {
        match self {
            How::Whole => 0,
            How::NoHead => 1,
            How::NoImage => 2,
            How::NoMap => 3,
            How::NoCall => 4,
            How::NoRoom => 5,
        }
    }
}

impl Ending {
    ghost use Rattle.trace.specs.Endings.{packed};

    /// A refusal, before anything was written.
    pub(super) fn refused(how: How) -> Ending
        ensures how { result.how ≡ how }
        ensures written { result.written ≡ 0 }
    {
        Ending { how, written: 0 }
    }

    /// After so many bytes were written.
    pub(super) fn after(how: How, written: usize) -> Ending
        requires { written < 2 ^ 56 }
        ensures how { result.how ≡ how }
        ensures written { result.written ≡ written }
    {
        Ending { how, written }
    }

    /// Both in one number: how it ended in the upper 8 bits, the bytes that were written in the lower 56.
    pub fn number(self) -> u64
        ensures { result ≡ packed self.how self.written }
    {
        u64::from(self.how.code()) * (1 << 56) + self.written as u64
    }
}
