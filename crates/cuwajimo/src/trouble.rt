ghost use Rattle.std.specs.Prelude.{◌≡◌};
ghost use Rattle.cuwajimo.specs.declared.trouble.Trouble.TheVariants.{Io as IoTrouble, Memory as NoMemory};
ghost use Rattle.cuwajimo.specs.Troubles.{Blames};

use std::alloc::{AllocError, AllocFailed, Global};
use std::{fmt, io};

/// What ends a run before its end.
#[derive(Drop)]
pub enum Trouble {
    /// a line of the script that cannot be read or carried out
    Line { line: u32, what: String },
    /// the script itself, of that name, cannot be read
    Script { name: String, error: io::Error },
    /// an answer cannot be printed
    Io(io::Error),
    /// more words after the program's name than one
    Usage,
    Memory,
}

impl From<io::Error> for Trouble {
    ghost from_gives = { λ e r. r ≡ IoTrouble e };

    fn from(e: io::Error) -> Trouble {
        Trouble::Io(e)
    }
}

impl From<AllocError> for Trouble {
    ghost from_gives = { λ _ r. r ≡ NoMemory };

    fn from(_e: AllocError) -> Trouble {
        Trouble::Memory
    }
}

impl<T: Drop> From<AllocFailed<T>> for Trouble {
    ghost from_gives = { λ _ r. r ≡ NoMemory };

    fn from(_e: AllocFailed<T>) -> Trouble {
        Trouble::Memory
    }
}

impl fmt::Display for Trouble {
    fn fmt<W: fmt::Write>(&self, f: &mut fmt::Formatter<W>) -> fmt::Result {
        match self {
            Trouble::Line { line, what } => write!(f, "line {line}: {what}"),
            Trouble::Script { name, error } => {
                write!(f, "cannot read the script '{name}': {error}")
            }
            Trouble::Io(e) => write!(f, "cannot print: {e}"),
            Trouble::Usage => f.write_str(USAGE),
            Trouble::Memory => f.write_str("out of memory"),
        }
    }
}

/// How the program is called.
pub const USAGE: &str = "usage: cuwajimo [SCRIPT], without a name for the script on standard input";

/// The trouble with a script that cannot be read.
pub(super) fn unread(rt: &HostRuntime, name: &str, error: io::Error) -> Trouble {
    match String::from_str(rt.alloc(), name) {
        Ok(name) => Trouble::Script { name, error },
        Err(e) => Trouble::from(e),
    }
}

/// The most characters of a word that are shown.
const SHOWN: usize = 40;

/// The front of a word, as far as it is shown, and what stands for the rest.
fn shown(word: &str) -> (&str, &str) {
    match word.char_indices().nth(SHOWN) {
        Some((end, _)) => (word.get(..end).unwrap_or(word), ".."),
        None => (word, ""),
    }
}

/// A line of the script, for what is to be said of it.
#[derive(Clone, Copy)]
pub struct Spot {
    pub heap: Global,
    pub line: u32,
}

impl Spot {
    /// The trouble with this line, in words that there may be no memory for.
    fn said(self, what: Result<String, AllocError>) -> Trouble
        ensures { Blames self.line result }
    {
        let line = self.line;
        what.map_or_else(Trouble::from, |what| Trouble::Line { line, what })
    }

    /// The trouble with this line, in these words.
    pub(super) fn trouble(self, what: &str) -> Trouble
        ensures { Blames self.line result }
    {
        self.said(String::from_str(self.heap, what))
    }

    /// The trouble with this line, about a word of it.
    pub(super) fn about(self, what: &str, word: &str) -> Trouble
        ensures { Blames self.line result }
    {
        let (front, rest) = shown(word);
        self.said(format!(in self.heap; "{what} '{front}{rest}'"))
    }

    /// A file that could not be read or written.
    pub(super) fn file(self, what: &str, path: &str, error: io::Error) -> Trouble
        ensures { Blames self.line result }
    {
        self.said(format!(in self.heap; "{what} '{path}': {error}"))
    }
}
