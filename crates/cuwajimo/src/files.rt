use super::trouble::{Spot, Trouble};
use std::alloc::AllocError;
use std::fs::OpenOptions;
use std::{fs, io};

/// A file of an image, and the line of the script that names it.
#[derive(Drop)]
pub struct ImageFile {
    pub(super) line: u32,
    pub(super) path: String,
}

/// From how many bytes on the user is told that a file is being read or written.
const LARGE: u64 = 64 << 20;

/// Says on standard error that a large file is being worked on.
fn tell(rt: &HostRuntime, what: &str, path: &str, bytes: u64) {
    if bytes >= LARGE {
        let _ = eprintln!(rt; "{what} '{path}', {} MiB", bytes >> 20);
    }
}

/// Writes a file that has the permissions of another.
fn write_like(rt: &HostRuntime, path: &str, other: &str, bytes: &[u8]) -> io::Result<()> {
    let permissions = fs::metadata(rt, other)?.permissions();
    fs::write(rt, path, bytes)?;
    fs::set_permissions(rt, path, permissions)
}

impl ImageFile {
    /// What went wrong with it, at a line of the script.
    fn trouble(&self, rt: &HostRuntime, line: u32, what: &str, error: io::Error) -> Trouble {
        let spot = Spot {
            heap: rt.alloc(),
            line,
        };
        spot.file(what, self.path.as_str(), error)
    }

    /// That it can be opened, before anything is done.
    pub(super) fn check(&self, rt: &HostRuntime) -> Result<(), Trouble> {
        fs::open(rt, self.path.as_str())
            .map(drop)
            .map_err(|e| self.trouble(rt, self.line, "cannot open", e))
    }

    /// What it holds.
    pub(super) fn contents(&self, rt: &HostRuntime) -> Result<Vec<u8>, Trouble> {
        if let Ok(metadata) = fs::metadata(rt, self.path.as_str()) {
            tell(rt, "reading", self.path.as_str(), metadata.len());
        }
        fs::read(rt, self.path.as_str()).map_err(|e| self.trouble(rt, self.line, "cannot read", e))
    }

    /// The name of the new file beside it.
    fn fresh(&self, rt: &HostRuntime) -> Result<String, AllocError> {
        format!(in rt.alloc(); "{}.new", self.path)
    }

    /// Writes a new file beside it, as the call on that line asks, if it may be written itself. It stays as it is.
    pub(super) fn stage(&self, rt: &HostRuntime, line: u32, bytes: &[u8]) -> Result<(), Trouble> {
        let fresh = self.fresh(rt)?;
        tell(rt, "writing", self.path.as_str(), bytes.len() as u64);
        let staged = match OpenOptions::new().write(true).open(rt, self.path.as_str()) {
            Ok(_) => write_like(rt, fresh.as_str(), self.path.as_str(), bytes),
            Err(e) => Err(e),
        };
        staged.map_err(|e| {
            self.unstage(rt);
            self.trouble(rt, line, "cannot write", e)
        })
    }

    /// Takes the new file away again.
    pub(super) fn unstage(&self, rt: &HostRuntime) {
        if let Ok(fresh) = self.fresh(rt) {
            let _ = fs::remove_file(rt, fresh.as_str());
        }
    }

    /// Puts the new file in its place.
    pub(super) fn replace(&self, rt: &HostRuntime, line: u32) -> Result<(), Trouble> {
        let fresh = self.fresh(rt)?;
        fs::rename(rt, fresh.as_str(), self.path.as_str()).map_err(|e| self.trouble(
            rt,
            line,
            "cannot write",
            e,
        ))
    }
}
