ghost use Rattle.std.specs.Prelude.{◌≡◌};
ghost use Rattle.cuwajimo.specs.Plans.{shown_run, guarded_run, NothingAsked};

use super::files::ImageFile;
use flex::unit::Unit;
use layer::run::Run;
use std::alloc::Global;
use store::fault::Protection;

/// Where the image comes from.
#[derive(Drop)]
pub enum Source {
    /// a flat image of so many blocks, in memory
    Flat {
        blocks: u32,
    },
    /// a flat image in two files, the blocks and the damage map
    FlatFiles {
        bytes: ImageFile,
        damage: ImageFile,
    },
    /// a raw image in memory
    Raw {
        records: u32,
        spares: Vec<u8>,
    },
    /// a raw image in two files, the records and the spare places
    RawFiles {
        bytes: ImageFile,
        spares: ImageFile,
        records: u32,
    },
}

/// Where the master comes from.
#[derive(Drop)]
pub enum MasterSource {
    /// so many blocks of a pattern, in memory
    Pattern { blocks: u32, pattern: u32 },
    /// a file's bytes
    File(ImageFile),
}

/// What is done to the image before it is used.
#[derive(Drop)]
pub enum Fill {
    Pattern(u32),
    Damage(Vec<u32>),
}

/// What the building lines of one case ask for.
#[derive(Drop)]
pub struct Plan {
    pub source: Option<Source>,
    pub fills: Vec<Fill>,
    pub master: Option<MasterSource>,
    pub protection: Protection,
    pub window: Option<Run>,
    pub guard: Option<Run>,
    pub cache: bool,
    pub units: Vec<Unit>,
    pub end: u32,
    pub device: u32,
}

impl Plan {
    /// No image, no master, no layer, no unit.
    pub(super) fn new(heap: Global) -> Plan
        ensures { NothingAsked result }
    {
        Plan {
            source: None,
            fills: Vec::new(heap),
            master: None,
            protection: Protection::Open,
            window: None,
            guard: None,
            cache: false,
            units: Vec::new(heap),
            end: 0,
            device: 0,
        }
    }

    /// The run of the image's blocks that the window shows: all of them where no line says which.
    pub(super) fn shown(&self) -> Run
        ensures { result ≡ shown_run self.now }
    {
        self.window.unwrap_or(Run::whole())
    }

    /// The run of the window's blocks that the write guard protects: none where no line says which.
    pub(super) fn guarded(&self) -> Run
        ensures { result ≡ guarded_run self.now }
    {
        self.guard.unwrap_or(Run::none())
    }
}
