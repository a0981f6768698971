ghost use Rattle.std.specs.Prelude.{◌≡◌, Some};
ghost use Rattle.store.specs.Blocks.{fault, write_of};
ghost use Rattle.store.specs.Faults.{kind_word};

use std::fmt;

/// How many bytes a block has.
pub const BLOCK_BYTES: usize = 256;

/// Whether a block may be written.
#[derive(Clone, Copy, PartialEq, Eq, Debug)]
pub enum Protection {
    Open,
    Protected,
}

impl Protection {
    /// Whether a block with this protection may be written: `Ok`, or the refusal.
    pub fn permit(self, block: u32) -> Result<(), StoreFault>
        ensures { result ≡ write_of block self }
    {
        match self {
            Protection::Open => Ok(()),
            Protection::Protected => Err(FaultKind::Protected.at(block)),
        }
    }
}

/// Why a store refused a call.
#[derive(Clone, Copy, PartialEq, Eq, Debug)]
pub enum FaultKind {
    /// the buffer is not one block long
    Length,
    /// the block's number is not below the count
    Beyond,
    /// the block's bytes are lost
    Damaged,
    /// the block may not be written
    Protected,
}

/// A refusal: its kind, and the block's number as the store that refused counts it.
#[derive(Clone, Copy, PartialEq, Eq, Debug)]
pub struct StoreFault {
    pub kind: FaultKind,
    pub block: u32,
}

impl FaultKind {
    /// The refusal of this kind at a block.
    pub fn at(self, block: u32) -> StoreFault
        ensures { result ≡ fault self block }
    {
        StoreFault { kind: self, block }
    }
}

impl fmt::Display for FaultKind {
    ghost output = { λ k. Some (kind_word k) };

    fn fmt<W: fmt::Write>(&self, f: &mut fmt::Formatter<W>) -> fmt::Result {
        match self {
            FaultKind::Length => f.write_str("length"),
            FaultKind::Beyond => f.write_str("beyond"),
            FaultKind::Damaged => f.write_str("damaged"),
            FaultKind::Protected => f.write_str("protected"),
        }
    }
}
