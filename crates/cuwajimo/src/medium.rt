ghost use Rattle.std.specs.Prelude.{◌≡◌, IfOk, IsOkUnless, if◌then◌else◌, Some, None, nat_le};
ghost use Rattle.store.specs.Counts.{most_blocks};
ghost use Rattle.cuwajimo.specs.Media.{Loaded, ZeroFlat, capped_bytes, ZeroRaw, medium_count};
ghost use Rattle.cuwajimo.specs.declared.trouble.Trouble.TheVariants.{Memory as NoMemory};

use super::plan::Source;
use super::trouble::Trouble;
use image::check::may_have;
use std::alloc::Global;
use store::fault::BLOCK_BYTES;

/// How many bytes a record of a raw image has, and how many records a track may have.
const RECORD_BYTES: usize = 276;

const MOST_RECORDS: u32 = 256;

/// The memory that an image is opened on.
#[derive(Drop)]
pub enum Medium {
    Flat {
        bytes: Vec<u8>,
        damage: Vec<u8>,
    },
    Raw {
        bytes: Vec<u8>,
        spares: Vec<u8>,
        records: u32,
    },
}

/// A flat image in memory, all zero, sound. More blocks than an image may have are not allotted: one byte of map for no blocks
/// does not fit either, so opening refuses it just the same.
fn flat(heap: Global, blocks: u32) -> Result<Medium, Trouble>
    ensures memory { IfOk result (ZeroFlat blocks) }
    ensures count { IfOk result (λ m. medium_count m ≡ (if nat_le blocks most_blocks then Some blocks else None)) }
    ensures want { IsOkUnless result NoMemory }
{
    if !may_have(blocks as usize) {
        return Ok(Medium::Flat {
            bytes: vec![in heap]?,
            damage: vec![in heap; 0u8; 1]?,
        });
    }
    let count = blocks as usize;
    Ok(Medium::Flat {
        bytes: vec![in heap; 0u8; count * BLOCK_BYTES]?,
        damage: vec![in heap; 0u8; count.div_ceil(8)]?,
    })
}

/// How many bytes so many tracks have. Tracks of a length that opening refuses are not allotted, and a number past what counts
/// bytes stops at the largest, which no memory has.
fn track_bytes(tracks: usize, records: u32) -> usize
    ensures { result ≡ capped_bytes tracks records }
{
    let tracks = if records <= MOST_RECORDS { tracks } else { 0 };
    tracks
        .saturating_mul(RECORD_BYTES)
        .saturating_mul(records as usize)
}

/// A raw image in memory, all zero.
fn raw(heap: Global, records: u32, places: &[u8]) -> Result<Medium, Trouble>
    ensures memory { IfOk result (ZeroRaw records places.now) }
    ensures want { IsOkUnless result NoMemory }
{
    let spares = Vec::from_slice(heap, places)?;
    let bytes = vec![in heap; 0u8; track_bytes(places.len(), records)]?;
    Ok(Medium::Raw {
        bytes,
        spares,
        records,
    })
}

/// Brings the image into memory.
pub(super) fn load(rt: &HostRuntime, source: &Source) -> Result<Medium, Trouble>
    ensures { IfOk result (Loaded source.now) }
{
    match source {
        Source::Flat { blocks } => flat(rt.alloc(), *blocks),
        Source::FlatFiles { bytes, damage } => {
            let bytes = bytes.contents(rt)?;
            Ok(Medium::Flat {
                bytes,
                damage: damage.contents(rt)?,
            })
        }
        Source::Raw { records, spares } => raw(rt.alloc(), *records, spares.as_slice()),
        Source::RawFiles {
            bytes,
            spares,
            records,
        } => {
            let bytes = bytes.contents(rt)?;
            Ok(Medium::Raw {
                bytes,
                spares: spares.contents(rt)?,
                records: *records,
            })
        }
    }
}
