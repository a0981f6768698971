ghost use Rattle.std.specs.Prelude.{◌≡◌, IfOk, IsOkUnless, vec_items};
ghost use Rattle.std.specs.Option.{option_map};
ghost use Rattle.cuwajimo.specs.declared.trouble.Trouble.TheVariants.{Memory as NoMemory};
ghost use Rattle.cuwajimo.specs.Masters.{allotted, meant_by, pattern_bytes, shown_by, MasterLoaded};

use super::files::ImageFile;
use super::fill::pattern;
use super::plan::MasterSource;
use super::trouble::Trouble;
use image::check::may_have;
use master::master::Master;
use std::alloc::Global;
use store::count::MOST_BLOCKS;
use store::store::ReadStore;

/// How many of so many blocks are allotted: none of more than a master may have.
fn allotted(blocks: u32) -> u32
    ensures { result ≡ allotted blocks }
{
    if may_have(blocks as usize) { blocks } else { 0 }
}

/// The memory of so many blocks of a pattern.
fn patterned(heap: Global, blocks: u32, p: u32) -> Result<Vec<u8>, Trouble>
    ensures memory { IfOk result (λ bytes. vec_items bytes ≡ pattern_bytes p (allotted blocks)) }
    ensures want { IsOkUnless result NoMemory }
{
    let mut bytes = Vec::new(heap);
    for block in 0..allotted(blocks) {
        bytes.extend_from_slice(&pattern(p, block))?;
    }
    Ok(bytes)
}

/// What a file holds. Whoever compares with it is told if it shows no block.
fn contents(rt: &HostRuntime, file: &ImageFile) -> Result<Vec<u8>, Trouble> {
    let bytes = file.contents(rt)?;
    if Master::new(bytes.as_slice()).size() == 0 {
        let _ = eprintln!(rt;
            "the master '{}' shows no block: its {} bytes are not 1 to {MOST_BLOCKS} whole blocks of 256 bytes",
            file.path,
            bytes.len()
        );
    }
    Ok(bytes)
}

/// Brings the master into memory, if there is one.
pub(super) fn load_master(
    rt: &HostRuntime,
    source: &Option<MasterSource>,
) -> Result<Option<Vec<u8>>, Trouble>
    ensures { IfOk result (λ memory. MasterLoaded source.now (option_map vec_items memory)) }
{
    let bytes = match source {
        Some(MasterSource::Pattern { blocks, pattern }) => {
            patterned(rt.alloc(), *blocks, *pattern)?
        }
        Some(MasterSource::File(file)) => contents(rt, file)?,
        None => return Ok(None),
    };
    Ok(Some(bytes))
}

/// The master that this memory is, if there is one.
pub(super) fn master_over(memory: &Option<Vec<u8>>) -> Option<Master<'_>>
    ensures { meant_by result ≡ shown_by (option_map vec_items memory.now) }
{
    memory.as_ref().map(|bytes| Master::new(bytes.as_slice()))
}
