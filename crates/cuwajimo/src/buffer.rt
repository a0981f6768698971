ghost use Rattle.std.specs.Prelude.{◌≡◌, length, IfOk, IsOkUnless};
ghost use Rattle.cuwajimo.specs.Bytes.{repeated_at, repeating};
ghost use Rattle.cuwajimo.specs.declared.trouble.Trouble.TheVariants.{Memory as NoMemory};

use super::call::Filling;
use super::trouble::Trouble;
use std::alloc::Global;

/// The byte at a place of some bytes that are repeated without end, zero where there are none.
fn repeated(bytes: &[u8], place: usize) -> u8
    ensures { result ≡ repeated_at bytes.now place }
{
    if bytes.is_empty() {
        0
    } else {
        bytes[place % bytes.len()]
    }
}

/// Fills a buffer with some bytes over and over.
fn fill(buffer: &mut [u8], bytes: &[u8])
    ensures { buffer.new ≡ repeating bytes.now (length buffer.old) }
{
    for (place, byte) in buffer.iter_mut().enumerate() {
        *byte = repeated(bytes, place);
    }
}

/// The buffer that a call is made with.
pub(super) fn buffer(heap: Global, filling: &Filling) -> Result<Vec<u8>, Trouble>
    ensures bytes { IfOk result (λ v. v.items ≡ repeating filling.now.bytes.items filling.now.size) }
    ensures want { IsOkUnless result NoMemory }
{
    let mut buffer = vec![in heap; 0u8; filling.size as usize]?;
    fill(buffer.as_mut_slice(), filling.bytes.as_slice());
    Ok(buffer)
}
