//! Copies of files in a list.

ghost use Rattle.std.specs.Prelude.{◌≡◌, ◌++◌, ◌∷◌, [], ◌<◌, map, IfOk, IfErr, OnOk, OnErr, vec_len, vec_capacity};
ghost use Rattle.cq_io.specs.Content.{file_of};

use crate::refusal::PutRefusal;
use std::alloc::Global;

/// A copy of a file. The memory for its place at the end of the list is taken too.
pub fn copy_of(
    alloc: Global,
    kept: &mut Vec<(String, Vec<u8>)>,
    name: &str,
    bytes: &[u8],
) -> Result<(String, Vec<u8>), PutRefusal>
    ensures copy { IfOk result (λ copy. file_of copy ≡ (name.now, bytes.now)) }
    ensures room { OnOk result (vec_len kept.new < vec_capacity kept.new) }
    ensures same { kept.new.items ≡ kept.old.items }
    ensures memory { IfErr result (λ refusal. refusal ≡ PutRefusal.Memory) }
{
    let (Ok(name), Ok(bytes), Ok(())) = (
        String::from_str(alloc, name),
        Vec::from_slice(alloc, bytes),
        kept.reserve(1),
    ) else {
        return Err(PutRefusal::Memory);
    };
    Ok((name, bytes))
}

/// Copies a file to the end of the list.
pub fn keep(
    alloc: Global,
    kept: &mut Vec<(String, Vec<u8>)>,
    name: &str,
    bytes: &[u8],
) -> Result<(), PutRefusal>
    ensures ok { OnOk result (map file_of kept.new.items ≡ map file_of kept.old.items ++ (name.now, bytes.now) ∷ []) }
    ensures err { OnErr result (kept.new.items ≡ kept.old.items) }
    ensures memory { IfErr result (λ refusal. refusal ≡ PutRefusal.Memory) }
{
    let copy = copy_of(alloc, kept, name, bytes)?;
    kept.push(copy).unwrap();
    Ok(())
}
