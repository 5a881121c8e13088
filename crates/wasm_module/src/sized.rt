//! Contents with their sizes before them.
//!
//! WebAssembly core specification, "Binary Format", code section and modules.
ghost use Rattle.std.specs.Prelude.{◌≡◌, ◌≤◌, ◌^◌, ℕ, length, OnOk, IsErrOf};
ghost use Rattle.wasm_module.specs.Renaming.{IsTextOf};
ghost use Rattle.wasm_module.specs.Steps.Changes.{IsSized};
ghost use Rattle.wasm_module.specs.Steps.Renaming.{Appends};
ghost use Rattle.wasm_module.specs.declared.renaming.RenameError.TheVariants.{Malformed, UnknownType, TooLong};

use crate::append::append_whole;
use crate::leb128::push_u32;
use crate::renaming::RenameError;

/// Puts a content and its size at the end. The size has this many bytes at least.
pub fn push_sized(content: &[u8], least: usize, out: &mut Vec<u8>) -> Result<(), RenameError>
    requires { least ≤ 5 }
    ensures written { OnOk result (Appends (IsSized least content.now)
        out.old.items out.new.items) }
    ensures too_long { IsErrOf result TooLong → 2 ^ 32 ≤ length content.now }
    ensures well_formed { (place : ℕ) → IsErrOf result (Malformed place) → ⊥ }
    ensures known { (k place : ℕ) → IsErrOf result (UnknownType k place) → ⊥ }
{
    push_size(content.len(), least, out)?;
    out.extend_from_slice(content)?;
    Ok(())
}

/// Puts a content that is no longer needed and its size at the end. A long one is not copied to new
/// memory.
pub fn push_sized_whole(
    content: Vec<u8>,
    least: usize,
    out: &mut Vec<u8>,
) -> Result<(), RenameError>
    requires { least ≤ 5 }
    ensures written { OnOk result (Appends (IsSized least content.items)
        out.old.items out.new.items) }
    ensures too_long { IsErrOf result TooLong → 2 ^ 32 ≤ length content.items }
    ensures well_formed { (place : ℕ) → IsErrOf result (Malformed place) → ⊥ }
    ensures known { (k place : ℕ) → IsErrOf result (UnknownType k place) → ⊥ }
{
    push_size(content.len(), least, out)?;
    append_whole(content, out)?;
    Ok(())
}

/// Puts the size of a content of this length at the end, with this many bytes at least.
fn push_size(length: usize, least: usize, out: &mut Vec<u8>) -> Result<(), RenameError>
    requires { least ≤ 5 }
    ensures written { OnOk result (Appends (λ text. IsTextOf 0x80 least text length)
        out.old.items out.new.items) }
    ensures too_long { IsErrOf result TooLong → 2 ^ 32 ≤ length }
    ensures well_formed { (place : ℕ) → IsErrOf result (Malformed place) → ⊥ }
    ensures known { (k place : ℕ) → IsErrOf result (UnknownType k place) → ⊥ }
{
    if length > u32::MAX as usize {
        return Err(RenameError::TooLong);
    }
    push_u32(length as u32, least, out)?;
    Ok(())
}
