//! Contents of sections with other indices of types.
//!
//! WebAssembly core specification, "Binary Format", modules.
ghost use Rattle.std.specs.Prelude.{◌≡◌, ℕ, [], IfOk, IfSome, IfNone, IsErrOf};
ghost use Rattle.wasm_module.specs.Changes.{Changes, TurnsInto, IsMalformed};
ghost use Rattle.wasm_module.specs.RenamedSections.{RenamesTexts, RenamesContent, NamesUnknownIn, BodyBecomesTooLong};
ghost use Rattle.wasm_module.specs.Renaming.{IsNoText, NamesUnknown};
ghost use Rattle.wasm_module.specs.Steps.Heads.{kinds_or_none};
ghost use Rattle.wasm_module.specs.Steps.Tables.{row_kinds};
ghost use Rattle.wasm_module.specs.declared.renaming.RenameError.TheVariants.{Malformed, UnknownType, TooLong};

use crate::contents::section_kinds;
use crate::kind::Immediates;
use crate::renamed_code::rename_code;
use crate::renaming::{RenameError, Widths, new_or_copy, rename_whole};
use crate::stack::Stack;
use std::alloc::Global;

/// The id of the code section.
const CODE: u8 = 10;

/// Returns the content of a section with other indices of types: where `new_indices[k]` is
/// `Some(n)`, index k becomes n, in the same form (`u32` or `s33`). `None` is a deleted type. The
/// section has this id (WebAssembly core specification, "Binary Format", "Sections").
///
/// The size of a function body is written again where the body names a type: with as few bytes as
/// it needs, or, with [`Widths::Kept`], with as many as it had at least. All other bytes stay. A
/// section that names no type from outside the type section stays as it is, whatever its content
/// is: the type section itself, memories, exports, the start function and the data count. Custom
/// sections stay too: [`rename_custom_section`](crate::rename_custom_section) changes them.
///
/// # Errors
///
/// The first fault from left to right decides.
///
/// - [`RenameError::Malformed`] comes where the content of a section that names types is not as the
///   grammar says.
/// - [`RenameError::UnknownType`] comes at the first type that has no new index: it is deleted, or
///   its index is at or past the end of `new_indices`. What is behind it may be malformed.
/// - [`RenameError::TooLong`] comes where a function body would have 2^32 bytes or more.
/// - [`RenameError::Memory`] comes where memory was refused.
///
/// # Functions of another type
///
/// ```
/// let functions = [2, 0, 1].as_slice();
/// let new = rename_section(alloc, 3, functions, &[Some(5), Some(4)], Widths::Shortest)?;
/// assert_eq!(rt; new.as_slice(), [2, 5, 4].as_slice());
/// ```
pub fn rename_section(
    alloc: Global,
    id: u8,
    content: &[u8],
    new_indices: &[Option<u32>],
    widths: Widths,
) -> Result<Vec<u8>, RenameError>
    // The result is the content of such a section with other indices.
    ensures renamed { IfOk result (λ new.
        TurnsInto (RenamesContent id new_indices.now widths) content.now new.items) }
    // What is refused as malformed is no content of such a section.
    ensures malformed { (place : ℕ) → IsErrOf result (Malformed place) → IsMalformed (RenamesContent id) content.now }
    // What is refused for a type names it, and behind types that have new indices.
    ensures unknown { (k place : ℕ) → IsErrOf result (UnknownType k place) →
        NamesUnknownIn id new_indices.now widths k content.now }
    // What is refused for its length has a body that no size can count.
    ensures too_long { IsErrOf result TooLong →
        BodyBecomesTooLong id new_indices.now widths content.now }
{
    let new = rename_content(alloc, id, content, content.len(), new_indices, widths)?;
    Ok(new_or_copy(alloc, new, content)?)
}

/// The content of a section with this id, with other indices of types. Returns `None` where it
/// names no type. Places are counted such that the content ends at `end`.
pub fn rename_content(
    alloc: Global,
    id: u8,
    content: &[u8],
    end: usize,
    new_indices: &[Option<u32>],
    widths: Widths,
) -> Result<Option<Vec<u8>>, RenameError>
    // Where nothing comes back the content names no type, and stays.
    ensures stays { IfOk result (λ new. IfNone new
        (RenamesContent id new_indices.now widths content.now content.now [])) }
    // Otherwise what comes back takes its place.
    ensures changes { IfOk result (λ new. IfSome new (λ bytes.
        Changes (RenamesContent id new_indices.now widths) content.now bytes.items)) }
    ensures malformed { (place : ℕ) → IsErrOf result (Malformed place) → IsMalformed (RenamesContent id) content.now }
    ensures unknown { (k place : ℕ) → IsErrOf result (UnknownType k place) →
        NamesUnknownIn id new_indices.now widths k content.now }
    ensures too_long { IsErrOf result TooLong →
        BodyBecomesTooLong id new_indices.now widths content.now }
{
    if id == CODE {
        return rename_code(alloc, content, end, new_indices, widths);
    }
    match section_kinds(id) {
        Immediates::NoInstruction => Ok(None),
        row => rename_texts(alloc, row, content, end, new_indices, widths),
    }
}

/// Texts of the kinds of a row with other indices of types. Returns `None` where they name no type.
fn rename_texts(
    alloc: Global,
    row: Immediates,
    bytes: &[u8],
    end: usize,
    new_indices: &[Option<u32>],
    widths: Widths,
) -> Result<Option<Vec<u8>>, RenameError>
    ensures stays { IfOk result (λ new. IfNone new (RenamesTexts new_indices.now widths
        (kinds_or_none (row_kinds row)) bytes.now bytes.now [])) }
    ensures changes { IfOk result (λ new. IfSome new (λ text. Changes
        (RenamesTexts new_indices.now widths (kinds_or_none (row_kinds row))) bytes.now
        text.items)) }
    ensures malformed { (place : ℕ) → IsErrOf result (Malformed place) →
        IsNoText (kinds_or_none (row_kinds row)) bytes.now }
    ensures unknown { (k place : ℕ) → IsErrOf result (UnknownType k place) →
        NamesUnknown new_indices.now (kinds_or_none (row_kinds row)) bytes.now k }
    ensures sizeless { IsErrOf result TooLong → ⊥ }
{
    let kinds = Stack::from_immediates(alloc, row)?;
    rename_whole(alloc, kinds, bytes, end, new_indices, widths)
}
