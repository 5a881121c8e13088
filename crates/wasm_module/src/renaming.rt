//! Code with other indices of types.
//!
//! WebAssembly core specification, "Binary Format", expressions and code section.
ghost use Rattle.std.specs.Prelude.{◌≡◌, ◌≤◌, ℕ, [], length, IfOk, IfSome, IfNone, OnErr, OnOk, IsErrOf};
ghost use Rattle.wasm_module.specs.Bodies.{expression, body};
ghost use Rattle.wasm_module.specs.Changes.{Changes};
ghost use Rattle.wasm_module.specs.RenamedSections.{RenamesTexts};
ghost use Rattle.wasm_module.specs.Renaming.{type_maps, new_index, least_width, Renames, RenamesPrefix, BeginsNoText, IsNoText, NamesUnknown, IsTextOf};
ghost use Rattle.wasm_module.specs.Steps.Changes.{KeepsPrefix, ChangesPrefix};
ghost use Rattle.wasm_module.specs.Steps.Renaming.{Appends, IsNewIndex, IsUnknown, index_end};
ghost use Rattle.wasm_module.specs.declared.renaming.RenameError.TheVariants.{Malformed, UnknownType, TooLong};

use crate::append::append_prefix;
use crate::kind::Kind;
use crate::leb128::{push_s33, push_u32};
use crate::scan::{ScanError, TypeIndex, next_type, place_of};
use crate::stack::Stack;
use std::alloc::{AllocError, Global};
use thiserror::Error;

/// How many bytes an index has that is written again.
#[derive(Clone, Copy, PartialEq, Eq, Debug, Default)]
pub enum Widths {
    /// As few as its number needs.
    #[default]
    Shortest,
    /// As many as were there, or more where the new number needs more.
    Kept,
}

/// Why indices were not written again.
#[derive(Clone, Copy, PartialEq, Eq, Debug, Error)]
pub enum RenameError {
    /// The bytes are no such code, or no such content, by the grammar of WebAssembly.
    #[error("byte {offset}: malformed code or section")]
    Malformed {
        /// Where they stop being one. [`ScanError::Malformed`] says which byte that is.
        offset: usize,
    },
    /// A type that is named has no new index: it is deleted, or there is none of this index.
    #[error("byte {offset}: type {index} has no new index")]
    UnknownType {
        /// The type's index.
        index: u32,
        /// The place of the index's first byte, counted from 0 at the first byte that was given.
        offset: usize,
    },
    /// A function body or a section would have 2^32 bytes or more, which no size can count.
    #[error("a function body or a section of 2^32 bytes or more")]
    TooLong,
    /// Memory was refused.
    #[error("out of memory")]
    Memory,
}

impl From<AllocError> for RenameError {
    ghost use Rattle.wasm_module.specs.declared.renaming.RenameError.TheVariants.{Memory};

    ghost from_gives = { λ _ e. e ≡ Memory };

    fn from(_: AllocError) -> RenameError {
        RenameError::Memory
    }
}

impl From<ScanError> for RenameError {
    ghost use Rattle.wasm_module.specs.Steps.Renaming.{same_error};

    ghost from_gives = { λ e new. new ≡ same_error e };

    fn from(error: ScanError) -> RenameError {
        match error {
            ScanError::Malformed { offset } => RenameError::Malformed { offset },
            ScanError::Memory => RenameError::Memory,
        }
    }
}

/// Takes an expression from the front of bytes. Returns it with other indices of types: where
/// `new_indices[k]` is `Some(n)`, index k becomes n, in the same form (`u32` or `s33`). `None` is a
/// deleted type. All other bytes stay (WebAssembly core specification, "Binary Format",
/// "Expressions").
///
/// # Errors
///
/// [`RenameError::Malformed`] comes where no expression begins the bytes.
/// [`RenameError::UnknownType`] comes at the first type that has no new index: it is deleted, or
/// its index is at or past the end of `new_indices`. What is behind it need not be code.
/// [`RenameError::Memory`] comes where memory was refused. After an error the input is as it was.
///
/// # A constant that becomes one of another type
///
/// ```
/// let mut code = [0xD0, 1, 0x0B].as_slice();
/// let new_indices = [Some(3), Some(2)];
/// let new = rename_expression(alloc, &mut code, &new_indices, Widths::Shortest)?;
/// assert_eq!(rt; new.as_slice(), [0xD0, 2, 0x0B].as_slice());
/// ```
pub fn rename_expression(
    alloc: Global,
    input: &mut &[u8],
    new_indices: &[Option<u32>],
    widths: Widths,
) -> Result<Vec<u8>, RenameError>
    // The input began with an expression, which was taken, and the result is the same with other
    // indices.
    ensures renamed { IfOk result (λ new. RenamesPrefix (type_maps new_indices.now)
        (least_width widths) expression input.old.now input.new.now new.items) }
    // What is refused as malformed begins with no expression.
    ensures malformed { (place : ℕ) → IsErrOf result (Malformed place) → BeginsNoText expression input.old.now }
    // What is refused for a type names it, and behind types that have new indices.
    ensures unknown { (k place : ℕ) → IsErrOf result (UnknownType k place) →
        NamesUnknown new_indices.now expression input.old.now k }
    // After an error the input is as it was.
    ensures unchanged { OnErr result (input.new ≡ input.old) }
{
    let mut rest = *input;
    let kinds = Stack::new(alloc, Kind::Expression);
    let new = rename(alloc, kinds, &mut rest, input.len(), new_indices, widths)?;
    let new = new_or_copy(alloc, new, &input[..input.len() - rest.len()])?;
    *input = rest;
    Ok(new)
}

/// Returns a function body with other indices of types: where `new_indices[k]` is `Some(n)`, index
/// k becomes n, in the same form (`u32` or `s33`). `None` is a deleted type. All other bytes stay.
/// `content` is what the body has after its size (WebAssembly core specification, "Binary Format",
/// "Code Section").
///
/// # Errors
///
/// [`RenameError::Malformed`] comes where the bytes are no function body.
/// [`RenameError::UnknownType`] comes at the first type that has no new index: it is deleted, or
/// its index is at or past the end of `new_indices`. What is behind it need not be code.
/// [`RenameError::Memory`] comes where memory was refused.
pub fn rename_body(
    alloc: Global,
    content: &[u8],
    new_indices: &[Option<u32>],
    widths: Widths,
) -> Result<Vec<u8>, RenameError>
    // The bytes are a function body, and the result is the same with other indices.
    ensures renamed { IfOk result (λ new. Renames (type_maps new_indices.now)
        (least_width widths) body content.now new.items) }
    // What is refused as malformed is no function body.
    ensures malformed { (place : ℕ) → IsErrOf result (Malformed place) → IsNoText body content.now }
    // What is refused for a type names it, and behind types that have new indices.
    ensures unknown { (k place : ℕ) → IsErrOf result (UnknownType k place) →
        NamesUnknown new_indices.now body content.now k }
{
    let new = rename_whole_body(alloc, content, content.len(), new_indices, widths)?;
    Ok(new_or_copy(alloc, new, content)?)
}

/// A function body with other indices of types. Returns `None` where it names no type. Places are
/// counted such that the body ends at `end`.
pub fn rename_whole_body(
    alloc: Global,
    content: &[u8],
    end: usize,
    new_indices: &[Option<u32>],
    widths: Widths,
) -> Result<Option<Vec<u8>>, RenameError>
    ensures stays { IfOk result (λ new. IfNone new
        (RenamesTexts new_indices.now widths body content.now content.now [])) }
    ensures changes { IfOk result (λ new. IfSome new (λ text.
        Changes (RenamesTexts new_indices.now widths body) content.now text.items)) }
    ensures malformed { (place : ℕ) → IsErrOf result (Malformed place) → IsNoText body content.now }
    ensures unknown { (k place : ℕ) → IsErrOf result (UnknownType k place) →
        NamesUnknown new_indices.now body content.now k }
    ensures sizeless { IsErrOf result TooLong → ⊥ }
{
    let mut kinds = Stack::new(alloc, Kind::Expression);
    kinds.push(Kind::Locals)?;
    rename_whole(alloc, kinds, content, end, new_indices, widths)
}

/// All of the bytes as a text of the kinds on the stack, with other indices of types. Returns
/// `None` where it names no type. Places are counted such that the bytes end at `end`.
pub fn rename_whole(
    alloc: Global,
    kinds: Stack,
    bytes: &[u8],
    end: usize,
    new_indices: &[Option<u32>],
    widths: Widths,
) -> Result<Option<Vec<u8>>, RenameError>
    ensures stays { IfOk result (λ new. IfNone new
        (RenamesTexts new_indices.now widths kinds bytes.now bytes.now [])) }
    ensures changes { IfOk result (λ new. IfSome new (λ text.
        Changes (RenamesTexts new_indices.now widths kinds) bytes.now text.items)) }
    ensures malformed { (place : ℕ) → IsErrOf result (Malformed place) → IsNoText kinds bytes.now }
    ensures unknown { (k place : ℕ) → IsErrOf result (UnknownType k place) →
        NamesUnknown new_indices.now kinds bytes.now k }
    ensures sizeless { IsErrOf result TooLong → ⊥ }
{
    let mut rest = bytes;
    let new = rename(alloc, kinds, &mut rest, end, new_indices, widths)?;
    if !rest.is_empty() {
        return Err(RenameError::Malformed {
            offset: place_of(rest, end),
        });
    }
    Ok(new)
}

/// Takes a text of the kinds on the stack from the front. Returns it with other indices of types,
/// or `None` where it names no type. Places are counted such that the input ends at `end`.
fn rename(
    alloc: Global,
    kinds: Stack,
    input: &mut &[u8],
    end: usize,
    new_indices: &[Option<u32>],
    widths: Widths,
) -> Result<Option<Vec<u8>>, RenameError>
    ensures stays { IfOk result (λ new. IfNone new (KeepsPrefix
        (RenamesTexts new_indices.now widths kinds) input.old.now input.new.now)) }
    ensures changes { IfOk result (λ new. IfSome new (λ text. ChangesPrefix
        (RenamesTexts new_indices.now widths kinds) input.old.now input.new.now text.items)) }
    ensures shorter { IfOk result (λ new. length input.new.now ≤ length input.old.now) }
    ensures malformed { (place : ℕ) → IsErrOf result (Malformed place) → BeginsNoText kinds input.old.now }
    ensures unknown { (k place : ℕ) → IsErrOf result (UnknownType k place) →
        NamesUnknown new_indices.now kinds input.old.now k }
    ensures sizeless { IsErrOf result TooLong → ⊥ }
{
    let mut out = Vec::new(alloc);
    let mut stack = kinds;
    let mut unwritten = *input;
    while let Some(found) = next_type(&mut stack, input, end)? {
        let passed = unwritten.len() - input.len() - found.length;
        append_prefix(unwritten, passed, &mut out)?;
        write_index(found, new_indices, widths, &mut out)?;
        unwritten = *input;
    }
    if out.as_slice().is_empty() {
        return Ok(None);
    }
    out.extend_from_slice(&unwritten[..unwritten.len() - input.len()])?;
    Ok(Some(out))
}

/// Puts the new index of a type at the end.
fn write_index(
    found: TypeIndex,
    new_indices: &[Option<u32>],
    widths: Widths,
    out: &mut Vec<u8>,
) -> Result<(), RenameError>
    requires { found.length ≤ 5 }
    ensures written { OnOk result (Appends (λ text.
        IsNewIndex new_indices.now (least_width widths) found text) out.old.items out.new.items) }
    ensures known { (place : ℕ) → IsErrOf result (Malformed place) → ⊥ }
    ensures unknown { (k place : ℕ) → IsErrOf result (UnknownType k place) →
        IsUnknown new_indices.now found k }
    ensures sizeless { IsErrOf result TooLong → ⊥ }
{
    let Some(index) = new_index(new_indices, found.index) else {
        return Err(RenameError::UnknownType {
            index: found.index,
            offset: found.offset,
        });
    };
    let least = least_width(widths, found.length);
    push_index(found.is_signed, index, least, out)?;
    Ok(())
}

/// The new index of a type. It has none where it is deleted, or where there is none of this index.
fn new_index(new_indices: &[Option<u32>], index: u32) -> Option<u32>
    ensures { result ≡ new_index new_indices.now index }
{
    let index = index as usize;
    if index >= new_indices.len() {
        return None;
    }
    new_indices[index]
}

/// The least number of bytes of an integer that replaces one of this many bytes.
pub fn least_width(widths: Widths, length: usize) -> usize
    ensures { result ≡ least_width widths length }
{
    match widths {
        Widths::Shortest => 0,
        Widths::Kept => length,
    }
}

fn push_index(
    is_signed: bool,
    index: u32,
    least: usize,
    out: &mut Vec<u8>,
) -> Result<(), AllocError>
    requires { least ≤ 5 }
    ensures { OnOk result (Appends (λ text. IsTextOf (index_end is_signed) least text index)
        out.old.items out.new.items) }
{
    if is_signed {
        return push_s33(index, least, out);
    }
    push_u32(index, least, out)
}

/// What is new, or a copy where nothing is.
pub fn new_or_copy(alloc: Global, new: Option<Vec<u8>>, old: &[u8]) -> Result<Vec<u8>, AllocError>
    ensures new { IfSome new (λ text. IfOk result (λ out. out.items ≡ text.items)) }
    ensures copy { IfNone new (IfOk result (λ out. out.items ≡ old.now)) }
{
    match new {
        Some(new) => Ok(new),
        None => {
            let mut copy = Vec::new(alloc);
            copy.extend_from_slice(old)?;
            Ok(copy)
        }
    }
}
