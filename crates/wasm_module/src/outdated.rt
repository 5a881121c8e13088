//! Custom sections that no longer fit where their module is written again.
//!
//! WebAssembly core specification, "Binary Format", "Custom Section".
ghost use Rattle.std.specs.Prelude.{◌≡◌, ◌++◌, ◌∷◌, [], false, IsTrue, IfOk, IfSome, IfNone, OnOk};
ghost use Rattle.std.specs.List.{All};
ghost use Rattle.wasm_module.specs.Lengths.{HasContent};
ghost use Rattle.wasm_module.specs.Outdated.{IsWrittenAgain, HaveSame, Stays, Fits, IsOutdated, AllFit, HasOutdatedAt};
ghost use Rattle.wasm_module.specs.Sections.{placed};
ghost use Rattle.wasm_module.specs.Steps.Outdated.{AllStay};

use crate::description_kinds::{DescriptionKind, description_kind};
use crate::framing::{Section, sections};
use crate::lengths::{content_of, lengths_in_code, lengths_to_code_end};
use crate::scan::ScanError;
use std::alloc::{AllocError, Global};

/// The id of the code section.
const CODE: u8 = 10;

/// The id of the data section.
const DATA: u8 = 11;

/// Returns the place of the first custom section of a module that no longer fits where the module
/// becomes `new`: that of its id, counted from 0 in bytes. Returns `None` where all sections fit.
///
/// `new` has to be what [`rename_module`](crate::rename_module) returned for `bytes`. A section no
/// longer fits where what it describes changes. [`DescriptionKind`] says which sections describe
/// something, by their names, and what must stay for them.
///
/// # Errors
///
/// [`AllocError`] comes where memory was refused.
///
/// # Whether debug data still fit
///
/// ```
/// let new = rename_module(alloc, bytes, types, new_indices, Widths::Kept)?;
/// let fits = find_outdated(alloc, bytes, &new)?.is_none();
/// ```
pub fn find_outdated(alloc: Global, bytes: &[u8], new: &[u8]) -> Result<Option<usize>, AllocError>
    // `new` is the module with other types and other indices of types.
    requires { IsWrittenAgain bytes.now new.now }
    // The first section that no longer fits begins there.
    ensures found { IfOk result (λ found. IfSome found (λ offset.
        HasOutdatedAt bytes.now new.now offset)) }
    // Or all sections fit.
    ensures none { IfOk result (λ found. IfNone found (AllFit bytes.now new.now)) }
{
    match first_outdated(alloc, bytes, new) {
        Ok(found) => Ok(found),
        // The contents of both modules could be read when `new` was made. So only memory was
        // refused.
        Err(_) => Err(AllocError),
    }
}

/// The place of the first section that no longer fits, for any bytes. Malformed ones are refused.
fn first_outdated(alloc: Global, bytes: &[u8], new: &[u8]) -> Result<Option<usize>, ScanError>
    ensures found { IfOk result (λ found. IfSome found (λ offset.
        HasOutdatedAt bytes.now new.now offset)) }
    ensures none { IfOk result (λ found. IfNone found (AllFit bytes.now new.now)) }
{
    let Ok(found) = sections(bytes) else {
        return Err(ScanError::Malformed { offset: 0 });
    };
    let mut left = found;
    let mut fitting = Vec::new(alloc);
    while let Some(section) = left.next() {
        if !fits(alloc, section, bytes, new, &mut fitting)? {
            return Ok(Some(section.offset));
        }
    }
    Ok(None)
}

/// Whether what a section describes stays. These kinds are known to fit, and another one that does
/// is added to them.
fn fits(
    alloc: Global,
    section: Section<'_>,
    bytes: &[u8],
    new: &[u8],
    fitting: &mut Vec<DescriptionKind>,
) -> Result<bool, ScanError>
    requires { AllStay bytes.now new.now fitting.now.items }
    ensures yes { IfOk result (λ fits. IsTrue fits → Fits bytes.now new.now
        (placed section.entry.offset section.entry.content_offset section.entry.id
        section.entry.content.now)) }
    ensures no { IfOk result (λ fits. fits ≡ false → IsOutdated bytes.now new.now
        (placed section.entry.offset section.entry.content_offset section.entry.id
        section.entry.content.now)) }
    ensures fitting { OnOk result (AllStay bytes.now new.now fitting.new.items) }
{
    let Some(kind) = description_kind(section.id, section.content) else {
        return Ok(true);
    };
    if fitting.as_slice().contains(&kind) {
        return Ok(true);
    }
    if !stays(alloc, kind, bytes, new)? {
        return Ok(false);
    }
    add(kind, fitting)?;
    Ok(true)
}

fn add(kind: DescriptionKind, kinds: &mut Vec<DescriptionKind>) -> Result<(), AllocError>
    ensures { OnOk result (kinds.new.items ≡ kinds.old.items ++ kind ∷ []) }
{
    kinds.push(kind)?;
    Ok(())
}

/// Whether what sections of a kind describe stays.
fn stays(alloc: Global, kind: DescriptionKind, bytes: &[u8], new: &[u8]) -> Result<bool, ScanError>
    ensures yes { IfOk result (λ stays. IsTrue stays → Stays kind bytes.now new.now) }
    ensures no { IfOk result (λ stays. stays ≡ false → ¬ Stays kind bytes.now new.now) }
{
    match kind {
        DescriptionKind::CodeOffsets => {
            let before = lengths_in_code(alloc, bytes)?;
            let after = lengths_in_code(alloc, new)?;
            Ok(are_same(before.as_slice(), after.as_slice()))
        }
        DescriptionKind::FileOffsets => {
            let before = lengths_to_code_end(alloc, bytes)?;
            let after = lengths_to_code_end(alloc, new)?;
            Ok(are_same(before.as_slice(), after.as_slice()))
        }
        DescriptionKind::CodeAndData => {
            if !has_same_content(CODE, bytes, new)? {
                return Ok(false);
            }
            has_same_content(DATA, bytes, new)
        }
        DescriptionKind::AllBytes => Ok(new == bytes),
    }
}

/// Whether both modules have the same content of the section of this id, or both have none.
fn has_same_content(id: u8, bytes: &[u8], new: &[u8]) -> Result<bool, ScanError>
    ensures yes { IfOk result (λ same. IsTrue same → HaveSame (HasContent id) bytes.now new.now) }
    ensures no { IfOk result (λ same. same ≡ false →
        ¬ HaveSame (HasContent id) bytes.now new.now) }
{
    let before = content_of(bytes, id)?;
    let after = content_of(new, id)?;
    match (before, after) {
        (Some(before), Some(after)) => Ok(are_same_bytes(before, after)),
        (None, None) => Ok(true),
        _ => Ok(false),
    }
}

fn are_same_bytes(bytes: &[u8], others: &[u8]) -> bool
    ensures yes { IsTrue result → bytes.now ≡ others.now }
    ensures no { result ≡ false → ¬ (bytes.now ≡ others.now) }
{
    bytes == others
}

fn are_same(lengths: &[usize], others: &[usize]) -> bool
    ensures yes { IsTrue result → lengths.now ≡ others.now }
    ensures no { result ≡ false → ¬ (lengths.now ≡ others.now) }
{
    lengths == others
}
