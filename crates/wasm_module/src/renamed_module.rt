//! Modules with another type section, and with other indices of types everywhere else.
//!
//! WebAssembly core specification, "Binary Format", modules and sections.
ghost use Rattle.std.specs.Prelude.{◌≡◌, ◌^◌, ◌+◌, ◌≤◌, ℕ, List, [], length, slice_range, IfOk, IfNone, IfSome, IsErrOf, OnOk};
ghost use Rattle.wasm_module.specs.Changes.{TurnsInto, Changes, IsMalformed};
ghost use Rattle.wasm_module.specs.RenamedModules.{RenamesAny, RenamesSection, RenamesModule, CanNotBeRenamed, ModuleNamesUnknown, kept_indices, PartBecomesTooLong, SectionBecomesTooLong, ModuleBecomesTooLong};
ghost use Rattle.wasm_module.specs.RenamedSections.{NamesUnknownIn};
ghost use Rattle.wasm_module.specs.Steps.RenamedModules.{IsWhole, IsSectionOf, IsMalformedSection, SectionNamesUnknown};
ghost use Rattle.wasm_module.specs.Steps.Renaming.{Appends};
ghost use Rattle.wasm_module.specs.declared.renaming.RenameError.TheVariants.{Malformed, UnknownType, TooLong};
ghost use Rattle.wasm_module.specs.declared.renaming.Widths.TheVariants.{Kept};

use crate::framing::{HEADER_LENGTH, Section, end_of, place_of_break, sections};
use crate::name_section::rename_custom;
use crate::renamed_content::rename_content;
use crate::renaming::{RenameError, Widths, least_width};
use crate::sized::{push_sized, push_sized_whole};
use std::alloc::{AllocError, Global};

/// The id of a custom section.
const CUSTOM: u8 = 0;

/// The id of the type section.
const TYPES: u8 = 1;

/// Returns a module with the content `types` for its type section, and with other indices of types
/// everywhere else: where `new_indices[k]` is `Some(n)`, index k becomes n, in the same form (`u32`
/// or `s33`). A module without a type section gets none (WebAssembly core specification, "Binary
/// Format", "Modules").
///
/// `new_indices` has to be the map that belongs to `types`: for each type of the old section, the
/// index that the same type has in `types`, or `None` where it is deleted. Neither is checked
/// against the other, and with another map the result names wrong types. A deleted type may only be
/// named in the custom section `name`, where its names go.
///
/// The type section gets the shortest size. Any other size is written again where it spans an index
/// of a type. All other bytes stay: the order of the sections, custom sections but for the names of
/// types and fields, padded integers, and sizes that span no such index. A section `name` that can't
/// be read, in a module of as many types as `new_indices` has, stays as it is:
/// [`find_unread_names`](crate::find_unread_names) finds it.
///
/// # Errors
///
/// The first fault from left to right decides. [`RenameError::Malformed`] comes where the bytes are
/// no module by the framing of sections, as [`sections`] checks it for the whole module first, or
/// where the content of a section that names types is not as the grammar says, or a custom section
/// does not begin with a name. [`RenameError::UnknownType`] comes at the first type that has no new
/// index, outside custom sections: it is deleted, or its index is at or past the end of `new_indices`.
/// [`RenameError::TooLong`] comes where a section, or a part of one that has a size, has 2^32 bytes
/// or more in the result. [`RenameError::Memory`] comes where memory was refused.
///
/// # A module with its used types in canonical form
///
/// ```
/// let groups = module_types(alloc, bytes)?;
/// let roots = named_types(alloc, bytes)?;
/// let (canonical, new_indices) = canonicalise(alloc, HashKeys::fixed(), groups, Some(&roots))?;
/// let types = encode_types(alloc, canonical.as_slice())?;
/// let new = rename_module(alloc, bytes, &types, &new_indices, Widths::Shortest)?;
/// ```
pub fn rename_module(
    alloc: Global,
    bytes: &[u8],
    types: &[u8],
    new_indices: &[Option<u32>],
    widths: Widths,
) -> Result<Vec<u8>, RenameError>
    // The bytes are a module, and the result is the same with these types and indices.
    ensures renamed { IfOk result (λ new.
        RenamesModule types.now new_indices.now widths bytes.now new.items) }
    // What is refused as malformed becomes no module, for any types, indices and widths.
    ensures malformed { (place : ℕ) → IsErrOf result (Malformed place) → CanNotBeRenamed bytes.now }
    // What is refused for a type names it, and behind types that have new indices.
    ensures unknown { (k place : ℕ) → IsErrOf result (UnknownType k place) →
        ModuleNamesUnknown types.now new_indices.now widths k bytes.now }
    // What is refused for a length has a section that becomes too long, or a part of one.
    ensures too_long { IsErrOf result TooLong →
        ModuleBecomesTooLong types.now new_indices.now widths bytes.now }
{
    let found = match sections(bytes) {
        Ok(found) => found,
        Err(error) => {
            return Err(RenameError::Malformed {
                offset: place_of_break(error),
            });
        }
    };
    let mut left = found;
    let mut out = Vec::new(alloc);
    out.extend_from_slice(&bytes[..HEADER_LENGTH])?;
    while let Some(section) = left.next() {
        let text = section_text(bytes, section);
        write_section(alloc, section, text, types, new_indices, widths, &mut out)?;
    }
    Ok(out)
}

/// Whether the contents of a module's sections can be read, if the module has `count` types. The
/// error has the place of the first fault from left to right, as it has in [`rename_module`]: so
/// the content of the type section is not read, nor are other contents that name no type. Of a
/// custom section its own name is read, and no more: a section `name` that can't be read is no fault.
///
/// # Errors
///
/// [`RenameError::Malformed`] and [`RenameError::Memory`] come as in [`rename_module`].
/// [`RenameError::UnknownType`] comes at the first index of a type that is not below `count`.
///
/// # The first fault of a module
///
/// ```
/// // a function of type 0, in a module without types
/// let bytes = [0, 0x61, 0x73, 0x6D, 1, 0, 0, 0, 3, 2, 1, 0];
/// let error = RenameError::UnknownType { index: 0, offset: 11 };
/// assert_eq!(rt; check_module(alloc, &bytes, 0), Err(error));
/// ```
pub fn check_module(alloc: Global, bytes: &[u8], count: u32) -> Result<(), RenameError>
    // What is accepted becomes a module,
    ensures accepted { OnOk result (¬ CanNotBeRenamed bytes.now) }
    // and what is refused as malformed becomes none, for any types, indices and widths.
    ensures malformed { (place : ℕ) → IsErrOf result (Malformed place) → CanNotBeRenamed bytes.now }
    // What is refused for a type names it, behind types that the module has.
    ensures unknown { (k place : ℕ) → IsErrOf result (UnknownType k place) →
        (types : List ℕ) × ModuleNamesUnknown types (kept_indices count) Kept k bytes.now }
{
    let same = same_indices(alloc, count)?;
    rename_module(alloc, bytes, &[], same.as_slice(), Widths::Kept)?;
    Ok(())
}

/// New indices with which each of `count` types stays where it is.
fn same_indices(alloc: Global, count: u32) -> Result<Vec<Option<u32>>, AllocError>
    ensures { IfOk result (λ same. same.items ≡ kept_indices count) }
{
    let mut same = Vec::with_capacity(alloc, count as usize)?;
    for index in 0..count {
        same.push(Some(index))?;
    }
    Ok(same)
}

/// All bytes of a section.
pub fn section_text<'a>(bytes: &'a [u8], section: Section<'_>) -> &'a [u8]
    requires ordered { section.offset ≤ section.content_offset + length section.content.now }
    requires fits { section.content_offset + length section.content.now ≤ length bytes.now }
    ensures { result.now ≡ slice_range bytes.now section.entry.offset
        (section.entry.content_offset + length section.entry.content.now) }
{
    &bytes[section.offset..section.content_offset + section.content.len()]
}

/// Puts a section of a module at the end, with other types or indices. All of its bytes are `text`.
fn write_section(
    alloc: Global,
    section: Section<'_>,
    text: &[u8],
    types: &[u8],
    new_indices: &[Option<u32>],
    widths: Widths,
    out: &mut Vec<u8>,
) -> Result<(), RenameError>
    requires { IsWhole text.now section.id section.content.now }
    ensures written { OnOk result (Appends (λ new.
        TurnsInto (RenamesSection types.now new_indices.now widths) text.now new)
        out.old.items out.new.items) }
    ensures malformed { (place : ℕ) → IsErrOf result (Malformed place) →
        IsMalformedSection section.entry.id section.entry.content.now }
    ensures unknown { (k place : ℕ) → IsErrOf result (UnknownType k place) →
        SectionNamesUnknown new_indices.now widths k section.entry.id section.entry.content.now }
    ensures too_long { IsErrOf result TooLong →
        SectionBecomesTooLong types.now new_indices.now widths text.now }
{
    if section.id == TYPES {
        return push_section(TYPES, types, 0, out);
    }
    let end = end_of(section);
    match rename_any(alloc, section.id, section.content, end, new_indices, widths)? {
        Some(new) => {
            let least = least_width(widths, text.len() - section.content.len() - 1);
            push_new_section(section.id, new, least, out)
        }
        None => {
            out.extend_from_slice(text)?;
            Ok(())
        }
    }
}

/// Returns the new content of a section that is not the type section. Where nothing comes back the
/// content stays. Places are counted such that it ends at `end`.
fn rename_any(
    alloc: Global,
    id: u8,
    content: &[u8],
    end: usize,
    new_indices: &[Option<u32>],
    widths: Widths,
) -> Result<Option<Vec<u8>>, RenameError>
    ensures stays { IfOk result (λ new. IfNone new
        (RenamesAny id new_indices.now widths content.now content.now [])) }
    ensures changes { IfOk result (λ new. IfSome new (λ bytes.
        Changes (RenamesAny id new_indices.now widths) content.now bytes.items)) }
    ensures malformed { (place : ℕ) → IsErrOf result (Malformed place) → IsMalformed (RenamesAny id) content.now }
    ensures unknown { (k place : ℕ) → IsErrOf result (UnknownType k place) →
        NamesUnknownIn id new_indices.now widths k content.now }
    ensures too_long { IsErrOf result TooLong →
        PartBecomesTooLong new_indices.now widths id content.now }
{
    if id == CUSTOM {
        return rename_custom(alloc, content, end, new_indices, widths);
    }
    rename_content(alloc, id, content, end, new_indices, widths)
}

/// Puts a section at the end: its id, its size with this many bytes at least, and its content.
fn push_section(id: u8, content: &[u8], least: usize, out: &mut Vec<u8>) -> Result<(), RenameError>
    requires { least ≤ 5 }
    ensures written { OnOk result (Appends (λ text. IsSectionOf least text id content.now)
        out.old.items out.new.items) }
    ensures malformed { (place : ℕ) → IsErrOf result (Malformed place) → ⊥ }
    ensures unknown { (k place : ℕ) → IsErrOf result (UnknownType k place) → ⊥ }
    ensures too_long { IsErrOf result TooLong → 2 ^ 32 ≤ length content.now }
{
    out.extend_from_slice(&[id])?;
    push_sized(content, least, out)
}

/// Puts a section at the end, whose content is no longer needed.
fn push_new_section(
    id: u8,
    content: Vec<u8>,
    least: usize,
    out: &mut Vec<u8>,
) -> Result<(), RenameError>
    requires { least ≤ 5 }
    ensures written { OnOk result (Appends (λ text. IsSectionOf least text id content.items)
        out.old.items out.new.items) }
    ensures malformed { (place : ℕ) → IsErrOf result (Malformed place) → ⊥ }
    ensures unknown { (k place : ℕ) → IsErrOf result (UnknownType k place) → ⊥ }
    ensures too_long { IsErrOf result TooLong → 2 ^ 32 ≤ length content.items }
{
    out.extend_from_slice(&[id])?;
    push_sized_whole(content, least, out)
}
