//! The types that a module names outside its type section.
//!
//! WebAssembly core specification, "Binary Format", modules.
ghost use Rattle.std.specs.Prelude.{IfOk, IfErr};
ghost use Rattle.wasm_module.specs.NamedTypes.{IsContent, IsNoContent, NamesOutside, NamesNone};

use crate::code::code_types;
use crate::contents::section_kinds;
use crate::framing::{end_of, place_of_break, sections};
use crate::kind::Immediates;
use crate::scan::ScanError;
use crate::texts::text_types;
use std::alloc::Global;

/// The id of the code section.
const CODE: u8 = 10;

/// Returns the types that a module names outside its type section: their indices from left to
/// right, each as often as it is named. These are the types that have to stay when unused types are
/// deleted.
///
/// They are named by imports, functions, tables, tags, globals, element segments, the code and data
/// segments. Custom sections are not looked at, so that the names which a `name` section gives to
/// types keep no type. Nor are the contents of the other sections, which name no type: the type
/// section itself, memories, exports, the start function and the data count. Whether the module has
/// as many types as an index needs is not checked.
///
/// # Errors
///
/// [`ScanError::Malformed`] comes where the bytes are no module by the framing of sections, as
/// [`sections`] checks it, or where the content of a section that names types is not as the grammar
/// says. [`ScanError::Memory`] comes where memory was refused.
///
/// # Whether a module names a type
///
/// ```
/// let named = named_types(alloc, bytes)?;
/// let is_named = named.contains(&index);
/// ```
pub fn named_types(alloc: Global, bytes: &[u8]) -> Result<Vec<u32>, ScanError>
    // The bytes are a module, and these are the types that it names outside its type section.
    ensures found { IfOk result (λ types. NamesOutside bytes.now types.items) }
    // Bytes that are refused are no such module.
    ensures refused { IfErr result (λ e. NamesNone bytes.now e) }
{
    let found = match sections(bytes) {
        Ok(found) => found,
        Err(error) => {
            return Err(ScanError::Malformed {
                offset: place_of_break(error),
            });
        }
    };
    let mut left = found;
    let mut named = Vec::new(alloc);
    while let Some(section) = left.next() {
        let types = content_types(alloc, section.id, section.content, end_of(section))?;
        named.extend_from_slice(&types)?;
    }
    Ok(named)
}

/// Returns the types that the content of a section names: their indices from left to right, each as
/// often as it is named. The section has this id (WebAssembly core specification, "Binary Format",
/// "Sections").
///
/// These sections name types: import (2), function (3), table (4), global (6), element (9), code
/// (10), data (11) and tag (13). For all other ids the list is empty, whatever the content is. So
/// it is for the type section (1), whose types are named by each other only.
///
/// # Errors
///
/// [`ScanError::Malformed`] comes where the content of a section that names types is not as the
/// grammar says. [`ScanError::Memory`] comes where memory was refused.
pub fn section_types(alloc: Global, id: u8, content: &[u8]) -> Result<Vec<u32>, ScanError>
    // A section of this id may have this content, and these are the types that it names.
    ensures found { IfOk result (λ types. IsContent id content.now types.items) }
    // No section of this id has a content that is refused.
    ensures refused { IfErr result (λ e. IsNoContent id content.now e) }
{
    content_types(alloc, id, content, content.len())
}

/// The types that the content of a section names, which ends at the place `end`.
fn content_types(alloc: Global, id: u8, content: &[u8], end: usize) -> Result<Vec<u32>, ScanError>
    ensures found { IfOk result (λ types. IsContent id content.now types.items) }
    ensures refused { IfErr result (λ e. IsNoContent id content.now e) }
{
    if id == CODE {
        return code_types(alloc, content, end);
    }
    match section_kinds(id) {
        Immediates::NoInstruction => Ok(Vec::new(alloc)),
        row => text_types(alloc, row, content, end),
    }
}
