//! Custom sections that describe other bytes of their module.
//!
//! WebAssembly core specification, "Binary Format", "Custom Section". The names of these sections
//! are conventions of tools.
ghost use Rattle.std.specs.Prelude.{◌≡◌, false, IsTrue, IfOk, IfErr, IfSome, OnOk};
ghost use Rattle.wasm_binary.specs.Faults.{error_offset};
ghost use Rattle.wasm_binary.specs.Modules.{IsNoModule};
ghost use Rattle.wasm_module.specs.Customs.{IsStrippedSection, IsStripped, HasSections};
ghost use Rattle.wasm_module.specs.Steps.Customs.{BeginsWith};
ghost use Rattle.wasm_module.specs.Steps.RenamedModules.{IsWhole};
ghost use Rattle.wasm_module.specs.Steps.Renaming.{Appends};

use crate::description_kinds::description_kind;
use crate::framing::{HEADER_LENGTH, Section, SectionIter, sections};
use crate::renamed_module::section_text;
use std::alloc::{AllocError, Global};
use wasm_binary::DecodeError;

/// Returns a module without the custom sections that describe other bytes of their module. All else
/// stays byte for byte (WebAssembly core specification, "Binary Format", "Custom Section").
///
/// Such sections are known by their names, which are conventions of tools. These are left out:
/// `external_debug_info`, `linking`, `signature`, `sourceMappingURL`, and all whose names begin
/// with `.debug_`, `metadata.code.` or `reloc.`. A custom section without a whole name is kept.
///
/// # Errors
///
/// [`DecodeError::Malformed`] says at which byte the bytes stop being a module. It is the error of
/// [`sections`]. [`DecodeError::Memory`] comes where memory was refused.
///
/// # Before a module is written again
///
/// ```
/// let stripped = strip_descriptions(alloc, bytes)?;
/// let new = rename_module(alloc, &stripped, types, new_indices, Widths::Shortest)?;
/// ```
pub fn strip_descriptions(alloc: Global, bytes: &[u8]) -> Result<Vec<u8>, DecodeError>
    // The bytes are a module, and the result is the same without such sections.
    ensures stripped { IfOk result (λ new. IsStripped bytes.now new.items) }
    // Bytes that are refused are no module, unless memory was refused.
    ensures refused { IfErr result (λ e. IfSome (error_offset e) (λ offset.
        IsNoModule bytes.now)) }
{
    let found = sections(bytes)?;
    match copy_others(alloc, bytes, found) {
        Ok(new) => Ok(new),
        Err(_) => Err(DecodeError::Memory),
    }
}

/// The module without such sections. It has these sections.
fn copy_others(alloc: Global, bytes: &[u8], found: SectionIter<'_>) -> Result<Vec<u8>, AllocError>
    requires { HasSections bytes.now found }
    ensures { IfOk result (λ new. IsStripped bytes.now new.items) }
{
    let mut left = found;
    let mut out = Vec::new(alloc);
    out.extend_from_slice(&bytes[..HEADER_LENGTH])?;
    while let Some(section) = left.next() {
        let text = section_text(bytes, section);
        copy_other(section, text, &mut out)?;
    }
    Ok(out)
}

/// Puts a section at the end, unless it describes other bytes. All of its bytes are `text`.
fn copy_other(section: Section<'_>, text: &[u8], out: &mut Vec<u8>) -> Result<(), AllocError>
    requires { IsWhole text.now section.id section.content.now }
    ensures { OnOk result (Appends (IsStrippedSection text.now) out.old.items out.new.items) }
{
    match description_kind(section.id, section.content) {
        Some(_) => Ok(()),
        None => {
            out.extend_from_slice(text)?;
            Ok(())
        }
    }
}

/// Whether bytes are this name.
pub fn is_name(bytes: &[u8], name: &[u8]) -> bool
    ensures yes { IsTrue result → bytes.now ≡ name.now }
    ensures no { result ≡ false → ¬ (bytes.now ≡ name.now) }
{
    bytes == name
}

/// Whether bytes begin with these.
#[tactic(auto, using(crate::proofs::Descriptions::does_not_begin))]
pub fn begins_with(bytes: &[u8], prefix: &[u8]) -> bool
    ensures yes { IsTrue result → BeginsWith prefix.now bytes.now }
    ensures no { result ≡ false → ¬ BeginsWith prefix.now bytes.now }
{
    bytes.starts_with(prefix)
}
