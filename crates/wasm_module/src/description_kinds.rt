//! What custom sections describe of their module.
//!
//! WebAssembly core specification, "Binary Format", "Custom Section". The names of these sections
//! are conventions of tools.
ghost use Rattle.std.specs.Prelude.{IfSome, IfNone};
ghost use Rattle.wasm_binary.specs.Modules.{section};
ghost use Rattle.wasm_module.specs.Customs.{IsNameOf, IsDescriptionOf};
ghost use Rattle.wasm_module.specs.declared.description_kinds.DescriptionKind.{DescriptionKind};

use crate::customs::{begins_with, is_name};
use crate::name_maps::take_sized;

/// The id of a custom section.
const CUSTOM: u8 = 0;

/// What a custom section describes of its module, and so what must stay for the section to fit.
#[derive(Clone, Copy, PartialEq, Eq, Debug)]
pub enum DescriptionKind {
    /// Places in the code section, counted from the begin of its content: `external_debug_info`,
    /// and all whose names begin with `.debug_` or `metadata.code.`. They fit as long as no length
    /// in the code section changes.
    CodeOffsets,
    /// Places in the module: `sourceMappingURL`. It fits as long as no length before the end of the
    /// code section changes.
    FileOffsets,
    /// Bytes of code and data: `linking`, and all whose names begin with `reloc.`. They fit as long
    /// as the contents of the code section and of the data section stay.
    CodeAndData,
    /// All bytes of the module: `signature`. It fits as long as all bytes stay.
    AllBytes,
}

/// Returns what a section describes of its module, if it is a custom section of one of the names
/// that [`DescriptionKind`] lists. `id` and `content` are those of the section.
pub fn description_kind(id: u8, content: &[u8]) -> Option<DescriptionKind>
    // The section describes this.
    ensures found { IfSome result (λ kind. IsDescriptionOf kind (section id content.now)) }
    // Or it describes nothing.
    ensures none { IfNone result ((kind : DescriptionKind) →
        IsDescriptionOf kind (section id content.now) → ⊥) }
{
    if id != CUSTOM {
        return None;
    }
    let mut rest = content;
    match take_sized(&mut rest) {
        Some(name) => kind_of_name(name),
        None => None,
    }
}

/// What custom sections of a name describe.
pub fn kind_of_name(name: &[u8]) -> Option<DescriptionKind>
    ensures found { IfSome result (λ kind. IsNameOf kind name.now) }
    ensures none { IfNone result ((kind : DescriptionKind) → IsNameOf kind name.now → ⊥) }
{
    if is_name(name, b"external_debug_info") {
        return Some(DescriptionKind::CodeOffsets);
    }
    if begins_with(name, b".debug_") {
        return Some(DescriptionKind::CodeOffsets);
    }
    if begins_with(name, b"metadata.code.") {
        return Some(DescriptionKind::CodeOffsets);
    }
    if is_name(name, b"sourceMappingURL") {
        return Some(DescriptionKind::FileOffsets);
    }
    if is_name(name, b"linking") {
        return Some(DescriptionKind::CodeAndData);
    }
    if begins_with(name, b"reloc.") {
        return Some(DescriptionKind::CodeAndData);
    }
    if is_name(name, b"signature") {
        return Some(DescriptionKind::AllBytes);
    }
    None
}
