//! The name of a custom section.
//!
//! WebAssembly core specification, "Binary Format", "Custom Section".
ghost use Rattle.std.specs.Prelude.{◌≡◌, ◌∷◌, ℕ, List, IfSome, IfNone};
ghost use Rattle.wasm_binary.specs.CustomSections.{BeginsCustom, IsNamed};
ghost use Rattle.wasm_binary.specs.Sections.{IsSizeAt};
ghost use Rattle.wasm_binary.specs.Steps.CustomSections.{IsContentPrefix};

use crate::leb128::read_size;
use crate::module::section::CUSTOM;

/// Returns the name of the custom section with which the bytes begin, from its id on (WebAssembly
/// core specification, "Binary Format", "Custom Section"). `None` says that another section begins
/// there, or one without a whole name. No memory is taken.
///
/// What is behind the name may be cut off, or go on behind the section. It is not checked that a
/// name is UTF-8.
///
/// # The name of a section
///
/// ```
/// let bytes = [0, 3, 2, 0x68, 0x69];
/// assert_eq!(rt; custom_section_name(&bytes), Some(b"hi".as_slice()));
/// ```
pub fn custom_section_name(bytes: &[u8]) -> Option<&[u8]>
    // The bytes begin with a custom section of this name,
    ensures found { IfSome result (λ name. BeginsCustom name.now bytes.now) }
    // or with no custom section that has a name.
    ensures none { IfNone result ((name : List ℕ) → ¬ BeginsCustom name bytes.now) }
{
    let behind = behind_id(bytes)?;
    let content = content_prefix(behind)?;
    name_in(content)
}

/// The bytes behind the id of a custom section.
fn behind_id(bytes: &[u8]) -> Option<&[u8]>
    ensures found { IfSome result (λ rest. bytes.now ≡ 0 ∷ rest.now) }
    ensures none { IfNone result ((rest : List ℕ) → ¬ (bytes.now ≡ 0 ∷ rest)) }
{
    match bytes {
        [id, rest @ ..] if *id == CUSTOM => Some(rest),
        _ => None,
    }
}

/// What there is of the content of a section, behind its size.
fn content_prefix(bytes: &[u8]) -> Option<&[u8]>
    ensures found { IfSome result (λ content. IsContentPrefix content.now bytes.now) }
    ensures none { IfNone result ((size : ℕ) → ¬ IsSizeAt size bytes.now) }
{
    let Ok((size, rest)) = read_size(bytes) else {
        return None;
    };
    let size = size as usize;
    if size > rest.len() {
        return Some(rest);
    }
    Some(&rest[..size])
}

/// The name with which the content of a custom section begins.
fn name_in(content: &[u8]) -> Option<&[u8]>
    ensures found { IfSome result (λ name. IsNamed name.now content.now) }
    ensures none { IfNone result ((name : List ℕ) → ¬ IsNamed name content.now) }
{
    let Ok((length, rest)) = read_size(content) else {
        return None;
    };
    let length = length as usize;
    if length > rest.len() {
        return None;
    }
    Some(&rest[..length])
}
