//! Names of types that can't be read.
//!
//! WebAssembly core specification, "Name Section".
ghost use Rattle.std.specs.Prelude.{◌≡◌, ◌≤◌, ℕ, false, IsTrue, IfOk, IfErr, IfNone, IfSome};
ghost use Rattle.wasm_binary.specs.Modules.{section, IsNoModule};
ghost use Rattle.wasm_module.specs.NameSections.{AreNames, AreSubsections, IsSubsection, IsTypeMap};
ghost use Rattle.wasm_module.specs.Steps.NameSections.{Takes, BeginsNone, IsAny, IsFollowing};
ghost use Rattle.wasm_module.specs.UnreadNames.{AreUnread, HasNoUnreadNames, HasUnreadNamesAt};

use crate::customs::is_name;
use crate::framing::sections;
use crate::name_maps::{Follows, skip_map, take_sized};
use crate::name_section::{FIELD_NAMES, TYPE_NAMES};
use wasm_binary::DecodeError;

/// The id of a custom section.
const CUSTOM: u8 = 0;

/// Returns the place of the first custom section `name` that can't be read, in a module of `count`
/// types: that of its id, counted from 0 in bytes (WebAssembly core specification, "Name Section").
///
/// Such a section is no sequence of subsections, or the names of types or of fields in it are not as
/// the grammar says, or one is that of a type that the module does not have. Engines and other tools
/// pass over it. [`rename_module`] leaves it as it is, so its indices of types are the old ones.
///
/// # Errors
///
/// [`DecodeError::Malformed`] says at which byte the bytes stop being a module. It is the error of
/// [`sections`]. No memory is taken.
///
/// # A name of a type that is not there
///
/// ```
/// // The custom section `name` at byte 8 says that type 0 is named a. There is no type.
/// let bytes = [
///     0, 0x61, 0x73, 0x6D, 1, 0, 0, 0, 0, 11, 4, 0x6E, 0x61, 0x6D, 0x65, 4, 4, 1, 0, 1, 0x61,
/// ];
/// assert_eq!(rt; find_unread_names(&bytes, 0), Ok(Some(8)));
/// assert_eq!(rt; find_unread_names(&bytes, 1), Ok(None));
/// ```
///
/// [`rename_module`]: crate::rename_module
pub fn find_unread_names(bytes: &[u8], count: usize) -> Result<Option<usize>, DecodeError>
    // The bytes are a module, whose first such section begins there.
    ensures found { IfOk result (λ found. IfSome found (λ offset.
        HasUnreadNamesAt count bytes.now offset)) }
    // Or they are a module without such sections,
    ensures none { IfOk result (λ found. IfNone found (HasNoUnreadNames count bytes.now)) }
    // also with more types.
    ensures more { IfOk result (λ found. IfNone found
        ((more : ℕ) → count ≤ more → HasNoUnreadNames more bytes.now)) }
    // Bytes that are refused are no module.
    ensures refused { IfErr result (λ e. IsNoModule bytes.now) }
{
    let found = sections(bytes)?;
    let mut left = found;
    while let Some(section) = left.next() {
        if is_unread(section.id, section.content, count) {
            return Ok(Some(section.offset));
        }
    }
    Ok(None)
}

/// Whether a section is a custom section `name` that can't be read.
fn is_unread(id: u8, content: &[u8], count: usize) -> bool
    ensures yes { IsTrue result → AreUnread count (section id content.now) }
    ensures no { result ≡ false → ¬ AreUnread count (section id content.now) }
{
    if id != CUSTOM {
        return false;
    }
    let mut rest = content;
    let Some(name) = take_sized(&mut rest) else {
        return false;
    };
    if !is_name(name, b"name") {
        return false;
    }
    !are_subsections(rest, count)
}

/// Whether these are subsections, and all names of types and fields in them can be read.
fn are_subsections(texts: &[u8], count: usize) -> bool
    ensures yes { IsTrue result → AreSubsections count texts.now }
    ensures no { result ≡ false → ¬ AreSubsections count texts.now }
{
    let mut rest = texts;
    while !rest.is_empty() {
        let Some(()) = skip_subsection(&mut rest, count) else {
            return false;
        };
    }
    true
}

/// Passes over a subsection.
fn skip_subsection(input: &mut &[u8], count: usize) -> Option<()>
    ensures taken { IfSome result (λ u.
        Takes (IsAny (IsSubsection count)) input.old.now input.new.now) }
    ensures none { IfNone result (BeginsNone (IsAny (IsSubsection count)) input.old.now) }
{
    let [id, behind @ ..] = *input else {
        return None;
    };
    let mut after = behind;
    let content = take_sized(&mut after)?;
    if !are_names(*id, content, count) {
        return None;
    }
    *input = after;
    Some(())
}

/// Whether this is what a subsection of this id has after its size.
fn are_names(id: u8, content: &[u8], count: usize) -> bool
    ensures yes { IsTrue result → AreNames count id content.now }
    ensures no { result ≡ false → ¬ AreNames count id content.now }
{
    if id == TYPE_NAMES {
        return is_map(Follows::Name, content, count);
    }
    if id == FIELD_NAMES {
        return is_map(Follows::NameMap, content, count);
    }
    true
}

/// Whether this is a map from types below `count`.
fn is_map(follows: Follows, content: &[u8], count: usize) -> bool
    ensures yes { IsTrue result → IsTypeMap (IsFollowing follows) count content.now }
    ensures no { result ≡ false → ¬ IsTypeMap (IsFollowing follows) count content.now }
{
    let mut rest = content;
    match skip_map(follows, &mut rest, count) {
        Some(()) => rest.is_empty(),
        None => false,
    }
}
