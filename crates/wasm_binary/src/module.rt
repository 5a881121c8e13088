//! Where the type section of a module is.
//!
//! WebAssembly core specification, "Binary Format", modules.
ghost use Rattle.std.specs.Prelude.{◌≡◌, ◌+◌, ◌-◌, ◌<◌, ◌≤◌, length, take, IfOk, IfErr, IfSome, IfNone, IsSome};
ghost use Rattle.wasm_binary.specs.Faults.{GoesOn, error_offset};
ghost use Rattle.wasm_binary.specs.Modules.{IsTypeSectionAt, HasNoTypeSection, IsModule, IsNoModule, BeginsNoModule};

mod around;
mod custom;
mod section;
mod types;

use crate::error::{DecodeError, Fault};
use crate::module::section::{TYPE, place_after, read_header, read_section};
pub use around::{SectionPlace, section_around};
pub use custom::custom_section_name;
use std::ops::Range;
pub use types::module_types;

/// Returns which bytes of a module, counted from 0, are the content of its type section: everything
/// after its id and size. `None` says that the module has no type section (WebAssembly core
/// specification, "Binary Format", "Modules").
///
/// The header, ids, sizes and the order of the sections are checked. What the sections contain, and
/// whether a custom section begins with a name, is not. No memory is taken, and each byte is read
/// at most once.
///
/// # Errors
///
/// [`DecodeError::Malformed`] says at which byte the bytes stop being such a module: one begins
/// with the bytes before that byte, and none with that byte too. Where a content is cut off, the
/// place is the end of the bytes. No other error comes.
///
/// # A module of one section
///
/// ```
/// let bytes = [0, 0x61, 0x73, 0x6D, 1, 0, 0, 0, 1, 4, 1, 0x60, 0, 0];
/// assert_eq!(rt; type_section(&bytes)?, Some(10..14));
/// ```
pub fn type_section(bytes: &[u8]) -> Result<Option<Range<usize>>, DecodeError>
    // The bytes are a module, and there is the content of its type section,
    ensures found { IfOk result (λ found. IfSome found (λ r.
        IsTypeSectionAt bytes.now r.start r.end)) }
    // which is within them.
    ensures within { IfOk result (λ found. IfSome found (λ r.
        (r.start ≤ r.end) × (r.end ≤ length bytes.now))) }
    // Or they are a module without type section.
    ensures none { IfOk result (λ found. IfNone found (HasNoTypeSection bytes.now)) }
    // Bytes that are refused are no module.
    ensures refused { IfErr result (λ e. IsNoModule bytes.now) }
    // Each error has a place: memory is never refused.
    ensures placed { IfErr result (λ e. IsSome (error_offset e)) }
    // The place is in the bytes or at their end,
    ensures place { IfErr result (λ e. IfSome (error_offset e) (λ offset.
        offset ≤ length bytes.now)) }
    // and with the byte there no module goes on.
    ensures stuck { IfErr result (λ e. IfSome (error_offset e) (λ offset.
        offset < length bytes.now → BeginsNoModule (take (offset + 1) bytes.now))) }
    // With the bytes before it some module goes on.
    ensures begun { IfErr result (λ e. IfSome (error_offset e) (λ offset.
        GoesOn IsModule (take offset bytes.now))) }
{
    match scan_sections(bytes) {
        Ok(found) => Ok(found),
        Err(fault) => Err(fault.refusal(bytes.len())),
    }
}

fn scan_sections(bytes: &[u8]) -> Result<Option<Range<usize>>, Fault>
    ensures found { IfOk result (λ found. IfSome found (λ r.
        IsTypeSectionAt bytes.now r.start r.end)) }
    ensures none { IfOk result (λ found. IfNone found (HasNoTypeSection bytes.now)) }
    ensures refused { IfErr result (λ f. IsNoModule bytes.now) }
    ensures place { IfErr result (λ f. f.left ≤ length bytes.now) }
    ensures stuck { IfErr result (λ f. 0 < f.left →
        BeginsNoModule (take (length bytes.now - f.left + 1) bytes.now)) }
    ensures begun { IfErr result (λ f.
        GoesOn IsModule (take (length bytes.now - f.left) bytes.now)) }
{
    let mut rest = read_header(bytes)?;
    let mut last = 0;
    let mut found = None;
    while !rest.is_empty() {
        let (id, content, after) = read_section(last, rest)?;
        if id == TYPE {
            let end = bytes.len() - after.len();
            found = Some(end - content.len()..end);
        }
        last = place_after(last, id);
        rest = after;
    }
    Ok(found)
}
