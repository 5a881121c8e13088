//! The types of a module.
//! WebAssembly core specification, "Binary Format", "Type Section" and modules.
ghost use Rattle.std.specs.Prelude.{◌≡◌, ◌+◌, ◌<◌, ◌≤◌, ◌^◌, length, take, IfErr, IfOk, IfSome};
ghost use Rattle.wasm_binary.specs.Faults.{IsSeenThere, error_offset};
ghost use Rattle.wasm_binary.specs.ModuleSections.{HasTypes, HasBadTypes, BeginsNoTypes, HasBadTypesBy, shifted};

use crate::{DecodeError, decode_types, type_section};
use std::alloc::Global;
use walrus_ty::GroupAt;

/// Returns the groups of a module's type section, as [`type_section`] finds it and [`decode_types`]
/// reads it, or no groups where the module has no such section (WebAssembly core specification,
/// "Binary Format", "Modules"). What the other sections contain is not checked.
///
/// # Errors
///
/// Where the bytes are no module, the error is that of [`type_section`]. Otherwise it is that of
/// [`decode_types`] for the content of the type section. [`DecodeError::Malformed`] says at which
/// byte that stops being a text of groups, and [`DecodeError::NotHeld`] at which byte a type begins
/// that no record holds. All places are counted from the first byte of the module.
/// [`DecodeError::Memory`] comes where memory was refused.
///
/// # A module of one function type
///
/// ```
/// let bytes = [0, 0x61, 0x73, 0x6D, 1, 0, 0, 0, 1, 4, 1, 0x60, 0, 0];
/// assert_eq!(rt; module_types(alloc, &bytes)?.len(), 1);
/// ```
pub fn module_types(alloc: Global, bytes: &[u8]) -> Result<Vec<GroupAt>, DecodeError>
    // The groups that are returned are the types of the module.
    ensures found { IfOk result (λ groups. HasTypes bytes.now groups.items) }
    // Bytes that are refused are no module or one with bad types, unless memory was refused.
    ensures refused { IfErr result (λ e. IfSome (error_offset e) (λ offset.
        HasBadTypes bytes.now)) }
    // The place is in the bytes or at their end,
    ensures place { IfErr result (λ e. IfSome (error_offset e) (λ offset.
        offset ≤ length bytes.now)) }
    // and with the byte there no module goes on whose types can be read.
    ensures stuck { IfErr result (λ e. IfSome (error_offset e) (λ offset.
        IsSeenThere e → offset < length bytes.now →
        BeginsNoTypes (take (offset + 1) bytes.now))) }
    // The error is one of the framing, as `type_section` says it, or one in what the type section
    // contains, as `decode_types` says it.
    ensures reason { IfErr result (λ e. IfSome (error_offset e) (λ offset.
        HasBadTypesBy bytes.now e)) }
{
    let Some(range) = type_section(bytes)? else {
        return Ok(Vec::new(alloc));
    };
    let start = range.start;
    match decode_types(alloc, &bytes[start..range.end]) {
        Ok(groups) => Ok(groups),
        Err(error) => Err(shift_offset(start, error)),
    }
}

/// The error in bytes that follow `start` others.
fn shift_offset(start: usize, error: DecodeError) -> DecodeError
    requires { IfSome (error_offset error) (λ offset. start + offset < 2 ^ 64) }
    ensures { result ≡ shifted start error }
{
    match error {
        DecodeError::Malformed { offset, expected } => DecodeError::Malformed {
            offset: start + offset,
            expected,
        },
        DecodeError::NotHeld { offset, what } => DecodeError::NotHeld {
            offset: start + offset,
            what,
        },
        DecodeError::Memory => DecodeError::Memory,
    }
}
