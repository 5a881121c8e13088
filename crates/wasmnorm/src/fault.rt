//! What is wrong first, where the types of bytes can't be used or the bytes are no module.
ghost use Rattle.std.specs.Prelude.{◌≡◌, true, IfSome};
ghost use Rattle.wasm_normalise.specs.CanonicalModules.{IsRefusedBy};
ghost use Rattle.wasmnorm.specs.Judged.{ExplainsError, ExplainsModule, HasMalformedBeforeTypes, is_of_sections, is_of_types};

use crate::prefix::{sections_before_break, sections_before_types};
use std::alloc::Global;
use wasm_module::{RenameError, check_module};
use wasm_normalise::{HashKeys, NormaliseModuleError, NormaliseOptions, canonical_module};

/// The error of what is wrong first, where a module was refused with this error. Where the framing
/// of the bytes breaks, the sections before are judged as a module is.
pub fn first_error(
    alloc: Global,
    keys: HashKeys,
    options: NormaliseOptions,
    bytes: &[u8],
    error: NormaliseModuleError,
) -> NormaliseModuleError
    ensures { IsRefusedBy options bytes.now error → ExplainsError options bytes.now result }
{
    let Some(prefix) = sections_before_break(bytes) else {
        return first_of_module(alloc, bytes, error);
    };
    match error_of_sections(alloc, keys, options, prefix) {
        Some(found) => first_of_module(alloc, prefix, found),
        None => error,
    }
}

/// The error of these sections, where one is wrong. There is none where memory is refused.
fn error_of_sections(
    alloc: Global,
    keys: HashKeys,
    options: NormaliseOptions,
    prefix: &[u8],
) -> Option<NormaliseModuleError>
    ensures refused { IfSome result (IsRefusedBy options prefix.now) }
    ensures of_sections { IfSome result (λ e. is_of_sections e ≡ true) }
{
    match canonical_module(alloc, keys, prefix, options) {
        Err(error) if is_of_sections(error) => Some(error),
        _ => None,
    }
}

/// The error of what is wrong first in a module, which was refused with this error. Where that is
/// one of the type section, another section can be malformed before it.
fn first_of_module(alloc: Global, bytes: &[u8], error: NormaliseModuleError) -> NormaliseModuleError
    ensures explains { (options : NormaliseOptions) → IsRefusedBy options bytes.now error →
        ExplainsModule options bytes.now result }
    ensures of_sections { is_of_sections error ≡ true → is_of_sections result ≡ true }
{
    if !is_of_types(error) {
        return error;
    }
    match malformed_before_types(alloc, bytes) {
        Some(offset) => NormaliseModuleError::Malformed { offset },
        None => error,
    }
}

/// Where a section before the type section is malformed. Only custom sections can be there, and which
/// types there are makes no difference to whether one of them is.
fn malformed_before_types(alloc: Global, bytes: &[u8]) -> Option<usize>
    ensures { IfSome result (λ place. HasMalformedBeforeTypes bytes.now) }
{
    let before = sections_before_types(bytes)?;
    match check_module(alloc, before, 0) {
        Err(RenameError::Malformed { offset }) => Some(offset),
        _ => None,
    }
}

/// Whether it is an error of the type section, or the bytes are no module.
fn is_of_types(error: NormaliseModuleError) -> bool
    ensures { result ≡ is_of_types error }
{
    match error {
        NormaliseModuleError::Types(_)
        | NormaliseModuleError::BadIndex { .. }
        | NormaliseModuleError::TooMany => true,
        NormaliseModuleError::Malformed { .. }
        | NormaliseModuleError::UnknownType { .. }
        | NormaliseModuleError::TooLong
        | NormaliseModuleError::Outdated { .. }
        | NormaliseModuleError::Memory => false,
    }
}

/// Whether it says that a section is wrong, whatever is done with the module.
fn is_of_sections(error: NormaliseModuleError) -> bool
    ensures { result ≡ is_of_sections error }
{
    match error {
        NormaliseModuleError::Types(_)
        | NormaliseModuleError::BadIndex { .. }
        | NormaliseModuleError::TooMany
        | NormaliseModuleError::Malformed { .. }
        | NormaliseModuleError::UnknownType { .. } => true,
        NormaliseModuleError::TooLong
        | NormaliseModuleError::Outdated { .. }
        | NormaliseModuleError::Memory => false,
    }
}
