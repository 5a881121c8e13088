//! Where a module is wrong outside its type section.
//!
//! WebAssembly core specification, "Binary Format", modules.
ghost use Rattle.std.specs.Prelude.{IfErr, IfOk};
ghost use Rattle.wasm_normalise.specs.CanonicalModules.{HasCount, HasTypesError, IsRefusedBy, IsStoppedByFault};
ghost use Rattle.wasm_normalise.specs.declared.options.NormaliseOptions.{NormaliseOptions};

use crate::NormaliseModuleError;
use std::alloc::Global;
use walrus_canonical::entry_count;
use wasm_binary::module_types;
use wasm_module::{RenameError, check_module};

/// The error of a module that a fault outside its type section stops, with the place of the first
/// one from left to right. What stopped the module may be a later one, or in another place where
/// sections were left out.
#[tactic(auto, using(crate::proofs::Errors::types_error))]
pub fn error_of_fault(alloc: Global, bytes: &[u8]) -> NormaliseModuleError
    ensures { (options : NormaliseOptions) → IsStoppedByFault options bytes.now →
        IsRefusedBy options bytes.now result }
{
    match type_count(alloc, bytes) {
        Ok(count) => first_fault(alloc, bytes, count),
        Err(error) => error,
    }
}

/// The same, for a module of this many types.
fn first_fault(alloc: Global, bytes: &[u8], count: u32) -> NormaliseModuleError
    requires { HasCount bytes.now count }
    ensures { (options : NormaliseOptions) → IsStoppedByFault options bytes.now →
        IsRefusedBy options bytes.now result }
{
    match check_module(alloc, bytes, count) {
        Err(RenameError::Malformed { offset }) => NormaliseModuleError::Malformed { offset },
        Err(RenameError::UnknownType { index, offset }) => NormaliseModuleError::UnknownType {
            index,
            count,
            offset,
        },
        // The module has a fault, and no content becomes longer. So only memory was refused.
        _ => NormaliseModuleError::Memory,
    }
}

/// How many types the module has.
pub fn type_count(alloc: Global, bytes: &[u8]) -> Result<u32, NormaliseModuleError>
    ensures found { IfOk result (HasCount bytes.now) }
    ensures refused { IfErr result (HasTypesError bytes.now) }
{
    let groups = module_types(alloc, bytes)?;
    let count = entry_count(groups.as_slice())?;
    Ok(count as u32)
}
