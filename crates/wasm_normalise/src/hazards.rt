//! What can be wrong in a module with its types in canonical form.
ghost use Rattle.std.specs.Prelude.{◌⊎◌, IfErr, IfNone, IfOk, IfSome};
ghost use Rattle.wasm_binary.specs.Modules.{IsNoModule};
ghost use Rattle.wasm_normalise.specs.CanonicalModules.{HasTypesError};
ghost use Rattle.wasm_normalise.specs.Hazards.{HasNoHazard, IsHazard};

use crate::NormaliseModuleError;
use crate::faults::type_count;
use std::alloc::Global;
use thiserror::Error;
use wasm_module::{find_unknown_custom, find_unread_names};

/// What can be wrong in a module with its types in canonical form.
#[derive(Clone, Copy, PartialEq, Eq, Debug, Error)]
pub enum Hazard {
    /// A custom section is of an unknown kind. It is copied as it is, but may refer to types or to
    /// places in the file.
    #[error("the custom section at byte {offset} is of an unknown kind")]
    UnknownSection {
        /// The place of the first such section in the module as it was, counted from 0.
        offset: usize,
    },
    /// A custom section `name` can't be read. It is copied as it is, and what it says of types speaks
    /// of the old ones.
    #[error("the custom section at byte {offset} can't be read")]
    UnreadNames {
        /// The place of the first such section in the module as it was, counted from 0.
        offset: usize,
    },
}

/// Returns what can be wrong in the module that [`canonical_module`](crate::canonical_module) makes
/// of these bytes, or `None` where nothing can. Only a custom section can be wrong: one of an unknown
/// kind, of which [`find_unknown_custom`] finds the first one, or else a section `name` that can't be
/// read, of which [`find_unread_names`] does. The types mean what they meant.
///
/// Sections whose names are in `allowed` are of a known kind too: the caller says that they refer to no
/// type and to no place in the file. What it returns does not depend on the [`NormaliseOptions`](crate::NormaliseOptions). Custom
/// sections that describe other bytes, such as debug data, are of a known kind: `canonical_module`
/// refuses a module where one of them is kept and no longer fits.
///
/// # Errors
///
/// The errors are those of `canonical_module` for bytes that are no module, and for the type section,
/// which is read where the module has names of types.
///
/// # A warning
///
/// ```
/// let module = canonical_module(alloc, keys, bytes, NormaliseOptions::default())?;
/// if let Some(hazard) = find_hazard(alloc, bytes, &[])? {
///     println!(rt; "warning: {hazard}")?;
/// }
/// ```
pub fn find_hazard(
    alloc: Global,
    bytes: &[u8],
    allowed: &[&[u8]],
) -> Result<Option<Hazard>, NormaliseModuleError>
    // Nothing can be wrong.
    ensures none { IfOk result (λ found. IfNone found (HasNoHazard allowed.now bytes.now)) }
    // Or this can be.
    ensures found { IfOk result (λ found. IfSome found (IsHazard allowed.now bytes.now)) }
    // What is refused is no module, or its types are wrong as the error says.
    ensures refused { IfErr result (λ e. IsNoModule bytes.now ⊎ HasTypesError bytes.now e) }
{
    if let Some(offset) = find_unknown_custom(bytes, allowed)? {
        return Ok(Some(Hazard::UnknownSection { offset }));
    }
    // Names that can be read without any types can be read with more.
    if find_unread_names(bytes, 0)?.is_none() {
        return Ok(None);
    }
    let count = type_count(alloc, bytes)?;
    match find_unread_names(bytes, count as usize)? {
        Some(offset) => Ok(Some(Hazard::UnreadNames { offset })),
        None => Ok(None),
    }
}
