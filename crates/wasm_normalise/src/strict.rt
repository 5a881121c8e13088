//! A module with its types in canonical form, if nothing can be wrong in it.
ghost use Rattle.std.specs.Prelude.{◌≡◌, IfErr, IfOk, OnOk};
ghost use Rattle.wasm_normalise.specs.CanonicalModules.{DescriptionsFit, IsCanonicalModule};
ghost use Rattle.wasm_normalise.specs.Hazards.{HasNoHazard};
ghost use Rattle.wasm_normalise.specs.Meanings.{NameEqualTypes};
ghost use Rattle.wasm_normalise.specs.StrictErrors.{IsStrictError};
ghost use Rattle.wasm_normalise.specs.declared.options.Descriptions.TheVariants as descriptions;
ghost use Rattle.wasm_normalise.specs.declared.strict.StrictError.TheVariants as failure;

use crate::{
    HashKeys, Hazard, NormaliseModuleError, NormaliseOptions, canonical_module, find_hazard,
};
use std::alloc::Global;
use thiserror::Error;

/// Why [`strict_canonical_module`] returned no module.
#[derive(Clone, Copy, PartialEq, Eq, Debug, Error)]
pub enum StrictError {
    /// No module was made.
    #[error("{0}")]
    Refused(NormaliseModuleError),
    /// A module was made, but this can be wrong in it.
    #[error("{0}")]
    Hazard(Hazard),
}

impl From<NormaliseModuleError> for StrictError {
    ghost from_gives = { λ e new. new ≡ failure.Refused e };

    fn from(error: NormaliseModuleError) -> StrictError {
        StrictError::Refused(error)
    }
}

/// Returns what [`canonical_module`] returns, if nothing can be wrong in it: each custom section is
/// of a known kind, or has a name in `allowed`, and the sections `name` can be read. `wasmnorm --strict`
/// does the same.
///
/// # Errors
///
/// - [`StrictError::Refused`] has the error of `canonical_module`.
/// - [`StrictError::Hazard`] has what [`find_hazard`] finds. It comes only where `canonical_module`
///   returns a module.
///
/// # Without unused types
///
/// ```
/// let options = NormaliseOptions {
///     unused: UnusedTypes::Deleted,
///     ..NormaliseOptions::default()
/// };
/// let new = strict_canonical_module(alloc, keys, bytes, options, &[])?;
/// ```
#[tactic(auto, using(crate::proofs::Errors::types_error))]
pub fn strict_canonical_module(
    alloc: Global,
    keys: HashKeys,
    bytes: &[u8],
    options: NormaliseOptions,
    allowed: &[&[u8]],
) -> Result<Vec<u8>, StrictError>
    // The result is what `canonical_module` returns,
    ensures canonical { IfOk result (λ new. IsCanonicalModule options bytes.now new.items) }
    ensures same_types { IfOk result (λ new. NameEqualTypes bytes.now new.items) }
    ensures fits { options.descriptions ≡ descriptions.Kept →
        IfOk result (λ new. DescriptionsFit bytes.now new.items) }
    // and nothing can be wrong in it.
    ensures safe { OnOk result (HasNoHazard allowed.now bytes.now) }
    // Or there is none, as the error says.
    ensures refused { IfErr result (IsStrictError options allowed.now bytes.now) }
{
    let new = canonical_module(alloc, keys, bytes, options)?;
    match find_hazard(alloc, bytes, allowed)? {
        Some(hazard) => Err(StrictError::Hazard(hazard)),
        None => Ok(new),
    }
}
