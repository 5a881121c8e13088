//! The canonical form of a module's types.
//!
//! WebAssembly core specification, "Binary Format", "Type Section".
ghost use Rattle.std.specs.Prelude.{◌≡◌, IfOk, IfErr};
ghost use Rattle.wasm_normalise.specs.CanonicalModules.{HasCanonicalForm};
ghost use Rattle.wasm_normalise.specs.Steps.CanonicalTypes.{IsTypesRefusal};
ghost use Rattle.wasm_normalise.specs.declared.options.UnusedTypes.TheVariants as kinds;

use crate::refusal::Refusal;
use crate::{HashKeys, UnusedTypes};
use std::alloc::Global;
use walrus_canonical::{GroupAt, canonicalise};
use wasm_binary::module_types;
use wasm_module::named_types;

/// Returns the canonical form of a module's types, or of the used ones alone, and the new index of
/// each type.
pub fn canonical_types(
    alloc: Global,
    keys: HashKeys,
    bytes: &[u8],
    unused: UnusedTypes,
) -> Result<(Vec<GroupAt>, Vec<Option<u32>>), Refusal>
    ensures canonical { IfOk result (λ r. HasCanonicalForm unused bytes.now r.0.items r.1.items) }
    ensures refused { IfErr result (IsTypesRefusal unused bytes.now) }
{
    match unused {
        UnusedTypes::Kept => all_types(alloc, keys, bytes),
        UnusedTypes::Deleted => used_types(alloc, keys, bytes),
    }
}

/// The canonical form of all types.
fn all_types(
    alloc: Global,
    keys: HashKeys,
    bytes: &[u8],
) -> Result<(Vec<GroupAt>, Vec<Option<u32>>), Refusal>
    ensures canonical { IfOk result (λ r.
        HasCanonicalForm kinds.Kept bytes.now r.0.items r.1.items) }
    ensures refused { IfErr result (IsTypesRefusal kinds.Kept bytes.now) }
{
    let groups = module_types(alloc, bytes)?;
    let (canonical, new_indices) = canonicalise(alloc, keys, groups, None)?;
    Ok((canonical, new_indices))
}

/// The canonical form of the types that the rest of the module uses.
fn used_types(
    alloc: Global,
    keys: HashKeys,
    bytes: &[u8],
) -> Result<(Vec<GroupAt>, Vec<Option<u32>>), Refusal>
    ensures canonical { IfOk result (λ r.
        HasCanonicalForm kinds.Deleted bytes.now r.0.items r.1.items) }
    ensures refused { IfErr result (IsTypesRefusal kinds.Deleted bytes.now) }
{
    let groups = module_types(alloc, bytes)?;
    let roots = named_types(alloc, bytes)?;
    let (canonical, new_indices) = canonicalise(alloc, keys, groups, Some(roots.as_slice()))?;
    Ok((canonical, new_indices))
}
