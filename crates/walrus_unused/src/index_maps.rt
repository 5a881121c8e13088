//! Maps from the indices of a section to the indices of another one.
ghost use Rattle.std.specs.Prelude.{◌≡◌, IfOk, map};
ghost use Rattle.walrus_ty.specs.Indices.{type_index};

use std::alloc::{AllocError, Global};
use walrus_types::{IdsToIndices, TypeId};

/// Returns the new index of each type index of a section that was read, after its types were
/// written again. `None` says that the type was not written.
///
/// `ids` are the types of the old indices, as [`parse_types`](walrus_types::parse_types) returns
/// them. `indices` is the map that [`ModuleTypes::emit`](walrus_types::ModuleTypes::emit) returns.
/// [`new_indices_compose`](crate::laws::new_indices_compose) says that this is both maps in turn.
///
/// **The map is not applied to anything.** The rest of the module still names the old indices:
/// imports, functions, code and other sections. The module is wrong until they are all renumbered,
/// and a name of a type that was not written has to be refused.
///
/// # Errors
///
/// `AllocError` comes where memory was refused. Nothing has changed then.
///
/// # From one section to its normal form
///
/// ```
/// let (types, ids) = parse_types(alloc, keys, groups)?;
/// let (written, indices) = types.emit()?;
/// let new = new_indices(alloc, ids.as_slice(), &indices)?;
/// ```
pub fn new_indices(
    alloc: Global,
    ids: &[TypeId],
    indices: &IdsToIndices,
) -> Result<Vec<Option<u32>>, AllocError>
    ensures { IfOk result (λ new. new.items ≡ map (type_index indices.now) ids.now) }
{
    let mut new = Vec::with_capacity(alloc, ids.len())?;
    for id in ids {
        new.push(index_of(indices, *id))?;
    }
    Ok(new)
}

fn index_of(indices: &IdsToIndices, id: TypeId) -> Option<u32>
    ensures { result ≡ type_index indices.now id }
{
    match indices.get_type_index(id) {
        Ok(index) => Some(index),
        Err(_) => None,
    }
}
