//! The pass that deletes unused types.
ghost use Rattle.std.specs.Prelude.{◌≡◌, ◌↔◌, ℕ, All, IfOk, OnOk, OnErr};
ghost use Rattle.walrus_types.specs.TypesById.{IsLive};
ghost use Rattle.walrus_types.specs.Table.{IsTable, DeletesAll};
ghost use Rattle.walrus_unused.specs.NeededTypes.{IsNeeded, AreUnused, Keeps};
ghost use Rattle.walrus_unused.specs.AllIndices.{HasAllIndices};

mod marking;

use marking::Marking;
use std::alloc::{AllocError, Global};
use walrus_types::{ModuleTypes, TypeId};

/// Deletes the types that no root needs, and returns their ids in order. Each root has to be the id
/// of a live type, which [`ModuleTypes::contains_all`] tests. It may be listed more than once.
///
/// A type is needed in three cases: it is a root; a needed type names it, also as supertype; or it
/// is in one recursion group with a needed type. So a group is kept whole or deleted whole. A type
/// that marks the entry of a function is a type like all others: it stays where it is a root, or
/// where a needed type names it. A name of an id that isn't live needs nothing.
///
/// What stays keeps its id, its contents and its group, and is found as before. Groups that lost
/// their types stay in the list of groups, without types. If no name misses its index when
/// [`ModuleTypes::emit`] writes the table before, none does after. What it is then written as can
/// be read again
/// ([`emitted_section_can_be_read`](walrus_types::laws::emitted_section_can_be_read)).
///
/// It takes time linear in the size of the table and the number of roots, however many groups are
/// deleted and however large they are.
///
/// This is the part of passes such as walrus's `gc` and Binaryen's `remove-unused-types` that
/// deletes types. Finding the roots is left to the caller, and functions, tables and all other
/// items stay. The roots that a function brings are what [`used_types`](crate::used_types) lists.
///
/// # Errors
///
/// `AllocError` comes where memory was refused. Then nothing was deleted.
///
/// # A struct that nothing names
///
/// ```
/// let pair = types.add_struct(fields)?;
/// let used = types.add(&[ValType::I32], &[])?;
/// let deleted = delete_unused_types(alloc, &mut types, &[used])?;
/// assert_eq!(rt; deleted.as_slice(), [pair].as_slice());
/// ```
///
/// # Keeping what functions use
///
/// ```
/// let mut roots = Vec::new(alloc);
/// for func in funcs.iter() {
///     let Some(used) = used_types(alloc, func, &locals)? else {
///         return Err(Fail::new("not nested"));
///     };
///     roots.extend_from_slice(used.as_slice())?;
/// }
/// if types.contains_all(roots.as_slice()) {
///     delete_unused_types(alloc, &mut types, roots.as_slice())?;
/// }
/// ```
///
/// # Keeping what a module names
///
/// `named_types` of `wasm_module` lists the indices that a module names outside its type section.
/// Their ids are the roots:
///
/// ```
/// let groups = module_types(alloc, bytes)?;
/// let (mut types, ids) = parse_types(alloc, keys, groups.as_slice())?;
/// let mut roots = Vec::new(alloc);
/// for index in named_types(alloc, bytes)? {
///     let Some(id) = ids.get(index as usize) else {
///         return Err(Fail::new("no such type"));
///     };
///     roots.push(*id)?;
/// }
/// delete_unused_types(alloc, &mut types, roots.as_slice())?;
/// ```
pub fn delete_unused_types(
    alloc: Global,
    types: &mut ModuleTypes,
    roots: &[TypeId],
) -> Result<Vec<TypeId>, AllocError>
    requires { All (IsLive types.old.types.slots) roots.now }
    ensures deleted { IfOk result (λ ids. AreUnused types.old roots.now ids.items) }
    ensures ok { IfOk result (λ ids. DeletesAll types.old ids.items types.new) }
    ensures live { OnOk result
        ((id : ℕ) → IsLive types.new.types.slots id ↔ IsNeeded types.old roots.now id) }
    ensures kept { OnOk result (Keeps (IsNeeded types.old roots.now) types.old types.new) }
    ensures all_indices { OnOk result (HasAllIndices types.old → HasAllIndices types.new) }
    ensures err { OnErr result (types.new ≡ types.old) }
{
    let unused = unused_types(alloc, types, roots)?;
    types.delete_all(unused.as_slice())?;
    Ok(unused)
}

// The ids of the live types that no root needs, in order.
fn unused_types(
    alloc: Global,
    types: &ModuleTypes,
    roots: &[TypeId],
) -> Result<Vec<TypeId>, AllocError>
    requires { All (IsLive types.now.types.slots) roots.now }
    ensures unused { IfOk result (λ ids. AreUnused types.now roots.now ids.items) }
    ensures grouping { OnOk result (IsTable types.now) }
{
    let live = types.live_ids()?;
    let groups = types.rec_groups();
    let mut marking = Marking::new(alloc, types.next_id().index(), groups.len())?;
    marking.mark_needed(alloc, types, roots)?;
    marking.unmarked_ids(alloc, live.as_slice())
}
