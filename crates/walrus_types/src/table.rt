//! The types of a module, and their recursion groups.
ghost use Rattle.std.specs.Prelude.{◌≡◌, ◌↔◌, All, [], IfOk, IsTrue, IsSome, IsSomeAnd, Some, length, option_copied};
ghost use Rattle.std.specs.Borrow.{sem};
ghost use Rattle.walrus_arena.specs.HashKeys.{fixed_hasher};
ghost use Rattle.walrus_types.specs.TypesById.{live_type, IsLive};
ghost use Rattle.walrus_types.specs.Table.{IsTable, empty_table, group_with, live_ids, live_types, next_id, signature_at};
ghost use Rattle.walrus_types.specs.TableLends.{LendsType};

mod add;
mod delete;
mod find;
mod function_types;
mod iter;
mod laws;
mod read;
mod rec_group;

use crate::{HashKeys, Type, TypeId, ValType};
pub use iter::TypesIter;
pub use laws::every_table_is_sound;
pub use rec_group::{AddRecGroupError, RecGroup, RecGroupId};
use std::alloc::{AllocError, Global};
use std::marker::Model;
use walrus_arena::ArenaSet;

/// The types of a module, each in one recursion group (WebAssembly core specification, "Types",
/// recursive types).
///
/// A type that is added alone is shared with equal ones that were added alone before. The types of
/// explicit groups are never shared, and a group of one type is not the same as that type alone.
#[derive(Drop)]
pub struct ModuleTypes {
    types: ArenaSet<Type>,
    groups: Vec<RecGroup>,
    // For each slot the place of the group of its type, also once the type is deleted.
    group_of: Vec<usize>,
}

impl Model for ModuleTypes {
    ghost use Rattle.walrus_types.specs.Table.{Table};
    ghost use Rattle.walrus_types.specs.Steps.TableIndex.{IsIndexed};

    ghost Value = { Table };

    ghost view = { λ t. record {
      types = record { slots = t.types.slots; entries = t.types.entries; keys = t.types.keys };
      groups = t.groups.items;
    } };

    ghost invariant = { λ t. IsIndexed
        (record {
          types = record { slots = t.types.slots; entries = t.types.entries; keys = t.types.keys };
          groups = t.groups.items;
        })
        t.group_of.items };
}

/// A clone has clones of the types at the same ids, finds types as its source does, and has the same
/// groups.
impl Clone for ModuleTypes {
    ghost use Rattle.walrus_types.specs.Table.{IsTableClone};

    ghost is_clone = { IsTableClone };

    fn clone(&self) -> Result<ModuleTypes, AllocError> {
        Ok(ModuleTypes {
            types: self.types.clone()?,
            groups: self.groups.clone()?,
            group_of: self.group_of.clone()?,
        })
    }
}

impl ModuleTypes {
    /// A table without types, in which types are found by a hash with fixed keys. It takes no
    /// memory.
    ///
    /// Fixed keys are safe where the types are trusted: see [`HashKeys`].
    pub fn new(alloc: Global) -> Self
        ensures { result ≡ empty_table fixed_hasher }
    {
        ModuleTypes::with_hash_keys(alloc, HashKeys::fixed())
    }

    /// A table without types, in which types are found by a hash with these keys. It takes no
    /// memory. What the calls return does not depend on the keys.
    pub fn with_hash_keys(alloc: Global, keys: HashKeys) -> Self
        ensures { result ≡ empty_table keys }
    {
        ModuleTypes {
            types: ArenaSet::with_hash_keys(alloc, keys),
            groups: Vec::new(alloc),
            group_of: Vec::new(alloc),
        }
    }

    /// Whether the id is live.
    pub fn contains(&self, id: TypeId) -> bool
        ensures { IsTrue result ↔ IsLive self.now.types.slots id }
    {
        self.types.contains(id)
    }

    /// Whether all of these ids are live, as `delete_unused_types` asks of its roots.
    pub fn contains_all(&self, ids: &[TypeId]) -> bool
        ensures { IsTrue result ↔ All (IsLive self.now.types.slots) ids.now }
    {
        ids.iter().all(|id| self.contains(*id))
    }

    /// The type of a live id.
    pub fn get(&self, id: TypeId) -> &Type
        requires { IsLive self.now.types.slots id }
        ensures { live_type self.now.types.slots id ≡ Some result.now }
    {
        &self.types[id]
    }

    /// The live types in the order of their ids.
    pub fn iter(&self) -> TypesIter<'_>
        ensures { result ≡ live_types self.now }
    {
        TypesIter {
            items: self.types.iter(),
        }
    }

    /// The live ids in order, for changing the types with `get_mut` or deleting many of them with
    /// `delete_all`.
    pub fn live_ids(&self) -> Result<Vec<TypeId>, AllocError>
        ensures { IfOk result (λ all. all.items ≡ live_ids self.now) }
    {
        let mut all = Vec::new(self.allocator());
        for (id, _) in self.types.iter() {
            all.push(id)?;
        }
        Ok(all)
    }

    /// The id that the next new type will have. All ids so far are below it, those of deleted types
    /// too.
    ///
    /// ```
    /// let next = types.next_id();
    /// assert_eq!(rt; types.add(&[ValType::I64], &[])?, next);
    /// ```
    pub fn next_id(&self) -> TypeId
        ensures { result ≡ next_id self.now }
    {
        self.types.next_id()
    }

    /// All recursion groups in the order in which they came, those without types too.
    pub fn rec_groups(&self) -> &[RecGroup]
        ensures groups { result.now ≡ self.now.groups }
        ensures grouping { IsTable self.now }
    {
        self.groups.as_slice()
    }

    /// The group that has the id, if the id is live.
    pub fn rec_group_for_type(&self, id: TypeId) -> Option<&RecGroup>
        ensures { option_copied result ≡ group_with self.now.groups id }
    {
        if self.types.contains(id) {
            Some(&self.groups[self.group_of[id.index()]])
        } else {
            None
        }
    }

    pub(crate) fn allocator(&self) -> Global {
        *self.groups.allocator()
    }

    /// The type of a live id, for writing. A whole type that is written over it keeps the `id()`
    /// that it brings, while the table uses the slot. A type that was found at this id before the
    /// write is still found there as long as it is equal.
    pub fn get_mut(&mut self, id: TypeId) -> &mut Type
        requires { IsLive self.old.types.slots id }
        ensures* writes_back { sem 𝓛 (LendsType self.entry id result) }
        ensures value { live_type self.old.types.slots id ≡ Some result.now }
    {
        &mut self.types[id]
    }

    /// The parameters of a function type.
    pub fn params(&self, id: TypeId) -> &[ValType]
        requires { IsSome (signature_at self.now id) }
        ensures { IsSomeAnd (signature_at self.now id) (λ f. result.now ≡ f.params) }
    {
        self.types[id].params()
    }

    /// The results of a function type.
    pub fn results(&self, id: TypeId) -> &[ValType]
        requires { IsSome (signature_at self.now id) }
        ensures { IsSomeAnd (signature_at self.now id) (λ f. result.now ≡ f.results) }
    {
        self.types[id].results()
    }

    /// The parameters and the results of a function type.
    pub fn params_results(&self, id: TypeId) -> (&[ValType], &[ValType])
        requires { IsSome (signature_at self.now id) }
        ensures { IsSomeAnd (signature_at self.now id)
            (λ f. (result.0.now ≡ f.params) × (result.1.now ≡ f.results)) }
    {
        let ty = &self.types[id];
        (ty.params(), ty.results())
    }
}
