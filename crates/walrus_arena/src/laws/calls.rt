//! Each call of arenas and sets that changes something, made once: it is a `Call`, of which
//! [`ids_are_given_out_once`] speaks.
//!
//! [`ids_are_given_out_once`]: super::ids_are_given_out_once
ghost use Rattle.std.specs.Prelude.{◌≡◌, [], ◌∷◌, ◌++◌, length, map, Some, IfOk, OnOk, OnErr, MatchOption, All, nat_eq};
ghost use Rattle.std.specs.List.{IsDistinct};
ghost use Rattle.walrus_arena.specs.Arena.{IsLive, Slots, with_value, without, without_all};
ghost use Rattle.walrus_arena.specs.Calls.{Call};
ghost use Rattle.walrus_arena.specs.Set.{found_id, ClonesAreEqual};

use crate::{ArenaSet, Id, Tombstone, TombstoneArena};
use std::alloc::{AllocError, Allocator};
use std::hash::Hash;

/// `alloc` of an arena.
pub fn alloc<T: Drop, A: Allocator>(
    arena: &mut TombstoneArena<T, A>,
    value: T,
) -> Result<Id<T>, AllocError>
    ensures ok { IfOk result (λ id. Call arena.old arena.new (id ∷ [])) }
    ensures err { OnErr result (Call arena.old arena.new []) }
{
    arena.alloc(value)
}

/// `alloc_with_id` of an arena.
pub fn alloc_with_id<T, A: Allocator, F: FnOnce(Id<T>) -> T + Drop>(
    arena: &mut TombstoneArena<T, A>,
    make: F,
) -> Result<Id<T>, AllocError>
    requires { F.pre make (length arena.old) }
    ensures ok { IfOk result (λ id. Call arena.old arena.new (id ∷ [])) }
    ensures err { OnErr result (Call arena.old arena.new []) }
{
    arena.alloc_with_id(make)
}

/// `alloc_all` of an arena.
pub fn alloc_all<T: Drop, A: Allocator + Copy>(
    arena: &mut TombstoneArena<T, A>,
    values: Vec<T, A>,
) -> Result<Vec<Id<T>, A>, AllocError>
    ensures slots { OnOk result (arena.new ≡ arena.old ++ map Some values.items) }
    ensures ok { IfOk result (λ ids. Call arena.old arena.new ids.items) }
    ensures err { OnErr result (Call arena.old arena.new []) }
{
    arena.alloc_all(values)
}

/// A write through an index of an arena.
pub fn write<T: Drop, A: Allocator>(arena: &mut TombstoneArena<T, A>, id: Id<T>, value: T)
    requires { IsLive arena.old id }
    ensures slots { arena.new ≡ with_value arena.old id value }
    ensures call { Call arena.old arena.new [] }
{
    arena[id] = value;
}

/// A write through `get_mut` of an arena, if the id is live.
pub fn write_if_live<T: Drop, A: Allocator>(arena: &mut TombstoneArena<T, A>, id: Id<T>, value: T)
    ensures slots { IsLive arena.old id → arena.new ≡ with_value arena.old id value }
    ensures call { Call arena.old arena.new [] }
{
    if let Some(item) = arena.get_mut(id) {
        *item = value;
    }
}

/// `delete` of an arena.
pub fn delete<T: Tombstone, A: Allocator>(
    arena: &mut TombstoneArena<T, A>,
    id: Id<T>,
) -> Result<(), AllocError>
    requires { IsLive arena.old id }
    ensures slots { OnOk result (arena.new ≡ without arena.old id) }
    ensures ok { OnOk result (Call arena.old arena.new []) }
    ensures err { OnErr result (Call arena.old arena.new []) }
{
    arena.delete(id)
}

/// `delete_all` of an arena.
pub fn delete_all<T: Tombstone, A: Allocator>(
    arena: &mut TombstoneArena<T, A>,
    ids: &[Id<T>],
) -> Result<(), AllocError>
    requires live { All (IsLive arena.old) ids.now }
    requires distinct { IsDistinct nat_eq ids.now }
    ensures slots { OnOk result (arena.new ≡ without_all arena.old ids.now) }
    ensures ok { OnOk result (Call arena.old arena.new []) }
    ensures err { OnErr result (Call arena.old arena.new []) }
{
    arena.delete_all(ids)
}

/// `insert` of a set. An id that was found is not the id of a new slot.
pub fn insert<T: Clone + Eq + Hash, A: Allocator + Clone>(
    set: &mut ArenaSet<T, A>,
    value: T,
) -> Result<Id<T>, AllocError>
    requires { ClonesAreEqual T.is_clone T.eq }
    ensures ok { IfOk result
        (λ id. MatchOption (found_id T.eq set.old value)
        (Call set.old.slots set.new.slots (id ∷ [])) (λ _. Call set.old.slots set.new.slots [])) }
    ensures err { OnErr result (Call set.old.slots set.new.slots []) }
{
    set.insert(value)
}

/// `alloc_and_register` of a set.
pub fn alloc_and_register<T: Clone + Eq + Hash, A: Allocator + Clone>(
    set: &mut ArenaSet<T, A>,
    value: T,
) -> Result<Id<T>, AllocError>
    requires { ClonesAreEqual T.is_clone T.eq }
    ensures ok { IfOk result (λ id. Call set.old.slots set.new.slots (id ∷ [])) }
    ensures err { OnErr result (Call set.old.slots set.new.slots []) }
{
    set.alloc_and_register(value)
}

/// `alloc_unique` of a set.
pub fn alloc_unique<T: Clone + Eq + Hash, A: Allocator>(
    set: &mut ArenaSet<T, A>,
    value: T,
) -> Result<Id<T>, AllocError>
    ensures ok { IfOk result (λ id. Call set.old.slots set.new.slots (id ∷ [])) }
    ensures err { OnErr result (Call set.old.slots set.new.slots []) }
{
    set.alloc_unique(value)
}

/// `alloc_dead` of a set: an allocation, and then the deletion of what it made.
pub fn alloc_dead<T: Clone + Eq + Hash + Tombstone, A: Allocator>(
    set: &mut ArenaSet<T, A>,
    value: T,
) -> Result<Id<T>, AllocError>
    ensures ok { IfOk result
        (λ id. (between : Slots T) ×
        Call set.old.slots between (id ∷ []) × Call between set.new.slots []) }
    ensures err { OnErr result (Call set.old.slots set.new.slots []) }
{
    set.alloc_dead(value)
}

/// `alloc_all` of a set.
pub fn alloc_all_of_set<T: Clone + Eq + Hash, A: Allocator + Copy>(
    set: &mut ArenaSet<T, A>,
    values: Vec<T, A>,
) -> Result<Vec<Id<T>, A>, AllocError>
    ensures slots { OnOk result (set.new.slots ≡ set.old.slots ++ map Some values.items) }
    ensures ok { IfOk result (λ ids. Call set.old.slots set.new.slots ids.items) }
    ensures err { OnErr result (Call set.old.slots set.new.slots []) }
{
    set.alloc_all(values)
}

/// A write through an index of a set.
pub fn write_in_set<T: Clone + Eq + Hash, A: Allocator>(
    set: &mut ArenaSet<T, A>,
    id: Id<T>,
    value: T,
)
    requires { IsLive set.old.slots id }
    ensures slots { set.new.slots ≡ with_value set.old.slots id value }
    ensures call { Call set.old.slots set.new.slots [] }
{
    set[id] = value;
}

/// `replace_and_register` of a set.
pub fn replace_and_register<T: Clone + Eq + Hash, A: Allocator + Clone>(
    set: &mut ArenaSet<T, A>,
    id: Id<T>,
    value: T,
) -> Result<(), AllocError>
    requires live { IsLive set.old.slots id }
    requires clones { ClonesAreEqual T.is_clone T.eq }
    ensures slots { OnOk result (set.new.slots ≡ with_value set.old.slots id value) }
    ensures ok { OnOk result (Call set.old.slots set.new.slots []) }
    ensures err { OnErr result (Call set.old.slots set.new.slots []) }
{
    set.replace_and_register(id, value)
}

/// `remove` of a set.
pub fn remove<T: Clone + Eq + Hash + Tombstone, A: Allocator>(
    set: &mut ArenaSet<T, A>,
    id: Id<T>,
) -> Result<(), AllocError>
    requires { IsLive set.old.slots id }
    ensures slots { OnOk result (set.new.slots ≡ without set.old.slots id) }
    ensures ok { OnOk result (Call set.old.slots set.new.slots []) }
    ensures err { OnErr result (Call set.old.slots set.new.slots []) }
{
    set.remove(id)
}

/// `remove_all` of a set.
pub fn remove_all<T: Clone + Eq + Hash + Tombstone, A: Allocator>(
    set: &mut ArenaSet<T, A>,
    ids: &[Id<T>],
) -> Result<(), AllocError>
    requires live { All (IsLive set.old.slots) ids.now }
    requires distinct { IsDistinct nat_eq ids.now }
    ensures slots { OnOk result (set.new.slots ≡ without_all set.old.slots ids.now) }
    ensures ok { OnOk result (Call set.old.slots set.new.slots []) }
    ensures err { OnErr result (Call set.old.slots set.new.slots []) }
{
    set.remove_all(ids)
}
