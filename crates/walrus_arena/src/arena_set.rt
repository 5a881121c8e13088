//! A set of values in an arena: a value is found again by an equal one.
ghost use Rattle.std.specs.Prelude.{◌≡◌, ◌∷◌, ◌++◌, [], length, IsTrue, ◌↔◌, IfOk, OnOk, OnErr, IsOk, IsSome, Some, None, MatchOption, ◌<◌, All, map, nat_eq, true};
ghost use Rattle.walrus_arena.specs.Arena.{get, IsLive, items, range};
ghost use Rattle.walrus_id.specs.HashKeys.{fixed_hasher};
ghost use Rattle.walrus_arena.specs.Set.{found_id, holds, Adds, Registers, Removes, IsSame, ClonesAreEqual, RemovesAll};
ghost use Rattle.std.specs.HashMap.{hasher_of};
ghost use Rattle.std.specs.Map.{lookup};
ghost use Rattle.std.specs.Borrow.{sem};
ghost use Rattle.std.specs.List.{IsDistinct};

use crate::{HashKeys, Id, Iter, Tombstone, TombstoneArena};
use std::alloc::{AllocError, Allocator, Global};
use std::collections::HashMap;
use std::hash::Hash;
use std::marker::Model;
use std::ops::{Index, IndexMut};

/// An arena of values with a map from values to ids, so that a value is found again by an equal
/// one.
///
/// An item may be changed in place, through `[id]`. The map does not follow such a change. So a
/// mapped id is used only while it is live and its item is equal to the value that was asked for.
///
/// A contract sees the slots of the arena, the entries of the map and the keys of its hash.
#[derive(Drop)]
pub struct ArenaSet<T: Clone + Eq + Hash, A: Allocator = Global> {
    arena: TombstoneArena<T, A>,
    map: HashMap<T, Id<T>, HashKeys, A>,
}

impl<T: Clone + Eq + Hash, A: Allocator> Model for ArenaSet<T, A> {
    ghost use Rattle.std.specs.HashMap.{hasher_of};
    ghost use Rattle.walrus_arena.specs.Set.{Set, set_code};

    ghost Value = { Set T };

    ghost coded = { set_code T.code };

    ghost view = { λ s. record { slots = s.arena; entries = s.map.entries; keys = hasher_of s.map } };
}

impl<T: Clone + Eq + Hash, A: Allocator> ArenaSet<T, A> {
    /// An empty set whose hash has fixed keys. It takes no memory.
    ///
    /// Fixed keys are safe where the values are trusted: see [`HashKeys`].
    pub fn new(alloc: A) -> Self
    where
        A: Copy,
        ensures slots { result.slots ≡ [] }
        ensures map { result.entries ≡ [] }
        ensures keys { result.keys ≡ fixed_hasher }
    {
        ArenaSet::with_hash_keys(alloc, HashKeys::fixed())
    }

    /// An empty set whose hash has these keys. It takes no memory. What the calls return does not
    /// depend on the keys.
    pub fn with_hash_keys(alloc: A, keys: HashKeys) -> Self
    where
        A: Copy,
        ensures slots { result.slots ≡ [] }
        ensures map { result.entries ≡ [] }
        ensures keys { result.keys ≡ keys }
    {
        ArenaSet {
            arena: TombstoneArena::new(alloc),
            map: HashMap::with_hasher(alloc, keys),
        }
    }

    /// The id that the next new slot gets: the number of slots, including dead ones.
    pub fn next_id(&self) -> Id<T>
        ensures { result ≡ length self.now.slots }
    {
        self.arena.next_id()
    }

    /// The live items with their ids, in the order of the ids.
    pub fn iter(&self) -> Iter<'_, T>
        ensures { result ≡ items self.now.slots }
    {
        self.arena.iter()
    }

    /// Whether the id is live.
    pub fn contains(&self, id: Id<T>) -> bool
        ensures { IsTrue result ↔ IsLive self.now.slots id }
    {
        self.arena.contains(id)
    }

    /// Returns the id that the value is mapped to, if that id is live and its item is equal to the
    /// value, and `None` otherwise.
    pub fn find(&self, value: &T) -> Option<Id<T>>
        ensures { result ≡ found_id T.eq self.now value.now }
    {
        let at = self.map.get(value)?.place();
        match self.arena.get(Id::from_index(at)) {
            Some(item) if value == item => Some(Id::from_index(at)),
            _ => None,
        }
    }

    /// Returns the id that `find` returns, if it returns one. Otherwise it puts the value into a
    /// new slot, maps it to the id of this slot, and returns this id. After an `AllocError` slots
    /// and map are as they were.
    pub fn insert(&mut self, value: T) -> Result<Id<T>, AllocError>
    where
        A: Clone,
        requires { ClonesAreEqual T.is_clone T.eq }
        ensures ok { IfOk result
            (λ id. MatchOption (found_id T.eq self.old value) (Adds T.eq self.old self.new value id)
            (λ known. (id ≡ known) × IsSame T.eq self.old self.new)) }
        ensures item { IfOk result (λ id. holds (T.eq value) (get self.new.slots id) ≡ true) }
        ensures err { OnErr result (IsSame T.eq self.old self.new) }
    {
        match self.find(&value) {
            Some(id) => Ok(id),
            None => self.alloc_and_register(value),
        }
    }

    /// Puts the value into a new slot, even where an equal one is there, and returns the id of this
    /// slot. The value is mapped to this id, whatever it was mapped to before. After an
    /// `AllocError` slots and map are as they were.
    ///
    /// It is `insert` without a look at what is there, for a value that `find` does not find.
    /// walrus has no such call.
    pub fn alloc_and_register(&mut self, value: T) -> Result<Id<T>, AllocError>
    where
        A: Clone,
        requires { ClonesAreEqual T.is_clone T.eq }
        ensures ok { IfOk result (Adds T.eq self.old self.new value) }
        ensures item { IfOk result (λ id. holds (T.eq value) (get self.new.slots id) ≡ true) }
        ensures err { OnErr result (IsSame T.eq self.old self.new) }
    {
        let key = value.clone()?;
        self.map.reserve(1)?;
        let at = self.arena.alloc(value)?.index();
        self.map.insert(key, Id::from_index(at))?;
        Ok(Id::from_index(at))
    }

    /// Puts the value into a new slot, even where an equal one is there, and returns its id. The
    /// map stays. After an `AllocError` the set is as it was.
    pub fn alloc_unique(&mut self, value: T) -> Result<Id<T>, AllocError>
        ensures id { IfOk result (λ id. id ≡ length self.old.slots) }
        ensures ok { OnOk result
            (self.new ≡ record self.old { slots = self.old.slots ++ Some value ∷ [] }) }
        ensures err { OnErr result (self.new ≡ self.old) }
    {
        self.arena.alloc(value)
    }

    /// Uses up an id: a new slot that is dead from the start, whose value is deleted at once. The
    /// map stays. After an `AllocError` the set is as it was.
    ///
    /// walrus has no such call.
    pub fn alloc_dead(&mut self, value: T) -> Result<Id<T>, AllocError>
    where
        T: Tombstone,
        ensures id { IfOk result (λ id. id ≡ length self.old.slots) }
        ensures ok { OnOk result
            (self.new ≡ record self.old { slots = self.old.slots ++ None ∷ [] }) }
        ensures err { OnErr result (self.new ≡ self.old) }
    {
        let dead = self.arena.alloc(value)?.index();
        self.arena.mark_dead(dead);
        Ok(Id::from_index(dead))
    }

    /// Puts the values into new slots, in order, and returns their ids. The map stays. All or none:
    /// after an `AllocError` the set is as it was.
    pub fn alloc_all(&mut self, values: Vec<T, A>) -> Result<Vec<Id<T>, A>, AllocError>
    where
        A: Copy,
        ensures ids { IfOk result
            (λ ids. ids.items ≡ range (length self.old.slots) (length values.items)) }
        ensures ok { OnOk result
            (self.new ≡ record self.old { slots = self.old.slots ++ map Some values.items }) }
        ensures err { OnErr result (self.new ≡ self.old) }
    {
        self.arena.alloc_all(values)
    }

    /// Writes the value over the item of a live id, and maps it to this id, whatever it was mapped
    /// to before. What the old item was mapped to stays. After an `AllocError` slots and map are as
    /// they were.
    pub fn replace_and_register(&mut self, id: Id<T>, value: T) -> Result<(), AllocError>
    where
        A: Clone,
        requires live { IsLive self.old.slots id }
        requires clones { ClonesAreEqual T.is_clone T.eq }
        ensures ok { OnOk result (Registers T.eq self.old self.new id value) }
        ensures err { OnErr result (IsSame T.eq self.old self.new) }
    {
        let at = id.index();
        let key = value.clone()?;
        self.map.reserve(1)?;
        self.arena[Id::from_index(at)] = value;
        self.map.insert(key, Id::from_index(at))?;
        Ok(())
    }

    /// Deletes the item of a live id. The entry of its present value leaves the map if it points at
    /// this very id. An entry that points elsewhere stays. It takes no memory, and always returns
    /// `Ok`.
    pub fn remove(&mut self, id: Id<T>) -> Result<(), AllocError>
    where
        T: Tombstone,
        requires { IsLive self.old.slots id }
        ensures ok { OnOk result (Removes T.eq self.old self.new id) }
        ensures err { OnErr result (IsSame T.eq self.old self.new) }
        ensures succeeds { IsOk result }
    {
        self.take_out(id.index());
        Ok(())
    }

    /// `remove` of each of these distinct live ids, in order. It takes no memory, and always
    /// returns `Ok`.
    pub fn remove_all(&mut self, ids: &[Id<T>]) -> Result<(), AllocError>
    where
        T: Tombstone,
        requires live { All (IsLive self.old.slots) ids.now }
        requires distinct { IsDistinct nat_eq ids.now }
        ensures ok { OnOk result (RemovesAll T.eq self.old ids.now self.new) }
        ensures err { OnErr result (IsSame T.eq self.old self.new) }
        ensures succeeds { IsOk result }
    {
        for id in ids {
            self.take_out(id.place());
        }
        Ok(())
    }

    // `remove` of a live id.
    fn take_out(&mut self, at: usize)
    where
        T: Tombstone,
        requires { IsLive self.old.slots at }
        ensures { Removes T.eq self.old self.new at }
    {
        let item = &self.arena[Id::from_index(at)];
        let is_own = match self.map.get(item) {
            Some(mapped) => mapped.place() == at,
            None => false,
        };
        if is_own {
            self.map.remove(item);
        }
        self.arena.mark_dead(at);
    }
}

/// A clone has clones of the values under the same ids, and the same keys. Where clones are equal to
/// their sources, each value is mapped to the id that it was mapped to.
impl<T: Clone + Eq + Hash, A: Allocator + Clone> Clone for ArenaSet<T, A> {
    ghost use Rattle.walrus_arena.specs.Set.{IsSetClone};

    ghost is_clone = { IsSetClone T.is_clone T.eq };

    fn clone(&self) -> Result<Self, AllocError> {
        Ok(ArenaSet {
            arena: self.arena.clone()?,
            map: clone_map(&self.map, self.arena.allocator().clone()?)?,
        })
    }
}

// Clones the keys into a new map. The contract of std's own clone of a map does not say that the
// keys of its hash are the same.
fn clone_map<T: Clone + Eq + Hash, A: Allocator + Clone>(
    map: &HashMap<T, Id<T>, HashKeys, A>,
    alloc: A,
) -> Result<HashMap<T, Id<T>, HashKeys, A>, AllocError>
    ensures keys { IfOk result (λ copy. hasher_of copy ≡ hasher_of map.now) }
    ensures same { IfOk result (λ copy. ClonesAreEqual T.is_clone T.eq → (q : T) →
        lookup (T.eq q) copy.entries ≡ lookup (T.eq q) map.now.entries) }
{
    let mut copies = HashMap::with_hasher(alloc, *map.hasher());
    copies.reserve(map.len())?;
    for (key, id) in map {
        copies.insert(key.clone()?, Id::from_index(id.place()))?;
    }
    Ok(copies)
}

/// `set[id]` is the item of a live id.
impl<T: Clone + Eq + Hash, A: Allocator> Index<Id<T>> for ArenaSet<T, A> {
    type Output = T;

    ghost can_index = { λ s id. IsLive s.slots id };

    ghost index_gives = { λ s id item. get s.slots id ≡ Some item };

    fn index(&self, id: Id<T>) -> &T {
        &self.arena[id]
    }
}

/// `set[id]` for writing. The map stays as it was.
impl<T: Clone + Eq + Hash, A: Allocator> IndexMut<Id<T>> for ArenaSet<T, A> {
    ghost use Rattle.walrus_arena.specs.SetLends.{LendsSetItem};

    fn index_mut(&mut self, id: Id<T>) -> &mut T
        requires { IsLive self.old.slots id }
        ensures* writes_back { sem 𝓛
            (LendsSetItem T.row A.row T.Clone T.Hash A.Allocator self.entry id result) }
        ensures value { get self.old.slots id ≡ Some result.now }
    {
        &mut self.arena[id]
    }
}
