//! An arena: items named by ids, none of which is given out twice.
ghost use Rattle.std.specs.Prelude.{◌≡◌, ◌+◌, ◌<◌, ◌↔◌, [], ◌∷◌, ◌++◌, length, IsTrue, IsOk, IsSome, IfOk, OnOk, OnErr, Some, option_copied, All, map, vec_len, nat_eq};
ghost use Rattle.std.specs.Option.{option_copied_mut};
ghost use Rattle.std.specs.List.{IsDistinct};
ghost use Rattle.std.specs.Borrow.{Lends, sem};
ghost use Rattle.walrus_arena.specs.Arena.{get, IsLive, live_count, without, without_all, range, items, ids};

use crate::{Id, Iter, Tombstone};
use std::alloc::{AllocError, Allocator, Global};
use std::marker::Model;
use std::ops::{Index, IndexMut};

/// Items named by ids. A deleted item leaves a dead slot, so that no id is given out twice.
///
/// A contract sees an arena as the list of its slots: `Some item` where a slot is live, and `None`
/// where it is dead. An id is a place in this list.
#[derive(Drop)]
pub struct TombstoneArena<T, A: Allocator = Global> {
    slots: Vec<Slot<T>, A>,
    // How many of the slots are live.
    live: usize,
}

// The item of a dead slot is as `on_delete` left it.
#[derive(Drop)]
pub(crate) struct Slot<T> {
    // It is first, beside the part of an item that is read most often.
    pub(crate) is_live: bool,
    pub(crate) item: T,
}

impl<T, A: Allocator> Model for TombstoneArena<T, A> {
    ghost use Rattle.std.specs.Prelude.{map};
    ghost use Rattle.walrus_arena.specs.Arena.{Slots};

    ghost Value = { Slots T };

    ghost use Rattle.walrus_arena.specs.Slot.{value_of, IsCounted};

    ghost view = { λ a. map value_of a.slots.items };

    ghost invariant = { λ a. IsCounted a.slots.items a.live };
}

impl<T, A: Allocator> TombstoneArena<T, A> {
    ghost use Rattle.walrus_arena.specs.Lends.{LendsItem, LendsItemIf};

    /// An arena without slots. It takes no memory.
    pub fn new(alloc: A) -> Self
        ensures { result ≡ [] }
    {
        TombstoneArena {
            slots: Vec::new(alloc),
            live: 0,
        }
    }

    /// Puts `value` into a new slot at the end, and returns its id. After an `AllocError` the arena
    /// is as it was, and `value` is dropped.
    pub fn alloc(&mut self, value: T) -> Result<Id<T>, AllocError>
    where
        T: Drop,
        ensures id { IfOk result (λ id. id ≡ length self.old) }
        ensures ok { OnOk result (self.new ≡ self.old ++ Some value ∷ []) }
        ensures err { OnErr result (self.new ≡ self.old) }
    {
        let id = self.next_id();
        self.slots.push(Slot {
            item: value,
            is_live: true,
        })?;
        self.live += 1;
        Ok(id)
    }

    /// Puts the item that `make` makes of its own id into a new slot at the end, and returns the
    /// id. Memory is taken before `make` runs: after an `AllocError` `make` did not run, and the
    /// arena is as it was.
    pub fn alloc_with_id<F: FnOnce(Id<T>) -> T + Drop>(
        &mut self,
        make: F,
    ) -> Result<Id<T>, AllocError>
        requires { F.pre make (length self.old) }
        ensures id { IfOk result (λ id. id ≡ length self.old) }
        ensures ok { OnOk result
            ((value : T) × F.post make (length self.old) value ×
            (self.new ≡ self.old ++ Some value ∷ [])) }
        ensures err { OnErr result (self.new ≡ self.old) }
    {
        self.slots.reserve(1)?;
        let at = self.slots.len();
        let item = make(Id::from_index(at));
        self.slots.push_reserved(Slot {
            item,
            is_live: true,
        });
        self.live += 1;
        Ok(Id::from_index(at))
    }

    /// Puts `values` into new slots at the end, in order, and returns their ids. All or none: after
    /// an `AllocError` the arena is as it was.
    pub fn alloc_all(&mut self, values: Vec<T, A>) -> Result<Vec<Id<T>, A>, AllocError>
    where
        T: Drop,
        A: Copy,
        ensures ids { IfOk result (λ all. all.items ≡ range (length self.old) (vec_len values)) }
        ensures ok { OnOk result (self.new ≡ self.old ++ map Some values.items) }
        ensures err { OnErr result (self.new ≡ self.old) }
    {
        let count = values.len();
        let mut all = Vec::with_capacity(*self.slots.allocator(), count)?;
        self.slots.reserve(count)?;
        for item in values {
            all.push_reserved(Id::from_index(self.slots.len()));
            self.slots.push_reserved(Slot {
                item,
                is_live: true,
            });
            self.live += 1;
        }
        Ok(all)
    }

    /// The item of the id, if it is live.
    pub fn get(&self, id: Id<T>) -> Option<&T>
        ensures { option_copied result ≡ get self.now id }
    {
        let slot = self.slots.get(id.index())?;
        if slot.is_live { Some(&slot.item) } else { None }
    }

    /// The item of the id for writing, if it is live.
    pub fn get_mut(&mut self, id: Id<T>) -> Option<&mut T>
        ensures* writes_back { sem 𝓛 (LendsItemIf T.row A.row A.Allocator self.entry id result) }
        ensures value { option_copied_mut result ≡ get self.old id }
    {
        let at = id.index();
        if self.contains(Id::from_index(at)) {
            Some(self.item_mut(at))
        } else {
            None
        }
    }

    /// Whether the id is live.
    pub fn contains(&self, id: Id<T>) -> bool
        ensures { IsTrue result ↔ IsLive self.now id }
    {
        self.get(id).is_some()
    }

    /// The number of live items.
    pub fn len(&self) -> usize
        ensures { result ≡ live_count self.now }
    {
        // Counted as items come and go.
        self.live
    }

    /// Whether no item is live.
    pub fn is_empty(&self) -> bool
        ensures { IsTrue result ↔ (live_count self.now ≡ 0) }
    {
        self.live == 0
    }

    /// The id that the next slot gets: the number of slots, including dead ones.
    pub fn next_id(&self) -> Id<T>
        ensures { result ≡ length self.now }
    {
        Id::from_index(self.slots.len())
    }

    /// The live items with their ids, in the order of the ids.
    pub fn iter(&self) -> Iter<'_, T>
        ensures { result ≡ items self.now }
    {
        Iter {
            slots: self.slots.as_slice(),
            first: 0,
        }
    }

    /// The live ids in order, for changing the items with `get_mut`.
    pub fn live_ids(&self) -> Result<Vec<Id<T>, A>, AllocError>
    where
        A: Copy,
        ensures { IfOk result (λ all. all.items ≡ ids self.now) }
    {
        let mut all = Vec::new(*self.slots.allocator());
        for (id, _) in self.iter() {
            all.push(id)?;
        }
        Ok(all)
    }

    /// Deletes the item of a live id: its slot is dead from then on, and its `on_delete` runs. It
    /// takes no memory, and always returns `Ok`.
    pub fn delete(&mut self, id: Id<T>) -> Result<(), AllocError>
    where
        T: Tombstone,
        requires { IsLive self.old id }
        ensures ok { OnOk result (self.new ≡ without self.old id) }
        ensures err { OnErr result (self.new ≡ self.old) }
        ensures succeeds { IsOk result }
    {
        self.mark_dead(id.index());
        Ok(())
    }

    /// `delete` of each of these distinct live ids, in order. It takes no memory, and always
    /// returns `Ok`.
    pub fn delete_all(&mut self, ids: &[Id<T>]) -> Result<(), AllocError>
    where
        T: Tombstone,
        requires live { All (IsLive self.old) ids.now }
        requires distinct { IsDistinct nat_eq ids.now }
        ensures ok { OnOk result (self.new ≡ without_all self.old ids.now) }
        ensures err { OnErr result (self.new ≡ self.old) }
        ensures succeeds { IsOk result }
    {
        for id in ids {
            self.mark_dead(id.place());
        }
        Ok(())
    }

    // Marks the slot of a live id as dead, and runs `on_delete` of its item.
    pub(crate) fn mark_dead(&mut self, at: usize)
    where
        T: Tombstone,
        requires { IsLive self.old at }
        ensures { self.new ≡ without self.old at }
    {
        let slot = &mut self.slots[at];
        slot.is_live = false;
        slot.item.on_delete();
        self.live -= 1;
    }

    // Where the memory of the slots is from.
    pub(crate) fn allocator(&self) -> &A {
        self.slots.allocator()
    }

    // The item of a live id for writing.
    fn item_mut(&mut self, at: usize) -> &mut T
        requires { IsLive self.old at }
        ensures* writes_back { sem 𝓛 (LendsItem T.row A.row A.Allocator self.entry at result) }
        ensures value { get self.old at ≡ Some result.now }
    {
        self.slots[at].item_mut()
    }
}

impl<T> Slot<T> {
    ghost use Rattle.walrus_arena.specs.contracts.tombstone_arena.Slot.{the_row};
    ghost use Rattle.walrus_arena.specs.Slot.{with_item};

    fn item_mut(&mut self) -> &mut T
        ensures* writes_back { sem 𝓛
            (Lends (the_row T.row) T.row self.entry result (with_item self.old)) }
        ensures value { result.now ≡ self.old.item }
    {
        &mut self.item
    }
}

// The item of a dead slot is cloned too.
impl<T: Clone, A: Allocator + Clone> Clone for TombstoneArena<T, A> {
    ghost use Rattle.walrus_arena.specs.Arena.{AreClones};

    ghost is_clone = { AreClones T.is_clone };

    fn clone(&self) -> Result<Self, AllocError> {
        Ok(TombstoneArena {
            slots: self.slots.clone()?,
            live: self.live,
        })
    }
}

impl<T: Clone> Clone for Slot<T> {
    ghost use Rattle.walrus_arena.specs.Slot.{IsSlotClone};

    ghost is_clone = { IsSlotClone T.is_clone };

    fn clone(&self) -> Result<Self, AllocError> {
        Ok(Slot {
            is_live: self.is_live,
            item: self.item.clone()?,
        })
    }
}

/// `arena[id]` is the item of a live id.
impl<T, A: Allocator> Index<Id<T>> for TombstoneArena<T, A> {
    type Output = T;

    ghost can_index = { IsLive };

    ghost index_gives = { λ a id item. get a id ≡ Some item };

    fn index(&self, id: Id<T>) -> &T {
        self.get(id).unwrap()
    }
}

/// `arena[id]` for writing.
impl<T, A: Allocator> IndexMut<Id<T>> for TombstoneArena<T, A> {
    ghost use Rattle.walrus_arena.specs.Lends.{LendsItem};

    fn index_mut(&mut self, id: Id<T>) -> &mut T
        requires { IsLive self.old id }
        ensures* writes_back { sem 𝓛 (LendsItem T.row A.row A.Allocator self.entry id result) }
        ensures value { get self.old id ≡ Some result.now }
    {
        self.item_mut(id.index())
    }
}
