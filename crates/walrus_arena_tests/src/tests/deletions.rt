//! `on_delete` runs once for each deletion.
ghost use Rattle.std.specs.Prelude.{◌≡◌};

use super::*;
use crate::assertions::assert_equal;
use std::cell::Cell;
use std::rc::Rc;

// A value that counts the calls of its `on_delete`, in a cell that its clones share.
#[derive(Drop)]
#[derive_where(PartialEq, Eq, Hash)]
struct Told {
    key: u32,
    #[derive_where(skip)]
    count: Rc<Cell<u32>>,
}

impl Clone for Told {
    ghost is_clone = { λ source copy. copy.key ≡ source.key };

    fn clone(&self) -> Result<Told, AllocError> {
        Ok(Told {
            key: self.key,
            count: self.count.clone()?,
        })
    }
}

impl Tombstone for Told {
    fn on_delete(&mut self) {
        self.count.set(self.count.get().wrapping_add(1));
    }
}

fn make_told(rt: &impl Abort, key: u32, count: &Rc<Cell<u32>>) -> Told {
    let count = count.clone().expect(rt, "memory");
    Told { key, count }
}

// An arena of two values that count in one cell.
fn two_items(rt: &impl Abort, alloc: Global, count: &Rc<Cell<u32>>) -> TombstoneArena<Told> {
    let mut arena = TombstoneArena::new(alloc);
    for key in 0..2 {
        arena.alloc(make_told(rt, key, count)).expect(rt, "memory");
    }
    arena
}

#[test]
fn delete_tells_its_item_once(rt: HostRuntime) {
    let count = Rc::new(rt.alloc(), Cell::new(0)).expect(&rt, "memory");
    let mut arena = two_items(&rt, rt.alloc(), &count);
    assert_equal(&rt, count.get(), 0);
    assert!(rt; arena.contains(Id::from_index(1)));
    arena.delete(Id::from_index(1)).expect(&rt, "memory");
    assert_equal(&rt, count.get(), 1);
    drop(arena);
    assert_equal(&rt, count.get(), 1);
}

#[test]
#[tactic(auto, using(walrus_arena::proofs::ArenaLemmas::distinct_pair))]
fn delete_all_tells_each_item_once(rt: HostRuntime) {
    let count = Rc::new(rt.alloc(), Cell::new(0)).expect(&rt, "memory");
    let mut arena = two_items(&rt, rt.alloc(), &count);
    let ids: [Id<Told>; 2] = [Id::from_index(1), Id::from_index(0)];
    assert!(rt; arena.contains(ids[0]));
    assert!(rt; arena.contains(ids[1]));
    arena.delete_all(ids.as_slice()).expect(&rt, "memory");
    assert_equal(&rt, count.get(), 2);
    assert!(rt; arena.is_empty());
}

#[test]
#[tactic(auto, using(walrus_arena::proofs::ArenaLemmas::distinct_none))]
fn no_ids_delete_nothing(rt: HostRuntime) {
    let count = Rc::new(rt.alloc(), Cell::new(0)).expect(&rt, "memory");
    let mut arena = two_items(&rt, rt.alloc(), &count);
    let ids: [Id<Told>; 0] = [];
    arena.delete_all(ids.as_slice()).expect(&rt, "memory");
    assert_equal(&rt, count.get(), 0);
    assert_equal(&rt, arena.len(), 2);
}

// A set of two values that count in one cell.
fn two_values(rt: &impl Abort, alloc: Global, count: &Rc<Cell<u32>>) -> ArenaSet<Told> {
    let mut set = ArenaSet::new(alloc);
    for key in 0..2 {
        set.insert(make_told(rt, key, count)).expect(rt, "memory");
    }
    set
}

#[test]
fn remove_tells_its_item_once(rt: HostRuntime) {
    let count = Rc::new(rt.alloc(), Cell::new(0)).expect(&rt, "memory");
    let mut set = two_values(&rt, rt.alloc(), &count);
    assert!(rt; set.contains(Id::from_index(1)));
    assert_equal(&rt, count.get(), 0);
    set.remove(Id::from_index(1)).expect(&rt, "memory");
    assert_equal(&rt, count.get(), 1);
    drop(set);
    assert_equal(&rt, count.get(), 1);
}

#[test]
#[tactic(auto, using(walrus_arena::proofs::ArenaLemmas::distinct_pair))]
fn remove_all_tells_each_item_once(rt: HostRuntime) {
    let count = Rc::new(rt.alloc(), Cell::new(0)).expect(&rt, "memory");
    let mut set = two_values(&rt, rt.alloc(), &count);
    let ids: [Id<Told>; 2] = [Id::from_index(1), Id::from_index(0)];
    assert!(rt; set.contains(ids[0]));
    assert!(rt; set.contains(ids[1]));
    set.remove_all(ids.as_slice()).expect(&rt, "memory");
    assert_equal(&rt, count.get(), 2);
    drop(set);
    assert_equal(&rt, count.get(), 2);
}

#[test]
fn a_value_of_a_dead_slot_is_told_once(rt: HostRuntime) {
    let count = Rc::new(rt.alloc(), Cell::new(0)).expect(&rt, "memory");
    let mut set = two_values(&rt, rt.alloc(), &count);
    let dead = set
        .alloc_dead(make_told(&rt, 3, &count))
        .expect(&rt, "memory");
    assert_equal(&rt, dead.index(), 2);
    assert_equal(&rt, count.get(), 1);
}
