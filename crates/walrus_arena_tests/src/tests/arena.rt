//! Each call of an arena.
use super::*;
use crate::assertions::assert_equal;

// An arena of three items: the notes are 0, 1 and 2.
fn three_items(alloc: Global) -> Result<TombstoneArena<Tagged>, AllocError> {
    let mut arena = TombstoneArena::new(alloc);
    arena.alloc(make_tagged(7, 0))?;
    arena.alloc(make_tagged(7, 1))?;
    arena.alloc(make_tagged(7, 2))?;
    Ok(arena)
}

fn delete_if_live(arena: &mut TombstoneArena<Tagged>, at: usize) -> Result<bool, AllocError> {
    if !arena.contains(Id::from_index(at)) {
        return Ok(false);
    }
    arena.delete(Id::from_index(at))?;
    Ok(true)
}

fn note_of(arena: &TombstoneArena<Tagged>, at: usize) -> Option<u32> {
    Some(arena.get(Id::from_index(at))?.note)
}

#[test]
fn a_deleted_id_is_not_given_out_again(rt: HostRuntime) {
    let mut arena = TombstoneArena::new(rt.alloc());
    assert_equal(
        &rt,
        arena.alloc(make_tagged(1, 1)).expect(&rt, "memory").index(),
        0,
    );
    assert!(rt; delete_if_live(&mut arena, 0).expect(&rt, "memory"));
    assert!(rt; !arena.contains(Id::from_index(0)));
    assert!(rt; note_of(&arena, 0).is_none());
    assert_equal(&rt, arena.len(), 0);
    assert_equal(
        &rt,
        arena.alloc(make_tagged(2, 2)).expect(&rt, "memory").index(),
        1,
    );
}

#[test]
fn items_are_read_by_id(rt: HostRuntime) {
    let arena = three_items(rt.alloc()).expect(&rt, "memory");
    assert_equal(&rt, arena.len(), 3);
    assert!(rt; !arena.is_empty());
    assert_equal(&rt, arena.next_id().index(), 3);
    assert_equal(&rt, note_of(&arena, 2), Some(2));
    assert!(rt; arena.contains(Id::from_index(1)));
    assert_equal(&rt, arena[Id::from_index(1)].note, 1);
}

#[test]
fn items_are_written_by_id(rt: HostRuntime) {
    let mut arena = three_items(rt.alloc()).expect(&rt, "memory");
    match arena.get_mut(Id::from_index(0)) {
        Some(item) => item.note = 10,
        None => assert!(rt; false),
    }
    assert_equal(&rt, note_of(&arena, 0), Some(10));
    assert!(rt; arena.contains(Id::from_index(1)));
    arena[Id::from_index(1)].note = 11;
    assert_equal(&rt, note_of(&arena, 1), Some(11));
    assert!(rt; arena.get_mut(Id::from_index(3)).is_none());
}

#[test]
fn an_item_may_hold_its_id(rt: HostRuntime) {
    let mut arena = three_items(rt.alloc()).expect(&rt, "memory");
    let id = arena
        .alloc_with_id(|id: Id<Tagged>| make_tagged(if id.index() == 3 { 3 } else { 0 }, 0))
        .expect(&rt, "memory");
    assert_equal(&rt, id.index(), 3);
    assert_equal(&rt, arena.get(id).map(|item| item.key), Some(3));
}

#[test]
fn many_items_at_once(rt: HostRuntime) {
    let mut arena = three_items(rt.alloc()).expect(&rt, "memory");
    let values = vec![in rt.alloc(); make_tagged(8, 3), make_tagged(9, 4)].expect(&rt, "memory");
    let ids = arena.alloc_all(values).expect(&rt, "memory");
    assert_equal(&rt, ids.len(), 2);
    assert_equal(&rt, ids[1].index(), 4);
    assert_equal(&rt, note_of(&arena, 4), Some(4));
}

// The sum of the live notes, each times ten for each item before it.
fn notes_in_order(arena: &TombstoneArena<Tagged>) -> u64 {
    let mut all = 0u64;
    for (_, item) in arena.iter() {
        all = all.wrapping_mul(10).wrapping_add(item.note as u64);
    }
    all
}

#[test]
fn iter_goes_over_the_live_items(rt: HostRuntime) {
    let mut arena = three_items(rt.alloc()).expect(&rt, "memory");
    assert_equal(&rt, notes_in_order(&arena), 12);
    assert!(rt; delete_if_live(&mut arena, 1).expect(&rt, "memory"));
    assert_equal(&rt, notes_in_order(&arena), 2);
    let live = arena.live_ids().expect(&rt, "memory");
    assert_equal(&rt, live.len(), 2);
    assert_equal(&rt, live[1].index(), 2);
}

// An arena whose allocator is another handle than `Global`.
#[test]
fn an_arena_by_a_lent_allocator(rt: HostRuntime) {
    let alloc = rt.alloc();
    let mut arena = TombstoneArena::new(&alloc);
    assert_equal(
        &rt,
        arena.alloc(make_tagged(1, 1)).expect(&rt, "memory").index(),
        0,
    );
    assert_equal(&rt, arena.live_ids().expect(&rt, "memory").len(), 1);
}

#[test]
fn a_clone_has_the_same_items_and_the_same_next_id(rt: HostRuntime) {
    let mut arena = three_items(rt.alloc()).expect(&rt, "memory");
    assert!(rt; delete_if_live(&mut arena, 1).expect(&rt, "memory"));
    let mut copy = arena.clone().expect(&rt, "memory");
    assert_equal(&rt, notes_in_order(&copy), 2);
    assert!(rt; note_of(&copy, 1).is_none());
    assert_equal(&rt, copy.len(), 2);
    let next = copy.alloc(make_tagged(7, 3)).expect(&rt, "memory");
    assert_equal(&rt, next.index(), 3);
    assert_equal(&rt, arena.len(), 2);
}
