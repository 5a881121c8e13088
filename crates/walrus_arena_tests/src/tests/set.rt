//! A set of values that are equal by a part of them.
use super::*;
use crate::assertions::assert_equal;

// Writes the key of an item in place.
fn write_key(rt: &impl Abort, set: &mut ArenaSet<Tagged>, at: usize, key: u32) {
    assert!(rt; set.contains(Id::from_index(at)));
    set[Id::from_index(at)].key = key;
}

fn remove(rt: &impl Abort, set: &mut ArenaSet<Tagged>, at: usize) -> Result<(), AllocError> {
    assert!(rt; set.contains(Id::from_index(at)));
    set.remove(Id::from_index(at))
}

fn note_of(rt: &impl Abort, set: &ArenaSet<Tagged>, at: usize) -> u32 {
    assert!(rt; set.contains(Id::from_index(at)));
    set[Id::from_index(at)].note
}

// A set of two items with key 1, of which the first is mapped.
fn two_equal(alloc: Global) -> Result<ArenaSet<Tagged>, AllocError> {
    let mut set = ArenaSet::new(alloc);
    set.insert(make_tagged(1, 10))?;
    set.alloc_unique(make_tagged(1, 30))?;
    Ok(set)
}

// The same, where the key of the first item was changed to 2, and then 2 and 1 were inserted.
fn changed(rt: &impl Abort, alloc: Global) -> Result<ArenaSet<Tagged>, AllocError> {
    let mut set = two_equal(alloc)?;
    write_key(rt, &mut set, 0, 2);
    set.insert(make_tagged(2, 0))?;
    set.insert(make_tagged(1, 0))?;
    Ok(set)
}

#[test]
fn an_equal_value_is_found(rt: HostRuntime) {
    let mut set = ArenaSet::new(rt.alloc());
    assert_equal(
        &rt,
        set.insert(make_tagged(1, 10)).expect(&rt, "memory").index(),
        0,
    );
    assert_equal(
        &rt,
        set.insert(make_tagged(1, 20)).expect(&rt, "memory").index(),
        0,
    );
    assert_equal(&rt, note_of(&rt, &set, 0), 10);
    assert_equal(
        &rt,
        set.alloc_unique(make_tagged(1, 30))
            .expect(&rt, "memory")
            .index(),
        1,
    );
    assert_equal(&rt, index_of(&set, 1), Some(0));
}

#[test]
fn a_changed_value_is_not_found(rt: HostRuntime) {
    let mut set = two_equal(rt.alloc()).expect(&rt, "memory");
    write_key(&rt, &mut set, 0, 2);
    assert_equal(&rt, index_of(&set, 1), None);
    assert_equal(&rt, index_of(&set, 2), None);
    assert_equal(
        &rt,
        set.insert(make_tagged(2, 0)).expect(&rt, "memory").index(),
        2,
    );
    assert_equal(
        &rt,
        set.insert(make_tagged(1, 0)).expect(&rt, "memory").index(),
        3,
    );
}

#[test]
fn a_removal_leaves_the_entry_of_another(rt: HostRuntime) {
    let mut set = changed(&rt, rt.alloc()).expect(&rt, "memory");
    remove(&rt, &mut set, 0).expect(&rt, "memory");
    assert_equal(&rt, index_of(&set, 2), Some(2));
}

#[test]
fn a_replaced_value_takes_the_entry(rt: HostRuntime) {
    let mut set = changed(&rt, rt.alloc()).expect(&rt, "memory");
    remove(&rt, &mut set, 0).expect(&rt, "memory");
    assert!(rt; set.contains(Id::from_index(1)));
    set.replace_and_register(Id::from_index(1), make_tagged(2, 5))
        .expect(&rt, "memory");
    assert_equal(&rt, index_of(&set, 2), Some(1));
    remove(&rt, &mut set, 1).expect(&rt, "memory");
    assert_equal(&rt, index_of(&set, 2), None);
    assert!(rt; set.contains(Id::from_index(2)));
}

#[test]
fn a_slot_can_be_dead_from_the_start(rt: HostRuntime) {
    let mut set = two_equal(rt.alloc()).expect(&rt, "memory");
    assert_equal(
        &rt,
        set.alloc_dead(make_tagged(2, 0))
            .expect(&rt, "memory")
            .index(),
        2,
    );
    assert!(rt; !set.contains(Id::from_index(2)));
    assert_equal(&rt, index_of(&set, 2), None);
    assert_equal(&rt, index_of(&set, 1), Some(0));
    assert_equal(
        &rt,
        set.insert(make_tagged(2, 0)).expect(&rt, "memory").index(),
        3,
    );
}

#[test]
#[tactic(auto, using(walrus_arena::proofs::ArenaLemmas::distinct_pair))]
fn many_are_removed_at_once(rt: HostRuntime) -> Result<(), Fail> {
    let mut set = two_equal(rt.alloc())?;
    let ids: [Id<Tagged>; 2] = [Id::from_index(1), Id::from_index(0)];
    assert!(rt; set.contains(ids[0]));
    assert!(rt; set.contains(ids[1]));
    set.remove_all(ids.as_slice())?;
    assert_equal(&rt, index_of(&set, 1), None);
    assert!(rt; set.iter().next().is_none());
    Ok(())
}

#[test]
fn a_clone_finds_what_its_source_finds(rt: HostRuntime) {
    let mut set = changed(&rt, rt.alloc()).expect(&rt, "memory");
    remove(&rt, &mut set, 0).expect(&rt, "memory");
    let mut copy = set.clone().expect(&rt, "memory");
    assert_equal(&rt, index_of(&copy, 1), Some(3));
    assert_equal(&rt, index_of(&copy, 2), Some(2));
    assert!(rt; !copy.contains(Id::from_index(0)));
    assert_equal(&rt, note_of(&rt, &copy, 1), 30);
    remove(&rt, &mut copy, 2).expect(&rt, "memory");
    assert_equal(
        &rt,
        copy.insert(make_tagged(5, 0)).expect(&rt, "memory").index(),
        4,
    );
    assert_equal(&rt, index_of(&copy, 2), None);
    assert_equal(&rt, index_of(&set, 2), Some(2));
    assert_equal(&rt, index_of(&set, 5), None);
    assert_equal(&rt, set.next_id().index(), 4);
}
