//! Refused growth: a refused call leaves the set as it was, and goes through when it is made again.
//! `scripts/check/refuse` refuses each request for memory in turn, and for deletions all requests
//! from one on.
ghost use Rattle.std.specs.Prelude.{◌≡◌};

use super::*;
use crate::assertions::assert_equal;
use std::cell::Cell;
use std::rc::Rc;

// A value whose clone is refused once after each order to refuse.
#[derive(Drop)]
#[derive_where(PartialEq, Eq, Hash)]
struct Costly {
    key: u32,
    #[derive_where(skip)]
    refuse: Rc<Cell<bool>>,
}

impl Clone for Costly {
    ghost is_clone = { λ source copy. copy.key ≡ source.key };

    fn clone(&self) -> Result<Costly, AllocError> {
        if self.refuse.replace(false) {
            return Err(AllocError);
        }
        Ok(Costly {
            key: self.key,
            refuse: self.refuse.clone()?,
        })
    }
}

fn make_costly(key: u32, refuse: &Rc<Cell<bool>>) -> Result<Costly, AllocError> {
    Ok(Costly {
        key,
        refuse: refuse.clone()?,
    })
}

// Whether the set finds this key.
fn has(set: &ArenaSet<Costly>, key: u32, refuse: &Rc<Cell<bool>>) -> Result<bool, AllocError> {
    Ok(set.find(&make_costly(key, refuse)?).is_some())
}

#[test]
fn an_insert_with_a_refused_clone(rt: HostRuntime) {
    let mut set = ArenaSet::new(rt.alloc());
    let refuse = Rc::new(rt.alloc(), Cell::new(true)).expect(&rt, "memory");
    assert!(rt;
        set.insert(make_costly(1, &refuse).expect(&rt, "memory"))
            .is_err()
    );
    assert_equal(&rt, set.next_id().index(), 0);
    assert!(rt; !has(&set, 1, &refuse).expect(&rt, "memory"));
    assert_equal(
        &rt,
        set.insert(make_costly(1, &refuse).expect(&rt, "memory"))
            .expect(&rt, "memory")
            .index(),
        0,
    );
}

#[test]
fn a_replacement_with_a_refused_clone(rt: HostRuntime) {
    let mut set = ArenaSet::new(rt.alloc());
    let refuse = Rc::new(rt.alloc(), Cell::new(false)).expect(&rt, "memory");
    set.insert(make_costly(1, &refuse).expect(&rt, "memory"))
        .expect(&rt, "memory");
    assert!(rt; set.contains(Id::from_index(0)));
    refuse.set(true);
    let value = make_costly(2, &refuse).expect(&rt, "memory");
    assert!(rt; set.replace_and_register(Id::from_index(0), value).is_err());
    assert!(rt; has(&set, 1, &refuse).expect(&rt, "memory"));
    assert!(rt; !has(&set, 2, &refuse).expect(&rt, "memory"));
}

// What a set shows: its next id, the notes of the items that are live, and which id each key is
// found by.
type ShownSet = (usize, [Option<u32>; 20], [Option<usize>; 20]);

// Places of items, and keys.
const FIRST: [u32; 20] = [
    0, 1, 2, 3, 4, 5, 6, 7, 8, 9, 10, 11, 12, 13, 14, 15, 16, 17, 18, 19,
];

fn note_in_set(set: &ArenaSet<Tagged>, at: usize) -> Option<u32> {
    if set.contains(Id::from_index(at)) {
        Some(set[Id::from_index(at)].note)
    } else {
        None
    }
}

fn shown_of_set(set: &ArenaSet<Tagged>) -> ShownSet {
    let notes = FIRST.map(|at| note_in_set(set, at as usize));
    let found = FIRST.map(|key| index_of(set, key));
    (set.next_id().index(), notes, found)
}

// Calls that take memory to add a value to a set, or to write one in it.
#[derive(Clone, Copy)]
enum SetCall {
    Insert,
    AllocAndRegister,
    AllocUnique,
    AllocDead,
    AllocAll,
    ReplaceAndRegister,
}

// Two values of this key. The room is asked for again after a refusal.
fn two_values(alloc: Global, key: u32) -> Result<Vec<Tagged>, AllocError> {
    let mut values = Vec::new(alloc);
    if values.reserve(2).is_err() {
        values.reserve(2)?;
    }
    values.push(make_tagged(key, 1))?;
    values.push(make_tagged(key, 2))?;
    Ok(values)
}

// Makes the call for a value of this key, and returns the id of the value, or of the last one.
fn call_set(
    rt: &impl Abort,
    alloc: Global,
    set: &mut ArenaSet<Tagged>,
    call: SetCall,
    key: u32,
) -> Result<usize, AllocError> {
    let value = make_tagged(key, 3);
    match call {
        SetCall::Insert => Ok(set.insert(value)?.index()),
        SetCall::AllocAndRegister => Ok(set.alloc_and_register(value)?.index()),
        SetCall::AllocUnique => Ok(set.alloc_unique(value)?.index()),
        SetCall::AllocDead => Ok(set.alloc_dead(value)?.index()),
        SetCall::AllocAll => {
            let ids = set.alloc_all(two_values(alloc, key)?)?;
            assert_equal(rt, ids.len(), 2);
            Ok(ids[1].index())
        }
        SetCall::ReplaceAndRegister => {
            assert!(rt; set.contains(Id::from_index(1)));
            set.replace_and_register(Id::from_index(1), value)?;
            Ok(1)
        }
    }
}

// Makes the call. After a refusal the set must show what it showed, and the call is made again.
fn call_set_again(
    rt: &impl Abort,
    alloc: Global,
    set: &mut ArenaSet<Tagged>,
    call: SetCall,
    key: u32,
) -> Result<usize, AllocError> {
    let before = shown_of_set(set);
    if let Ok(at) = call_set(rt, alloc, set, call, key) {
        return Ok(at);
    }
    assert!(rt; shown_of_set(set) == before);
    call_set(rt, alloc, set, call, key)
}

// A set of one value that is found, one that is not, and one that is dead.
fn three_values(alloc: Global) -> Result<ArenaSet<Tagged>, AllocError> {
    let mut set = ArenaSet::new(alloc);
    set.insert(make_tagged(0, 0))?;
    set.alloc_unique(make_tagged(1, 0))?;
    set.alloc_dead(make_tagged(2, 0))?;
    Ok(set)
}

// It is made again after a refusal.
fn three_values_again(alloc: Global) -> Result<ArenaSet<Tagged>, AllocError> {
    match three_values(alloc) {
        Ok(set) => Ok(set),
        Err(_) => three_values(alloc),
    }
}

// Makes the call for the keys 3 to 10. It has to return these ids, which have this note then, and
// each key has to be found by its id or not at all.
fn makes_eight(
    rt: &impl Abort,
    alloc: Global,
    call: SetCall,
    answers: [usize; 8],
    note: Option<u32>,
    is_found: bool,
) {
    let mut set = three_values_again(alloc).expect(rt, "memory");
    for round in 0..8u32 {
        let key = round + 3;
        let wanted = answers[round as usize];
        let at = call_set_again(rt, alloc, &mut set, call, key).expect(rt, "memory");
        assert_equal(rt, at, wanted);
        assert_equal(rt, note_in_set(&set, at), note);
        assert_equal(
            rt,
            index_of(&set, key),
            if is_found { Some(at) } else { None },
        );
    }
    assert_equal(rt, index_of(&set, 0), Some(0));
}

#[test]
fn a_refused_call_of_a_set_changes_nothing(rt: HostRuntime) {
    let next = [3, 4, 5, 6, 7, 8, 9, 10];
    let second = [4, 6, 8, 10, 12, 14, 16, 18];
    let alloc = rt.alloc();
    makes_eight(&rt, alloc, SetCall::Insert, next, Some(3), true);
    makes_eight(&rt, alloc, SetCall::AllocAndRegister, next, Some(3), true);
    makes_eight(&rt, alloc, SetCall::AllocUnique, next, Some(3), false);
    makes_eight(&rt, alloc, SetCall::AllocDead, next, None, false);
    makes_eight(&rt, alloc, SetCall::AllocAll, second, Some(2), false);
    makes_eight(
        &rt,
        alloc,
        SetCall::ReplaceAndRegister,
        [1; 8],
        Some(3),
        true,
    );
}

// What an arena shows: how many items are live, its next id, and the notes of these items.
type ShownArena = (usize, usize, [Option<u32>; 20]);

fn shown_of_arena(arena: &TombstoneArena<Tagged>) -> ShownArena {
    let notes = FIRST.map(|at| Some(arena.get(Id::from_index(at as usize))?.note));
    (arena.len(), arena.next_id().index(), notes)
}

// Calls that add to an arena.
#[derive(Clone, Copy)]
enum ArenaCall {
    Alloc,
    AllocWithId,
    AllocAll,
}

fn count_run(ran: &Cell<u32>) -> Tagged {
    ran.set(ran.get().wrapping_add(1));
    make_tagged(0, 2)
}

// Makes the call, and returns the id of the item, or of the last one. It counts the runs of what
// makes an item of its id.
fn call_arena(
    rt: &impl Abort,
    alloc: Global,
    arena: &mut TombstoneArena<Tagged>,
    call: ArenaCall,
    ran: &Cell<u32>,
) -> Result<usize, AllocError> {
    match call {
        ArenaCall::Alloc => Ok(arena.alloc(make_tagged(0, 2))?.index()),
        ArenaCall::AllocWithId => Ok(arena.alloc_with_id(|_| count_run(ran))?.index()),
        ArenaCall::AllocAll => {
            let ids = arena.alloc_all(two_values(alloc, 0)?)?;
            assert_equal(rt, ids.len(), 2);
            Ok(ids[1].index())
        }
    }
}

// Makes the call. After a refusal the arena must show what it showed, no item was made of its id,
// and the call is made again.
fn call_arena_again(
    rt: &impl Abort,
    alloc: Global,
    arena: &mut TombstoneArena<Tagged>,
    call: ArenaCall,
    ran: &Cell<u32>,
) -> Result<usize, AllocError> {
    let (before, runs) = (shown_of_arena(arena), ran.get());
    if let Ok(at) = call_arena(rt, alloc, arena, call, ran) {
        return Ok(at);
    }
    assert!(rt; shown_of_arena(arena) == before);
    assert_equal(rt, ran.get(), runs);
    call_arena(rt, alloc, arena, call, ran)
}

// Makes the call eight times. It has to return these ids, and to make this many items of their ids.
fn adds_eight(
    rt: &impl Abort,
    alloc: Global,
    call: ArenaCall,
    answers: [usize; 8],
    runs: u32,
) -> Result<TombstoneArena<Tagged>, AllocError> {
    let mut arena = TombstoneArena::new(alloc);
    let ran = Cell::new(0u32);
    for answer in answers {
        assert_equal(
            rt,
            call_arena_again(rt, alloc, &mut arena, call, &ran)?,
            answer,
        );
        assert_equal(rt, arena.next_id().index(), arena.len());
        assert_equal(rt, shown_of_arena(&arena).2[answer % 20], Some(2));
    }
    assert_equal(rt, ran.get(), runs);
    Ok(arena)
}

#[test]
fn a_refused_call_of_an_arena_adds_nothing(rt: HostRuntime) {
    let next = [0, 1, 2, 3, 4, 5, 6, 7];
    let second = [1, 3, 5, 7, 9, 11, 13, 15];
    adds_eight(&rt, rt.alloc(), ArenaCall::Alloc, next, 0).expect(&rt, "memory");
    adds_eight(&rt, rt.alloc(), ArenaCall::AllocWithId, next, 8).expect(&rt, "memory");
    adds_eight(&rt, rt.alloc(), ArenaCall::AllocAll, second, 0).expect(&rt, "memory");
}

#[test]
fn refused_live_ids_are_listed_when_asked_again(rt: HostRuntime) {
    let next = [0, 1, 2, 3, 4, 5, 6, 7];
    let arena = adds_eight(&rt, rt.alloc(), ArenaCall::Alloc, next, 0).expect(&rt, "memory");
    let before = shown_of_arena(&arena);
    let ids = match arena.live_ids() {
        Ok(ids) => ids,
        Err(_) => arena.live_ids().expect(&rt, "memory"),
    };
    assert_equal(&rt, ids.len(), 8);
    assert!(rt; ids.iter().zip(next).all(|(id, at)| id.index() == at));
    assert!(rt; shown_of_arena(&arena) == before);
}

// An arena of the notes 0 to 3, and a set of the keys 0 to 3, each found by its id.
fn four_each(alloc: Global) -> Result<(TombstoneArena<Tagged>, ArenaSet<Tagged>), AllocError> {
    let mut arena = TombstoneArena::new(alloc);
    let mut set = ArenaSet::new(alloc);
    for key in 0..4u32 {
        arena.alloc(make_tagged(key, key))?;
        set.insert(make_tagged(key, key))?;
    }
    Ok((arena, set))
}

#[tactic(auto, using(walrus_arena::proofs::ArenaLemmas::distinct_pair))]
fn delete_three(rt: &impl Abort, arena: &mut TombstoneArena<Tagged>) -> Result<(), AllocError> {
    let ids: [Id<Tagged>; 2] = [Id::from_index(3), Id::from_index(2)];
    assert!(rt; arena.contains(Id::from_index(0)));
    arena.delete(Id::from_index(0))?;
    assert!(rt; arena.contains(ids[0]));
    assert!(rt; arena.contains(ids[1]));
    arena.delete_all(ids.as_slice())
}

#[tactic(auto, using(walrus_arena::proofs::ArenaLemmas::distinct_pair))]
fn remove_three(rt: &impl Abort, set: &mut ArenaSet<Tagged>) -> Result<(), AllocError> {
    let ids: [Id<Tagged>; 2] = [Id::from_index(3), Id::from_index(2)];
    assert!(rt; set.contains(Id::from_index(0)));
    set.remove(Id::from_index(0))?;
    assert!(rt; set.contains(ids[0]));
    assert!(rt; set.contains(ids[1]));
    set.remove_all(ids.as_slice())
}

// Every request may be refused once arena and set are there.
#[test]
fn deletions_take_no_memory(rt: HostRuntime) {
    let (mut arena, mut set) = match four_each(rt.alloc()) {
        Ok(both) => both,
        Err(_) => return,
    };
    assert_equal(&rt, delete_three(&rt, &mut arena), Ok(()));
    assert_equal(&rt, arena.len(), 1);
    assert_equal(
        &rt,
        arena.get(Id::from_index(1)).map(|item| item.note),
        Some(1),
    );
    assert_equal(&rt, arena.next_id().index(), 4);
    assert_equal(&rt, remove_three(&rt, &mut set), Ok(()));
    assert_equal(&rt, index_of(&set, 0), None);
    assert_equal(&rt, index_of(&set, 1), Some(1));
    assert_equal(&rt, index_of(&set, 2), None);
    assert_equal(&rt, index_of(&set, 3), None);
    assert_equal(&rt, set.next_id().index(), 4);
}

// An arena of two items.
fn two_items(alloc: Global) -> Result<TombstoneArena<Tagged>, AllocError> {
    let mut arena = TombstoneArena::new(alloc);
    arena.alloc(make_tagged(1, 1))?;
    arena.alloc(make_tagged(2, 2))?;
    Ok(arena)
}

#[test]
fn a_refused_clone_is_made_again(rt: HostRuntime) {
    let arena = match two_items(rt.alloc()) {
        Ok(arena) => arena,
        Err(_) => two_items(rt.alloc()).expect(&rt, "memory"),
    };
    let copy = match arena.clone() {
        Ok(copy) => copy,
        Err(_) => arena.clone().expect(&rt, "memory"),
    };
    assert_equal(&rt, copy.len(), 2);
    assert_equal(
        &rt,
        copy.get(Id::from_index(1)).map(|item| item.note),
        Some(2),
    );
    assert_equal(&rt, arena.len(), 2);
}

#[test]
fn a_refused_clone_of_a_set_is_made_again(rt: HostRuntime) {
    let set = three_values_again(rt.alloc()).expect(&rt, "memory");
    let shown = shown_of_set(&set);
    let copy = match set.clone() {
        Ok(copy) => copy,
        Err(_) => set.clone().expect(&rt, "memory"),
    };
    assert!(rt; shown_of_set(&copy) == shown);
    assert!(rt; shown_of_set(&set) == shown);
}
