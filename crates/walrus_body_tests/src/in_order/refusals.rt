//! Walks that collect names, under refused memory.
ghost use Rattle.walrus_body.specs.Nesting.{IsNested};

use crate::bodies::{body_again, check_again};
use crate::lists::begin;
use std::alloc::{AllocError, Global};
use std::process::Abort;
use walrus_arena::Id;
use walrus_body::{BuildError, LocalFunction, Nesting, UsedIds, WalkError, dfs_in_order, used_ids};

// The types of the sequences in the order of the walk, and of all but the first their ids, as
// blocks name them.
const IN_ORDER: [usize; 7] = [0, 1, 3, 4, 2, 3, 4];

// Sequence 0 has blocks of 1 and 2, both have a block of 3, and that of 4.
fn shared(alloc: Global) -> Result<LocalFunction, BuildError> {
    body_again(alloc, "block 1, block 2; block 3; block 3; block 4;")
}

// Whether these are collected by the first hook calls of the walk: a block's sequence comes just
// before the type of that sequence.
fn are_cut(ids: &UsedIds) -> bool {
    let (types, seqs) = (ids.types.as_slice(), ids.instr_seqs.as_slice());
    begin(types, &IN_ORDER)
        && begin(seqs, &IN_ORDER[1..])
        && (seqs.len() == types.len() || seqs.len() + 1 == types.len())
        && ids.functions.is_empty()
}

// Whether these are all that the walk collects.
fn are_all(ids: &UsedIds) -> bool {
    are_cut(ids) && ids.types.len() == 7 && ids.instr_seqs.len() == 6
}

// Collects by a walk. After a refusal the visitor must be as after some first hook calls, and
// another visitor walks again.
fn collect_again(
    rt: &impl Abort,
    alloc: Global,
    func: &LocalFunction,
) -> Result<UsedIds, WalkError<AllocError>>
    requires { IsNested func.now.body 0 }
{
    let mut ids = UsedIds::new(alloc);
    let answer = dfs_in_order(alloc, &mut ids, func, Id::from_index(0));
    if answer.is_ok() {
        return Ok(ids);
    }
    assert!(rt; are_cut(&ids));
    let mut ids = UsedIds::new(alloc);
    dfs_in_order(alloc, &mut ids, func, Id::from_index(0))?;
    Ok(ids)
}

#[test]
fn a_refused_walk_leaves_what_came_before(rt: HostRuntime) {
    let func = shared(rt.alloc()).expect(&rt, "memory");
    match check_again(rt.alloc(), &func).expect(&rt, "memory") {
        Nesting::Nested(_) => {
            let ids = collect_again(&rt, rt.alloc(), &func).expect(&rt, "memory");
            assert!(rt; are_all(&ids));
        }
        _ => panic!(rt; "not nested"),
    }
}

// The ids that the body names. They are asked for again after a refusal.
fn used_again(alloc: Global, func: &LocalFunction) -> Result<Option<UsedIds>, AllocError> {
    match used_ids(alloc, func, Id::from_index(0)) {
        Ok(ids) => Ok(ids),
        Err(_) => used_ids(alloc, func, Id::from_index(0)),
    }
}

#[test]
fn a_refused_list_of_names_comes_when_it_is_asked_for_again(rt: HostRuntime) {
    match used_again(rt.alloc(), &shared(rt.alloc()).expect(&rt, "memory")).expect(&rt, "memory") {
        Some(ids) => assert!(rt; are_all(&ids)),
        None => panic!(rt; "not nested"),
    }
    let unknown = "block 1, block 2; block 2; block 3";
    let func = body_again(rt.alloc(), unknown).expect(&rt, "memory");
    assert!(rt;
        used_again(rt.alloc(), &func)
            .expect(&rt, "memory")
            .is_none()
    );
}

// The ids of a body that is nested. They are asked for again after a refusal.
fn ids_again(alloc: Global, func: &LocalFunction) -> Result<UsedIds, AllocError>
    requires { IsNested func.now.body 0 }
{
    match UsedIds::of(alloc, func, Id::from_index(0)) {
        Ok(ids) => Ok(ids),
        Err(_) => UsedIds::of(alloc, func, Id::from_index(0)),
    }
}

#[test]
fn a_refused_collection_comes_when_it_is_asked_for_again(rt: HostRuntime) {
    let func = shared(rt.alloc()).expect(&rt, "memory");
    match check_again(rt.alloc(), &func).expect(&rt, "memory") {
        Nesting::Nested(_) => {
            let ids = ids_again(rt.alloc(), &func).expect(&rt, "memory");
            assert!(rt; are_all(&ids));
        }
        _ => panic!(rt; "not nested"),
    }
}
