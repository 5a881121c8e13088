//! Calls that give the next index, where memory is refused.
ghost use Rattle.std.specs.Prelude.{◌≡◌, ◌<◌, ◌^◌, None};
ghost use Rattle.walrus_ty.specs.Indices.{type_indices, func_indices, global_indices};

use crate::assertions::assert_equal;
use std::process::Abort;
use walrus_ty::{FunctionId, GlobalId, IdsToIndices, IndicesToIds, TypeId};

// Gives this id the next index of its kind. The call is made again after a refusal.
fn push_type(rt: &impl Abort, ids: &mut IndicesToIds, index: usize) {
    let id = TypeId::from_index(index);
    if ids.push_type(id).is_err() {
        ids.push_type(id).expect(rt, "memory");
    }
}

fn push_types(rt: &impl Abort, ids: &mut IndicesToIds) {
    if ids.push_types(7, 5).is_err() {
        ids.push_types(7, 5).expect(rt, "memory");
    }
}

fn push_func(rt: &impl Abort, ids: &mut IndicesToIds, index: usize) {
    let id = FunctionId::from_index(index);
    if ids.push_func(id).is_err() {
        ids.push_func(id).expect(rt, "memory");
    }
}

fn push_global(rt: &impl Abort, ids: &mut IndicesToIds, index: usize) {
    let id = GlobalId::from_index(index);
    if ids.push_global(id).is_err() {
        ids.push_global(id).expect(rt, "memory");
    }
}

#[test]
fn a_refused_index_stands_for_its_id_when_it_is_given_again(rt: HostRuntime) {
    let mut ids = IndicesToIds::new(rt.alloc());
    push_type(&rt, &mut ids, 5);
    push_types(&rt, &mut ids);
    push_func(&rt, &mut ids, 3);
    push_global(&rt, &mut ids, 4);
    assert_equal(&rt, ids.get_type(0), Ok(TypeId::from_index(5)));
    assert_equal(&rt, ids.get_type(2), Ok(TypeId::from_index(8)));
    assert_equal(&rt, ids.get_func(0), Ok(FunctionId::from_index(3)));
    assert_equal(&rt, ids.get_global(0), Ok(GlobalId::from_index(4)));
}

// Gives the first index to this type. The call is made again after a refusal.
fn give_type(rt: &impl Abort, indices: &mut IdsToIndices, id: TypeId)
    requires fresh { (type_indices indices.old).index id ≡ None }
    requires room { (type_indices indices.old).count < 2 ^ 32 }
{
    if indices.push_type(id).is_err() {
        indices.push_type(id).expect(rt, "memory");
    }
}

// The same of a function.
fn give_func(rt: &impl Abort, indices: &mut IdsToIndices, id: FunctionId)
    requires fresh { (func_indices indices.old).index id ≡ None }
    requires room { (func_indices indices.old).count < 2 ^ 32 }
{
    if indices.push_func(id).is_err() {
        indices.push_func(id).expect(rt, "memory");
    }
}

// The same of a global.
fn give_global(rt: &impl Abort, indices: &mut IdsToIndices, id: GlobalId)
    requires fresh { (global_indices indices.old).index id ≡ None }
    requires room { (global_indices indices.old).count < 2 ^ 32 }
{
    if indices.push_global(id).is_err() {
        indices.push_global(id).expect(rt, "memory");
    }
}

#[test]
fn a_refused_index_is_given_when_it_is_asked_for_again(rt: HostRuntime) {
    let mut indices = IdsToIndices::new(rt.alloc());
    give_type(&rt, &mut indices, TypeId::from_index(5));
    assert_equal(&rt, indices.get_type_index(TypeId::from_index(5)), Ok(0));
    let mut indices = IdsToIndices::new(rt.alloc());
    give_func(&rt, &mut indices, FunctionId::from_index(5));
    assert_equal(
        &rt,
        indices.get_func_index(FunctionId::from_index(5)),
        Ok(0),
    );
    let mut indices = IdsToIndices::new(rt.alloc());
    give_global(&rt, &mut indices, GlobalId::from_index(5));
    assert_equal(
        &rt,
        indices.get_global_index(GlobalId::from_index(5)),
        Ok(0),
    );
}

#[test]
#[tactic(auto, using(walrus_arena::proofs::ArenaLemmas::distinct_pair))]
fn a_refused_row_of_types_is_given_when_it_is_asked_for_again(rt: HostRuntime) {
    let mut indices = IdsToIndices::new(rt.alloc());
    let ids: [TypeId; 2] = [TypeId::from_index(5), TypeId::from_index(4)];
    if indices.push_all_types(ids.as_slice()).is_err() {
        indices.push_all_types(ids.as_slice()).expect(&rt, "memory");
    }
    assert_equal(&rt, indices.get_type_index(TypeId::from_index(4)), Ok(1));
}
