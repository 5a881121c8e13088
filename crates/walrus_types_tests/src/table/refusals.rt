//! Calls that add types alone, the list of live ids, and deletions, where memory is refused.
use super::cloning::{finds_the_first, with_a_dead_type};
use super::*;
use crate::assertions::assert_equal;

// Calls that add a type alone.
#[derive(Clone, Copy)]
enum AddCall {
    Function,
    Struct,
    Array,
    Composite,
    Entry,
}

// Makes the call for a type that names the type with this id.
fn add(
    alloc: Global,
    types: &mut ModuleTypes,
    call: AddCall,
    named: usize,
) -> Result<TypeId, AllocError> {
    let val = reference(named);
    match call {
        AddCall::Function => types.add(&[val], &[Val::I64]),
        AddCall::Struct => types.add_struct(vec![in alloc; field(val)]?),
        AddCall::Array => types.add_array(field(val)),
        AddCall::Composite => {
            let function = FunctionType::new(vec![in alloc; val]?, Vec::new(alloc));
            types.add_composite(
                CompositeType::Function(function),
                false,
                Some(TypeId::from_index(7)),
            )
        }
        AddCall::Entry => types.add_entry_ty(&[val]),
    }
}

// Whether the composite is the one that the call adds.
fn is_kind_of(kind: &CompositeType, call: AddCall, named: usize) -> bool {
    let val = reference(named);
    match (call, kind) {
        (AddCall::Function, CompositeType::Function(f)) => {
            f.params() == [val].as_slice() && f.results() == [Val::I64].as_slice()
        }
        (AddCall::Composite, CompositeType::Function(f)) => {
            f.params() == [val].as_slice() && f.results().is_empty()
        }
        (AddCall::Entry, CompositeType::Function(f)) => {
            f.params().is_empty() && f.results() == [val].as_slice()
        }
        (AddCall::Struct, CompositeType::Struct(s)) => {
            s.fields.as_slice() == [field(val)].as_slice()
        }
        (AddCall::Array, CompositeType::Array(a)) => a.field == field(val),
        _ => false,
    }
}

// Whether the type is the one that the call adds.
fn is_added_by(ty: &Type, call: AddCall, named: usize) -> bool {
    let is_open = matches!(call, AddCall::Composite);
    is_kind_of(ty.kind(), call, named)
        && ty.id().index() == named
        && ty.is_final != is_open
        && ty.supertype.is_some() == is_open
        && ty.is_for_function_entry() == matches!(call, AddCall::Entry)
}

// What the table finds of functions and of function entries.
fn find(types: &ModuleTypes, call: AddCall, named: usize) -> Option<TypeId> {
    let val = reference(named);
    match call {
        AddCall::Function => types.find(&[val], &[Val::I64]),
        AddCall::Composite => types.find(&[val], &[]),
        AddCall::Entry => types.find_for_function_entry(&[val]),
        AddCall::Struct | AddCall::Array => None,
    }
}

// Whether the type with this id is the one that the call adds, alone in its group, and is found.
fn has_type(types: &ModuleTypes, call: AddCall, index: usize) -> bool {
    let id = TypeId::from_index(index);
    if !types.contains(id) {
        return false;
    }
    let is_alone = match types.rec_groups().get(index) {
        Some(group) => !group.is_explicit && group.types.as_slice() == [id].as_slice(),
        None => false,
    };
    let found = match call {
        AddCall::Struct | AddCall::Array => None,
        _ => Some(id),
    };
    is_alone && is_added_by(types.get(id), call, index) && find(types, call, index) == found
}

// Whether the table has this many types, the types of the calls, and no others.
fn has_types(types: &ModuleTypes, call: AddCall, count: usize) -> bool {
    for index in 0..count {
        if !has_type(types, call, index) {
            return false;
        }
    }
    !types.contains(TypeId::from_index(count))
        && find(types, call, count).is_none()
        && types.rec_groups().len() == count
}

// Makes the call. After a refusal the table must have what it had, and the call is made again.
fn add_again(
    rt: &impl Abort,
    alloc: Global,
    types: &mut ModuleTypes,
    call: AddCall,
    named: usize,
) -> Result<TypeId, AllocError> {
    let before = types.rec_groups().len();
    if let Ok(id) = add(alloc, types, call, named) {
        return Ok(id);
    }
    assert!(rt; has_types(types, call, before));
    add(alloc, types, call, named)
}

// Adds five types, and then the same five.
fn adds_five(rt: &impl Abort, alloc: Global, call: AddCall) {
    let mut types = ModuleTypes::new(alloc);
    for round in 0..10usize {
        let named = round % 5;
        let id = add_again(rt, alloc, &mut types, call, named).expect(rt, "memory");
        assert_equal(rt, id.index(), named);
        assert!(rt; has_types(&types, call, if round < 5 { round + 1 } else { 5 }));
    }
}

#[test]
fn a_refused_function_type_is_not_added(rt: HostRuntime) {
    adds_five(&rt, rt.alloc(), AddCall::Function);
}

#[test]
fn a_refused_struct_type_is_not_added(rt: HostRuntime) {
    adds_five(&rt, rt.alloc(), AddCall::Struct);
}

#[test]
fn a_refused_array_type_is_not_added(rt: HostRuntime) {
    adds_five(&rt, rt.alloc(), AddCall::Array);
}

#[test]
fn a_refused_composite_type_is_not_added(rt: HostRuntime) {
    adds_five(&rt, rt.alloc(), AddCall::Composite);
}

#[test]
fn a_refused_entry_type_is_not_added(rt: HostRuntime) {
    adds_five(&rt, rt.alloc(), AddCall::Entry);
}

#[test]
fn a_refused_list_of_ids_comes_when_it_is_asked_for_again(rt: HostRuntime) {
    let mut types = ModuleTypes::new(rt.alloc());
    for named in 0..6usize {
        add_again(&rt, rt.alloc(), &mut types, AddCall::Array, named).expect(&rt, "memory");
    }
    delete(&rt, &mut types, 2).expect(&rt, "memory");
    let ids = types.live_ids().or_else(|_| types.live_ids());
    assert!(rt; are(ids.expect(&rt, "memory").as_slice(), &[0, 1, 3, 4, 5]));
}

// Four lone types of function entries, and two groups of two that name each other.
fn eight_types(alloc: Global) -> Result<ModuleTypes, AddRecGroupError> {
    let mut types = ModuleTypes::new(alloc);
    for named in 0..4usize {
        types.add_entry_ty(&[reference(named)])?;
    }
    add_pair(alloc, &mut types, 2)?;
    add_pair(alloc, &mut types, 2)?;
    Ok(types)
}

// The ids of these types that are live.
fn live(types: &ModuleTypes) -> [bool; 8] {
    [0, 1, 2, 3, 4, 5, 6, 7].map(|index| types.contains(TypeId::from_index(index)))
}

// How many types the groups have.
fn group_sizes(types: &ModuleTypes) -> [Option<usize>; 7] {
    [0, 1, 2, 3, 4, 5, 6].map(|at| Some(types.rec_groups().get(at)?.types.len()))
}

fn delete(rt: &impl Abort, types: &mut ModuleTypes, index: usize) -> Result<(), AllocError> {
    let id = TypeId::from_index(index);
    assert!(rt; types.contains(id));
    types.delete(id)
}

fn try_delete(rt: &impl Abort, types: &mut ModuleTypes, index: usize) -> Result<bool, AllocError> {
    let id = TypeId::from_index(index);
    assert!(rt; types.contains(id));
    types.try_delete(id)
}

fn delete_group(rt: &impl Abort, types: &mut ModuleTypes, index: usize) -> Result<(), AllocError> {
    let id = TypeId::from_index(index);
    assert!(rt; types.contains(id));
    types.delete_entire_group(id)
}

#[tactic(auto, using(walrus_arena::proofs::ArenaLemmas::distinct_pair))]
fn delete_two(rt: &impl Abort, types: &mut ModuleTypes) -> Result<(), AllocError> {
    let ids: [TypeId; 2] = [TypeId::from_index(6), TypeId::from_index(1)];
    assert!(rt; types.contains(ids[0]));
    assert!(rt; types.contains(ids[1]));
    types.delete_all(ids.as_slice())
}

// Every request may be refused once the table is there.
#[test]
fn deletions_take_no_memory(rt: HostRuntime) {
    let mut types = match eight_types(rt.alloc()) {
        Ok(types) => types,
        Err(_) => return,
    };
    assert_equal(&rt, delete(&rt, &mut types, 0), Ok(()));
    assert_equal(&rt, delete_two(&rt, &mut types), Ok(()));
    let left = [false, false, true, true, true, true, false, true];
    assert_equal(&rt, live(&types), left);
    assert_equal(&rt, try_delete(&rt, &mut types, 5), Ok(false));
    assert_equal(&rt, try_delete(&rt, &mut types, 7), Ok(true));
    assert_equal(&rt, delete_group(&rt, &mut types, 5), Ok(()));
    let left = [false, false, true, true, false, false, false, false];
    assert_equal(&rt, live(&types), left);
    let sizes = [Some(0), Some(0), Some(1), Some(1), Some(0), Some(0), None];
    assert_equal(&rt, group_sizes(&types), sizes);
    let found = [0, 1, 2, 3].map(|named| find(&types, AddCall::Entry, named));
    let (third, fourth) = (TypeId::from_index(2), TypeId::from_index(3));
    assert_equal(&rt, found, [None, None, Some(third), Some(fourth)]);
}

#[test]
fn a_refused_clone_is_made_again(rt: HostRuntime) {
    let types = match with_a_dead_type(rt.alloc()) {
        Ok(types) => types,
        Err(_) => with_a_dead_type(rt.alloc()).expect(&rt, "memory"),
    };
    let copy = match types.clone() {
        Ok(copy) => copy,
        Err(_) => types.clone().expect(&rt, "memory"),
    };
    assert!(rt; finds_the_first(&copy) && finds_the_first(&types));
}
