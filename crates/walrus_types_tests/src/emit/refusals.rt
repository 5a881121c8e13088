//! Tables that are written where memory is refused.
use super::{gives, misses};
use crate::assertions::assert_equal;
use crate::table::{add_pair, reference};
use std::alloc::AllocError;
use walrus_types::{ModuleTypes, NoIndex, TypeId, Val, ValType};

// A function type with these parameters. It is added again after a refusal.
fn add_again(types: &mut ModuleTypes, params: &[ValType]) -> Result<TypeId, AllocError> {
    if let Ok(id) = types.add(params, &[]) {
        return Ok(id);
    }
    types.add(params, &[])
}

#[test]
fn a_refused_emission_comes_when_it_is_asked_for_again(rt: HostRuntime) {
    let alloc = rt.alloc();
    let mut types = ModuleTypes::new(alloc);
    add_again(&mut types, &[Val::I64]).expect(&rt, "memory");
    add_again(&mut types, &[Val::I32]).expect(&rt, "memory");
    if types.add_entry_ty(&[]).is_err() {
        types.add_entry_ty(&[]).expect(&rt, "memory");
    }
    add_again(&mut types, &[reference(0)]).expect(&rt, "memory");
    let indices = gives(&rt, alloc, &types, "fi fl f1", "1 0 3");
    let entry = TypeId::from_index(2);
    let missing = Err(NoIndex::OfType(entry));
    assert_equal(&rt, indices.get_type_index(entry), missing);
}

// A function type, a `Rec` of two that name each other, a type that names the second, and another.
#[test]
fn a_refused_emission_of_groups_comes_when_it_is_asked_for_again(rt: HostRuntime) {
    let alloc = rt.alloc();
    let mut types = ModuleTypes::new(alloc);
    add_again(&mut types, &[Val::I64]).expect(&rt, "memory");
    if add_pair(alloc, &mut types, 2).is_err() {
        add_pair(alloc, &mut types, 2).expect(&rt, "memory");
    }
    add_again(&mut types, &[reference(2)]).expect(&rt, "memory");
    add_again(&mut types, &[Val::I32]).expect(&rt, "memory");
    gives(&rt, alloc, &types, "fl ( f2 f1 ) f2 fi", "0 1 2 3 4");
}

#[test]
fn a_refused_emission_of_an_unknown_name_is_its_error(rt: HostRuntime) {
    let mut types = ModuleTypes::new(rt.alloc());
    add_again(&mut types, &[Val::I64]).expect(&rt, "memory");
    let from = add_again(&mut types, &[reference(9)]).expect(&rt, "memory");
    misses(&rt, &types, from, TypeId::from_index(9));
}
