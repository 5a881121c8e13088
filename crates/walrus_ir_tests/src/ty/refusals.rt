//! Clones, lists that grow by an item, and names of types, where memory is refused.
use crate::assertions::assert_equal;
use crate::fixtures::{are, clone_again, field, list, name_again, reference};
use std::alloc::{AllocError, Global};
use std::process::Abort;
use walrus_ty::{CompositeType, FunctionType, Listed, StructType, SubType, Type, TypeId, Val};

// The type 9, a function type with a name and a supertype.
pub(super) fn named(alloc: Global) -> Result<Type, AllocError> {
    let params = list(alloc, &[reference(3)])?;
    let kind = FunctionType::new(params, list(alloc, &[Val::I32, reference(5)])?);
    let kind = CompositeType::Function(kind);
    let supertype = Some(TypeId::from_index(2));
    let mut ty = Type::new(alloc, TypeId::from_index(9), kind, false, supertype);
    ty.name = Some(name_again(alloc)?);
    Ok(ty)
}

#[test]
fn a_refused_clone_of_a_type_comes_when_it_is_asked_for_again(rt: HostRuntime) {
    let source = named(rt.alloc()).expect(&rt, "memory");
    let copy = clone_again(&source).expect(&rt, "memory");
    assert!(rt; copy == source);
    assert!(rt; copy.name.is_some_and(|name| name.as_str() == "x"));
}

#[test]
fn a_refused_clone_of_a_sub_type_comes_when_it_is_asked_for_again(rt: HostRuntime) {
    let fields = list(rt.alloc(), &[field(reference(3)), field(Val::I32)]).expect(&rt, "memory");
    let fields = Listed::from_vec(fields);
    let source = SubType {
        kind: CompositeType::Struct(StructType { fields }),
        is_final: true,
        supertype: None,
    };
    assert!(rt; clone_again(&source).expect(&rt, "memory").kind == source.kind);
}

// Puts the number at the end, and is asked again after a refusal.
fn push_again(rt: &impl Abort, list: &mut Listed<u32>, item: u32) {
    if list.push(item).is_err() {
        list.push(item).expect(rt, "memory");
    }
}

// The same at the front.
fn insert_again(rt: &impl Abort, list: &mut Listed<u32>, item: u32) {
    if list.insert(0, item).is_err() {
        list.insert(0, item).expect(rt, "memory");
    }
}

#[test]
fn a_refused_item_is_put_into_its_list_when_it_is_given_again(rt: HostRuntime) {
    let mut list = Listed::from_vec(Vec::new(rt.alloc()));
    push_again(&rt, &mut list, 3);
    push_again(&rt, &mut list, 4);
    assert_equal(&rt, list.as_slice(), [3, 4].as_slice());
    assert!(rt; list.len() == 2);
    assert_equal(&rt, list.remove(1), 4);
    let mut list = Listed::from_vec(Vec::new(rt.alloc()));
    insert_again(&rt, &mut list, 7);
    assert_equal(&rt, list.as_slice(), [7].as_slice());
}

#[test]
fn refused_names_of_a_type_come_when_they_are_asked_for_again(rt: HostRuntime) {
    let ty = named(rt.alloc()).expect(&rt, "memory");
    let mut list = Vec::new(rt.alloc());
    if ty.referenced_types(&mut list).is_err() {
        ty.referenced_types(&mut list).expect(&rt, "memory");
    }
    assert!(rt; are(list.as_slice(), &[2, 3, 5]));
}
