//! Conversions of types where memory is refused.
use crate::fixtures::list;
use std::alloc::{AllocError, Global};
use std::process::Abort;
use walrus_ty::{
    CompAt, EntryAt, FieldAt, FromRecordError, Heap, IdsToIndices, IndicesToIds, Listed, RefAt,
    Storage, SubType, ToRecordError, Type, TypeId, Val, ValAt,
};

// A nullable reference to the type at this index.
fn to(index: u32) -> ValAt {
    Val::Ref(RefAt {
        nullable: true,
        heap_type: Heap::Concrete(index),
    })
}

// The record of a subtype of the type at index 1.
fn entry(comp: CompAt) -> EntryAt {
    EntryAt {
        comp,
        is_final: false,
        supertype: Some(1),
    }
}

// A struct type whose field names index 1.
fn struct_at(alloc: Global) -> Result<EntryAt, AllocError> {
    let field = FieldAt {
        element_type: Storage::Val(to(1)),
        mutable: false,
    };
    let fields = Listed::from_vec(list(alloc, &[field])?);
    Ok(entry(CompAt::Struct { fields }))
}

// A function type whose parameter names index 1 and whose result names index 0.
fn function_at(alloc: Global) -> Result<EntryAt, AllocError> {
    let params = Listed::from_vec(list(alloc, &[to(1)])?);
    let results = Listed::from_vec(list(alloc, &[to(0)])?);
    Ok(entry(CompAt::Function { params, results }))
}

// Index 0 is the type 5, and index 1 the type 3.
fn two_ids(alloc: Global) -> Result<IndicesToIds, AllocError> {
    let mut ids = IndicesToIds::new(alloc);
    ids.push_type(TypeId::from_index(5))?;
    ids.push_type(TypeId::from_index(3))?;
    Ok(ids)
}

// The type 5 has index 0, and the type 3 index 1.
fn two_indices(alloc: Global) -> Result<IdsToIndices, AllocError> {
    let mut indices = IdsToIndices::new(alloc);
    indices.push_type(TypeId::from_index(5))?;
    indices.push_type(TypeId::from_index(3))?;
    Ok(indices)
}

// What the record says. It is read again after a refusal.
fn read_again(alloc: Global, at: &EntryAt) -> Result<SubType, FromRecordError> {
    let ids = two_ids(alloc).or_else(|_| two_ids(alloc))?;
    match SubType::from_record(alloc, at, &ids) {
        Err(FromRecordError::Memory) => SubType::from_record(alloc, at, &ids),
        answer => answer,
    }
}

// The record of the type. It is written again after a refusal.
fn write_again(alloc: Global, ty: &Type) -> Result<EntryAt, ToRecordError> {
    let indices = two_indices(alloc).or_else(|_| two_indices(alloc))?;
    match ty.to_record(alloc, &indices) {
        Err(ToRecordError::Memory) => ty.to_record(alloc, &indices),
        answer => answer,
    }
}

// The record becomes a type that is written as the same record.
fn comes_back(rt: &(impl Abort + AllocGlobal), at: &EntryAt) {
    let said = read_again(rt.alloc(), at).expect(rt, "memory");
    let id = TypeId::from_index(9);
    let ty = Type::new(rt.alloc(), id, said.kind, said.is_final, said.supertype);
    assert!(rt; write_again(rt.alloc(), &ty).expect(rt, "memory") == *at);
}

#[test]
fn a_refused_struct_type_is_converted_when_it_is_given_again(rt: HostRuntime) {
    comes_back(&rt, &struct_at(rt.alloc()).expect(&rt, "memory"));
}

#[test]
fn a_refused_function_type_is_converted_when_it_is_given_again(rt: HostRuntime) {
    comes_back(&rt, &function_at(rt.alloc()).expect(&rt, "memory"));
}
