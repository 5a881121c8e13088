//! That expressions are read and written, in which form, and which name a refusal has.
use crate::assertions::assert_equal;
use std::alloc::{AllocError, Global};
use walrus_ir::{
    ConstExpr, ConstOp, ConstOpAt, FromRecordError, Heap, Id, IdsToIndices, IndicesToIds, Listed,
    Reference, Value,
};

// Global index 0 is the global 5. It gets it again after a refusal.
fn one_global(alloc: Global) -> Result<IndicesToIds, AllocError> {
    let mut ids = IndicesToIds::new(alloc);
    if ids.push_global(Id::from_index(5)).is_err() {
        ids.push_global(Id::from_index(5))?;
    }
    Ok(ids)
}

// Type indices 0 and 1 are the types 0 and 1.
fn two_types(alloc: Global) -> Result<IndicesToIds, AllocError> {
    let mut ids = IndicesToIds::new(alloc);
    ids.push_type(Id::from_index(0))?;
    ids.push_type(Id::from_index(1))?;
    Ok(ids)
}

// The types 0 and 1 have the indices 0 and 1.
fn two_type_indices(alloc: Global) -> Result<IdsToIndices, AllocError> {
    let mut indices = IdsToIndices::new(alloc);
    indices.push_type(Id::from_index(0))?;
    indices.push_type(Id::from_index(1))?;
    Ok(indices)
}

fn extended(expr: &ConstExpr) -> &[ConstOp] {
    match expr {
        ConstExpr::Extended(ops) => ops.as_slice(),
        _ => &[],
    }
}

#[test]
fn a_lone_constant_is_a_value(rt: HostRuntime) {
    let ids = IndicesToIds::new(rt.alloc());
    let expr = ConstExpr::eval(rt.alloc(), &[ConstOpAt::I32Const(7)], &ids).expect(&rt, "memory");
    assert!(rt; expr == ConstExpr::Value(Value::I32(7)));
    let indices = IdsToIndices::new(rt.alloc());
    let ops = expr.to_ops(rt.alloc(), &indices).expect(&rt, "memory");
    assert!(rt; ops.as_slice() == [ConstOpAt::I32Const(7)].as_slice());
}

#[test]
fn all_other_lists_are_extended(rt: HostRuntime) {
    let alloc = rt.alloc();
    let ids = IndicesToIds::new(alloc);
    let expr = ConstExpr::eval(alloc, &[ConstOpAt::I32Add], &ids).expect(&rt, "memory");
    assert!(rt; extended(&expr) == [ConstOp::I32Add].as_slice());
    let expr = ConstExpr::eval(alloc, &[], &ids).expect(&rt, "memory");
    assert!(rt; expr == ConstExpr::Extended(Listed::from_vec(Vec::new(alloc))));
    let two = [ConstOpAt::I32Const(7), ConstOpAt::I32Const(8)];
    let expr = ConstExpr::eval(alloc, &two, &ids).expect(&rt, "memory");
    assert!(rt; extended(&expr) == [ConstOp::I32Const(7), ConstOp::I32Const(8)].as_slice());
}

#[test]
fn an_unknown_global_is_named(rt: HostRuntime) {
    let ids = IndicesToIds::new(rt.alloc());
    let refused = ConstExpr::eval(rt.alloc(), &[ConstOpAt::GlobalGet(0)], &ids).err();
    assert_equal(&rt, refused, Some(FromRecordError::UnknownIndex(0)));
}

#[test]
fn a_sum_goes_through_both_maps(rt: HostRuntime) {
    let alloc = rt.alloc();
    let sum = [
        ConstOpAt::GlobalGet(0),
        ConstOpAt::I32Const(4),
        ConstOpAt::I32Add,
    ];
    let ids = one_global(alloc).expect(&rt, "memory");
    let expr = ConstExpr::eval(alloc, &sum, &ids).expect(&rt, "memory");
    assert_equal(&rt, extended(&expr).len(), 3);
    let mut indices = IdsToIndices::new(alloc);
    indices.push_global(Id::from_index(4)).expect(&rt, "memory");
    indices.push_global(Id::from_index(5)).expect(&rt, "memory");
    let ops = expr.to_ops(alloc, &indices).expect(&rt, "memory");
    let sent = [
        ConstOpAt::GlobalGet(1),
        ConstOpAt::I32Const(4),
        ConstOpAt::I32Add,
    ];
    assert!(rt; ops.as_slice() == sent.as_slice());
}

#[test]
fn an_unknown_type_is_named(rt: HostRuntime) {
    let ids = two_types(rt.alloc()).expect(&rt, "memory");
    let refused = ConstExpr::eval(rt.alloc(), &[ConstOpAt::StructNew(3)], &ids).err();
    assert_equal(&rt, refused, Some(FromRecordError::UnknownIndex(3)));
}

#[test]
fn a_null_reference_is_read_as_nullable(rt: HostRuntime) {
    let alloc = rt.alloc();
    let null = [ConstOpAt::RefNull(Heap::Concrete(1))];
    let ids = two_types(alloc).expect(&rt, "memory");
    let indices = two_type_indices(alloc).expect(&rt, "memory");
    let expr = ConstExpr::eval(alloc, &null, &ids).expect(&rt, "memory");
    let ty = Reference {
        nullable: true,
        heap_type: Heap::Concrete(Id::from_index(1)),
    };
    assert!(rt; expr == ConstExpr::RefNull(ty));
    let ops = expr.to_ops(alloc, &indices).expect(&rt, "memory");
    assert!(rt; ops.as_slice() == null.as_slice());
}
