//! Constant operations read with an id for each index, and written with an index for each id.
ghost use Rattle.std.specs.Prelude.{◌≡◌, Some, None, IfOk, IfErr, OnOk, OnSome, map, option_map, [], ◌∷◌, ◌++◌};
ghost use Rattle.std.specs.List.{flat_map};
ghost use Rattle.walrus_ty.specs.IdLists.{type_at};
ghost use Rattle.walrus_ty.specs.Lookups.{value_or_zero, IfUnknownIndex, IfNoIndex};
ghost use Rattle.walrus_ty.specs.Value.{heap_names};
ghost use Rattle.ir_const_expr.specs.ConstExpr.{OfTypes, null_of, plain_form, op_read, op_written, op_names, op_at_names, ids_at, indices_of, renaming_of, first_missing, number_of, no_index};

use super::{ConstExpr, ConstOp, ConstOpAt};
use ir_operators::Value;
use std::alloc::Global;
use std::marker::Model;
use walrus_ty::{
    FromRecordError, HeapAt, HeapType, IdsToIndices, IndicesToIds, NoIndex, RefType, Reference,
    ToRecordError, UnknownIndex,
};

// The operations of these records, in order.
pub(super) fn ops_from(
    alloc: Global,
    records: &[ConstOpAt],
    ids: &IndicesToIds,
) -> Result<Vec<ConstOp>, FromRecordError>
    ensures ops { IfOk result
        (λ x. x.items ≡ map (op_read (renaming_of (ids_at ids.now))) records.now) }
    ensures complete { OnOk result
        (first_missing (ids_at ids.now) (flat_map op_at_names records.now) ≡ None) }
    ensures missing { IfErr result (λ e. IfUnknownIndex e (λ k.
        option_map number_of (first_missing (ids_at ids.now) (flat_map op_at_names records.now)) ≡
        Some k)) }
{
    let mut ops = Ops {
        items: Vec::with_capacity(alloc, records.len())?,
    };
    for record in records {
        ops.read(record, ids)?;
    }
    Ok(ops.items)
}

// The operations that were read so far.
#[derive(Drop)]
struct Ops {
    items: Vec<ConstOp>,
}

impl Model for Ops {
    ghost use Rattle.std.specs.Prelude.{List};
    ghost use Rattle.ir_const_expr.specs.declared.const_expr.ConstOp.{ConstOp};

    ghost Value = { List ConstOp };

    ghost view = { λ o. o.items.items };
}

impl Ops {
    // Reads one more operation.
    fn read(&mut self, at: &ConstOpAt, ids: &IndicesToIds) -> Result<(), FromRecordError>
        ensures op { OnOk result
            (self.new ≡ self.old ++ op_read (renaming_of (ids_at ids.now)) at.now ∷ []) }
        ensures complete { OnOk result
            (first_missing (ids_at ids.now) (op_at_names at.now) ≡ None) }
        ensures missing { IfErr result (λ e. IfUnknownIndex e (λ k.
            option_map number_of (first_missing (ids_at ids.now) (op_at_names at.now)) ≡ Some k)) }
    {
        let op = match at {
            ConstOpAt::I32Const(n) => ConstOp::I32Const(*n),
            ConstOpAt::I64Const(n) => ConstOp::I64Const(*n),
            ConstOpAt::F32Const(bits) => ConstOp::F32Const(*bits),
            ConstOpAt::F64Const(bits) => ConstOp::F64Const(*bits),
            ConstOpAt::V128Const(bits) => ConstOp::V128Const(*bits),
            ConstOpAt::GlobalGet(index) => ConstOp::GlobalGet(ids.get_global(*index)?),
            ConstOpAt::RefNull(heap_type) => ConstOp::RefNull(null_type(heap_type, ids)?),
            ConstOpAt::RefFunc(index) => ConstOp::RefFunc(ids.get_func(*index)?),
            ConstOpAt::I32Add => ConstOp::I32Add,
            ConstOpAt::I32Sub => ConstOp::I32Sub,
            ConstOpAt::I32Mul => ConstOp::I32Mul,
            ConstOpAt::I64Add => ConstOp::I64Add,
            ConstOpAt::I64Sub => ConstOp::I64Sub,
            ConstOpAt::I64Mul => ConstOp::I64Mul,
            ConstOpAt::RefI31 => ConstOp::RefI31,
            ConstOpAt::AnyConvertExtern => ConstOp::AnyConvertExtern,
            ConstOpAt::ExternConvertAny => ConstOp::ExternConvertAny,
            ConstOpAt::StructNew(index) => ConstOp::StructNew(ids.get_type(*index)?),
            ConstOpAt::StructNewDefault(index) => ConstOp::StructNewDefault(ids.get_type(*index)?),
            ConstOpAt::ArrayNew(index) => ConstOp::ArrayNew(ids.get_type(*index)?),
            ConstOpAt::ArrayNewDefault(index) => ConstOp::ArrayNewDefault(ids.get_type(*index)?),
            ConstOpAt::ArrayNewFixed { ty, len } => ConstOp::ArrayNewFixed {
                ty: ids.get_type(*ty)?,
                len: *len,
            },
        };
        self.items.push(op)?;
        Ok(())
    }
}

// The form of its own that this operation has where it is alone, if it has one.
pub(super) fn plain_form(
    at: &ConstOpAt,
    ids: &IndicesToIds,
) -> Result<Option<ConstExpr>, UnknownIndex>
    ensures form { IfOk result
        (λ x. x ≡ plain_form (op_read (renaming_of (ids_at ids.now)) at.now)) }
    ensures complete { IfOk result
        (λ x. OnSome x (first_missing (ids_at ids.now) (op_at_names at.now) ≡ None)) }
    ensures missing { IfErr result (λ e.
        option_map number_of (first_missing (ids_at ids.now) (op_at_names at.now)) ≡ Some e.0) }
{
    Ok(match at {
        ConstOpAt::I32Const(n) => Some(ConstExpr::Value(Value::I32(*n))),
        ConstOpAt::I64Const(n) => Some(ConstExpr::Value(Value::I64(*n))),
        ConstOpAt::F32Const(bits) => Some(ConstExpr::Value(Value::F32(*bits))),
        ConstOpAt::F64Const(bits) => Some(ConstExpr::Value(Value::F64(*bits))),
        ConstOpAt::V128Const(bits) => Some(ConstExpr::Value(Value::V128(*bits))),
        ConstOpAt::GlobalGet(index) => Some(ConstExpr::Global(ids.get_global(*index)?)),
        ConstOpAt::RefNull(heap_type) => Some(ConstExpr::RefNull(null_type(heap_type, ids)?)),
        ConstOpAt::RefFunc(index) => Some(ConstExpr::RefFunc(ids.get_func(*index)?)),
        _ => None,
    })
}

// The type of the null reference to this heap type.
fn null_type(heap_type: &HeapAt, ids: &IndicesToIds) -> Result<RefType, UnknownIndex>
    ensures renamed { IfOk result
        (λ x. x ≡ null_of (value_or_zero (type_at ids.now)) heap_type.now) }
    ensures complete { OnOk result
        (first_missing (ids_at ids.now) (map OfTypes (heap_names heap_type.now)) ≡ None) }
    ensures missing { IfErr result (λ e.
        option_map number_of (first_missing (ids_at ids.now)
        (map OfTypes (heap_names heap_type.now))) ≡ Some e.0) }
{
    Ok(Reference {
        nullable: true,
        heap_type: HeapType::from_record(heap_type, ids)?,
    })
}

// The records of these operations, in order.
pub(super) fn ops_to(
    alloc: Global,
    ops: &[ConstOp],
    indices: &IdsToIndices,
) -> Result<Vec<ConstOpAt>, ToRecordError>
    ensures records { IfOk result
        (λ x. x.items ≡ map (op_written (renaming_of (indices_of indices.now))) ops.now) }
    ensures complete { OnOk result
        (first_missing (indices_of indices.now) (flat_map op_names ops.now) ≡ None) }
    ensures missing { IfErr result (λ e. IfNoIndex e (λ n.
        option_map no_index (first_missing (indices_of indices.now) (flat_map op_names ops.now)) ≡
        Some n)) }
{
    let mut records = Vec::with_capacity(alloc, ops.len())?;
    for op in ops {
        records.push(op.to_record(indices)?)?;
    }
    Ok(records)
}

impl ConstOp {
    // The record of this operation.
    fn to_record(&self, indices: &IdsToIndices) -> Result<ConstOpAt, NoIndex>
        ensures record { IfOk result
            (λ x. x ≡ op_written (renaming_of (indices_of indices.now)) self.now) }
        ensures complete { OnOk result
            (first_missing (indices_of indices.now) (op_names self.now) ≡ None) }
        ensures missing { IfErr result (λ e.
            option_map no_index (first_missing (indices_of indices.now) (op_names self.now)) ≡
            Some e) }
    {
        Ok(match self {
            ConstOp::I32Const(n) => ConstOpAt::I32Const(*n),
            ConstOp::I64Const(n) => ConstOpAt::I64Const(*n),
            ConstOp::F32Const(bits) => ConstOpAt::F32Const(*bits),
            ConstOp::F64Const(bits) => ConstOpAt::F64Const(*bits),
            ConstOp::V128Const(bits) => ConstOpAt::V128Const(*bits),
            ConstOp::GlobalGet(id) => ConstOpAt::GlobalGet(indices.get_global_index(*id)?),
            ConstOp::RefNull(ty) => ConstOpAt::RefNull(ty.heap_type.to_record(indices)?),
            ConstOp::RefFunc(id) => ConstOpAt::RefFunc(indices.get_func_index(*id)?),
            ConstOp::I32Add => ConstOpAt::I32Add,
            ConstOp::I32Sub => ConstOpAt::I32Sub,
            ConstOp::I32Mul => ConstOpAt::I32Mul,
            ConstOp::I64Add => ConstOpAt::I64Add,
            ConstOp::I64Sub => ConstOpAt::I64Sub,
            ConstOp::I64Mul => ConstOpAt::I64Mul,
            ConstOp::RefI31 => ConstOpAt::RefI31,
            ConstOp::AnyConvertExtern => ConstOpAt::AnyConvertExtern,
            ConstOp::ExternConvertAny => ConstOpAt::ExternConvertAny,
            ConstOp::StructNew(id) => ConstOpAt::StructNew(indices.get_type_index(*id)?),
            ConstOp::StructNewDefault(id) => {
                ConstOpAt::StructNewDefault(indices.get_type_index(*id)?)
            }
            ConstOp::ArrayNew(id) => ConstOpAt::ArrayNew(indices.get_type_index(*id)?),
            ConstOp::ArrayNewDefault(id) => {
                ConstOpAt::ArrayNewDefault(indices.get_type_index(*id)?)
            }
            ConstOp::ArrayNewFixed { ty, len } => ConstOpAt::ArrayNewFixed {
                ty: indices.get_type_index(*ty)?,
                len: *len,
            },
        })
    }
}
