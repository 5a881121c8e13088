//! Constant expressions, and their operations with ids and with indices.
//! WebAssembly core specification, "Validation", constant expressions.
ghost use Rattle.std.specs.Prelude.{◌≡◌, Some, None, IfOk, IfErr, OnOk, map, option_map};
ghost use Rattle.std.specs.List.{flat_map};
ghost use Rattle.walrus_ty.specs.Lookups.{IfUnknownIndex, IfNoIndex};
ghost use Rattle.walrus_ty.specs.declared.error.FromRecordError.TheVariants as from_record;
ghost use Rattle.ir_const_expr.specs.ConstExpr.{expr_of, ops_of, constant, IsExtended, op_read, op_written, op_names, op_at_names, ids_at, indices_of, renaming_of, first_missing, number_of, no_index};

mod convert;
mod referenced;

use convert::{ops_from, ops_to, plain_form};
use ir_operators::Value;
use std::alloc::Global;
use walrus_ty::{
    FromRecordError, FunctionId, GlobalId, HeapAt, IdsToIndices, IndicesToIds, Listed, RefType,
    ToRecordError, TypeId,
};

/// A constant expression, as it gives a global its first value or says where a segment begins: one
/// value or name, or a list of operations.
#[derive(Clone, PartialEq, Eq, Debug, Drop)]
pub enum ConstExpr {
    /// A constant.
    Value(Value),
    /// The value of a global.
    Global(GlobalId),
    /// The null reference of this type.
    RefNull(RefType),
    /// A reference to a function.
    RefFunc(FunctionId),
    /// Operations on a stack, in order.
    Extended(Listed<ConstOp>),
}

/// An operation of a constant expression. Floats are their bits.
#[derive(Clone, Copy, PartialEq, Eq, Debug)]
pub enum ConstOp {
    I32Const(i32),
    I64Const(i64),
    F32Const(u32),
    F64Const(u64),
    V128Const(u128),
    GlobalGet(GlobalId),
    RefNull(RefType),
    RefFunc(FunctionId),
    I32Add,
    I32Sub,
    I32Mul,
    I64Add,
    I64Sub,
    I64Mul,
    RefI31,
    AnyConvertExtern,
    ExternConvertAny,
    StructNew(TypeId),
    StructNewDefault(TypeId),
    ArrayNew(TypeId),
    ArrayNewDefault(TypeId),
    ArrayNewFixed { ty: TypeId, len: u32 },
}

/// An operation of a constant expression as a module's section has it: it names types, functions
/// and globals by index, and of a null reference it has the heap type alone.
#[derive(Clone, Copy, PartialEq, Eq, Debug)]
pub enum ConstOpAt {
    I32Const(i32),
    I64Const(i64),
    F32Const(u32),
    F64Const(u64),
    V128Const(u128),
    GlobalGet(u32),
    RefNull(HeapAt),
    RefFunc(u32),
    I32Add,
    I32Sub,
    I32Mul,
    I64Add,
    I64Sub,
    I64Mul,
    RefI31,
    AnyConvertExtern,
    ExternConvertAny,
    StructNew(u32),
    StructNewDefault(u32),
    ArrayNew(u32),
    ArrayNewDefault(u32),
    ArrayNewFixed { ty: u32, len: u32 },
}

impl ConstExpr {
    /// The constant expression of these operations. One operation alone that is a constant,
    /// `GlobalGet`, `RefNull` or `RefFunc` gets the form of its own. All other lists, including the
    /// empty one, are `Extended`. The type of a null reference is nullable. `UnknownIndex` has the
    /// first index that is not in the map. `Memory` comes where memory for `Extended` was refused,
    /// and so never for one operation that has a form of its own.
    pub fn eval(
        alloc: Global,
        ops: &[ConstOpAt],
        ids: &IndicesToIds,
    ) -> Result<ConstExpr, FromRecordError>
        ensures value { IfOk result
            (λ x. x ≡ expr_of (map (op_read (renaming_of (ids_at ids.now))) ops.now)) }
        ensures complete { OnOk result
            (first_missing (ids_at ids.now) (flat_map op_at_names ops.now) ≡ None) }
        ensures missing { IfErr result (λ e. IfUnknownIndex e (λ k.
            option_map number_of (first_missing (ids_at ids.now) (flat_map op_at_names ops.now)) ≡
            Some k)) }
        ensures memory { IfErr result (λ e. e ≡ from_record.Memory →
            IsExtended (expr_of (map (op_read (renaming_of (ids_at ids.now))) ops.now))) }
    {
        if let [only] = ops {
            if let Some(plain) = plain_form(only, ids)? {
                return Ok(plain);
            }
        }
        Ok(ConstExpr::Extended(Listed::from_vec(ops_from(alloc, ops, ids)?)))
    }

    /// The operations of this constant expression. `NoIndex` has the first id that has no index.
    /// `Memory` comes where memory was refused. Whether a null reference is nullable is not
    /// written.
    pub fn to_ops(
        &self,
        alloc: Global,
        indices: &IdsToIndices,
    ) -> Result<Vec<ConstOpAt>, ToRecordError>
        ensures ops { IfOk result
            (λ x. x.items ≡
            map (op_written (renaming_of (indices_of indices.now))) (ops_of self.now)) }
        ensures complete { OnOk result
            (first_missing (indices_of indices.now) (flat_map op_names (ops_of self.now)) ≡ None) }
        ensures missing { IfErr result (λ e. IfNoIndex e (λ n.
            option_map no_index (first_missing (indices_of indices.now)
            (flat_map op_names (ops_of self.now))) ≡ Some n)) }
    {
        match self {
            ConstExpr::Value(value) => ops_to(alloc, &[ConstOp::constant(*value)], indices),
            ConstExpr::Global(global) => ops_to(alloc, &[ConstOp::GlobalGet(*global)], indices),
            ConstExpr::RefNull(ty) => ops_to(alloc, &[ConstOp::RefNull(*ty)], indices),
            ConstExpr::RefFunc(func) => ops_to(alloc, &[ConstOp::RefFunc(*func)], indices),
            ConstExpr::Extended(ops) => ops_to(alloc, ops.as_slice(), indices),
        }
    }
}

impl ConstOp {
    // The operation that puts this constant on the stack.
    fn constant(value: Value) -> ConstOp
        ensures { result ≡ constant value }
    {
        match value {
            Value::I32(n) => ConstOp::I32Const(n),
            Value::I64(n) => ConstOp::I64Const(n),
            Value::F32(bits) => ConstOp::F32Const(bits),
            Value::F64(bits) => ConstOp::F64Const(bits),
            Value::V128(bits) => ConstOp::V128Const(bits),
        }
    }
}
