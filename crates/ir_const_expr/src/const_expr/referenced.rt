//! The types that a constant expression names.
ghost use Rattle.std.specs.Prelude.{◌≡◌, ◌++◌, length, OnOk, OnErr, take};
ghost use Rattle.std.specs.List.{flat_map};
ghost use Rattle.walrus_ty.specs.Definition.{supertype_names};
ghost use Rattle.ir_const_expr.specs.ConstExpr.{op_types, ops_of, referenced_ids};

use super::{ConstExpr, ConstOp};
use std::alloc::AllocError;
use walrus_ty::TypeId;

impl ConstExpr {
    /// Puts the types that it names at the end of the list, from left to right, each as often as it
    /// is named: the types of new structs and arrays, and the types in the types of null
    /// references.
    ///
    /// A refusal for memory leaves the list as it was.
    pub fn referenced_types(&self, list: &mut Vec<TypeId>) -> Result<(), AllocError>
        ensures appended { OnOk result
            (list.new.items ≡ list.old.items ++ referenced_ids self.now) }
        ensures refused { OnErr result (list.new.items ≡ list.old.items) }
    {
        let before = list.len();
        let answer = self.push_types(list);
        if answer.is_err() {
            list.truncate(before);
        }
        answer
    }

    fn push_types(&self, list: &mut Vec<TypeId>) -> Result<(), AllocError>
        ensures appended { OnOk result
            (list.new.items ≡ list.old.items ++ referenced_ids self.now) }
        ensures refused { OnErr result
            (take (length list.old.items) list.new.items ≡ list.old.items) }
    {
        match self {
            ConstExpr::Value(value) => push_type(list, ConstOp::constant(*value).type_id()),
            ConstExpr::Global(_) | ConstExpr::RefFunc(_) => Ok(()),
            ConstExpr::RefNull(ty) => push_type(list, ty.type_id()),
            ConstExpr::Extended(ops) => push_types_of(list, ops.as_slice()),
        }
    }
}

impl ConstOp {
    /// The type that it names, if it names one.
    pub fn type_id(&self) -> Option<TypeId>
        ensures { supertype_names result ≡ op_types self.now }
    {
        match self {
            ConstOp::RefNull(ty) => ty.type_id(),
            ConstOp::StructNew(id)
            | ConstOp::StructNewDefault(id)
            | ConstOp::ArrayNew(id)
            | ConstOp::ArrayNewDefault(id) => Some(*id),
            ConstOp::ArrayNewFixed { ty, .. } => Some(*ty),
            _ => None,
        }
    }
}

fn push_types_of(list: &mut Vec<TypeId>, ops: &[ConstOp]) -> Result<(), AllocError>
    ensures appended { OnOk result (list.new.items ≡ list.old.items ++ flat_map op_types ops.now) }
    ensures refused { OnErr result (take (length list.old.items) list.new.items ≡ list.old.items) }
{
    for op in ops {
        push_type(list, op.type_id())?;
    }
    Ok(())
}

fn push_type(list: &mut Vec<TypeId>, name: Option<TypeId>) -> Result<(), AllocError>
    ensures appended { OnOk result (list.new.items ≡ list.old.items ++ supertype_names name) }
    ensures refused { OnErr result (list.new.items ≡ list.old.items) }
{
    if let Some(id) = name {
        list.push(id)?;
    }
    Ok(())
}
