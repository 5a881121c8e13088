//! The ids that a type is made with.
ghost use Rattle.std.specs.Prelude.{◌≡◌, ◌++◌, length, OnOk, OnErr, take};
ghost use Rattle.std.specs.List.{flat_map};
ghost use Rattle.walrus_ty.specs.Value.{val_names, field_names};
ghost use Rattle.walrus_ty.specs.Definition.{composite_names, supertype_names};
ghost use Rattle.walrus_ty.specs.Types.{kind_composite};
ghost use Rattle.walrus_ty.specs.Views.{referenced_ids};

use super::{CompositeType, Type};
use crate::{FieldType, TypeId, ValType};
use std::alloc::AllocError;

impl Type {
    /// Puts the types that it names at the end of the list: its supertype, then the types in its
    /// parameters and results or in its fields, from left to right, each as often as it is named.
    ///
    /// A refusal for memory leaves the list as it was.
    pub fn referenced_types(&self, list: &mut Vec<TypeId>) -> Result<(), AllocError>
        ensures appended { OnOk result
            (list.new.items ≡ list.old.items ++ referenced_ids self.now) }
        ensures refused { OnErr result (list.new.items ≡ list.old.items) }
    {
        let before = list.len();
        let answer = self.push_names(list);
        if answer.is_err() {
            list.truncate(before);
        }
        answer
    }

    fn push_names(&self, list: &mut Vec<TypeId>) -> Result<(), AllocError>
        ensures appended { OnOk result
            (list.new.items ≡ list.old.items ++ referenced_ids self.now) }
        ensures refused { OnErr result
            (take (length list.old.items) list.new.items ≡ list.old.items) }
    {
        push_name(list, self.supertype)?;
        push_kind(list, self.kind())
    }
}

fn push_kind(list: &mut Vec<TypeId>, kind: &CompositeType) -> Result<(), AllocError>
    ensures appended { OnOk result
        (list.new.items ≡ list.old.items ++ composite_names (kind_composite kind.now)) }
    ensures refused { OnErr result (take (length list.old.items) list.new.items ≡ list.old.items) }
{
    match kind {
        CompositeType::Function(f) => {
            push_values(list, f.params())?;
            push_values(list, f.results())
        }
        CompositeType::Struct(s) => push_fields(list, s.fields.as_slice()),
        CompositeType::Array(a) => push_name(list, a.field.type_id()),
    }
}

fn push_name(list: &mut Vec<TypeId>, name: Option<TypeId>) -> Result<(), AllocError>
    ensures appended { OnOk result (list.new.items ≡ list.old.items ++ supertype_names name) }
    ensures refused { OnErr result (list.new.items ≡ list.old.items) }
{
    if let Some(id) = name {
        list.push(id)?;
    }
    Ok(())
}

fn push_values(list: &mut Vec<TypeId>, values: &[ValType]) -> Result<(), AllocError>
    ensures appended { OnOk result
        (list.new.items ≡ list.old.items ++ flat_map val_names values.now) }
    ensures refused { OnErr result (take (length list.old.items) list.new.items ≡ list.old.items) }
{
    for value in values {
        push_name(list, value.type_id())?;
    }
    Ok(())
}

fn push_fields(list: &mut Vec<TypeId>, fields: &[FieldType]) -> Result<(), AllocError>
    ensures appended { OnOk result
        (list.new.items ≡ list.old.items ++ flat_map field_names fields.now) }
    ensures refused { OnErr result (take (length list.old.items) list.new.items ≡ list.old.items) }
{
    for field in fields {
        push_name(list, field.type_id())?;
    }
    Ok(())
}
