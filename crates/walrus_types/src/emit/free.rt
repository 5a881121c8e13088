//! Which groups are free, and which are written.
ghost use Rattle.std.specs.Prelude.{◌≡◌, All};
ghost use Rattle.std.specs.List.{list_all};
ghost use Rattle.walrus_types.specs.TypesById.{IsLive};
ghost use Rattle.walrus_types.specs.declared.table.rec_group.RecGroup.{RecGroup};
ghost use Rattle.walrus_ty.specs.Definition.{composite_names, supertype_names, names_of};
ghost use Rattle.walrus_types.specs.Steps.FreeGroups.{names_none_other, is_free, head, is_written_group};
ghost use Rattle.walrus_ty.specs.Types.{kind_composite, type_definition};
ghost use Rattle.walrus_ty.specs.Value.{val_names, field_names};

use super::sort_key::KeyedType;
use crate::{CompositeType, FieldType, ModuleTypes, RecGroup, Type, TypeId, ValType};

// Whether some type of the group does not just mark the entry of a function.
pub(super) fn is_written_group(table: &ModuleTypes, group: &RecGroup) -> bool
    requires { All (IsLive table.now.types.slots) group.now.types }
    ensures { result ≡ is_written_group table.now.types.slots group.now }
{
    for id in group.types.as_slice() {
        if !table.get(*id).is_for_function_entry() {
            return true;
        }
    }
    false
}

// Its first type.
pub(super) fn head_of<'a>(table: &'a ModuleTypes, group: &RecGroup) -> Option<KeyedType<'a>>
    requires { All (IsLive table.now.types.slots) group.now.types }
    ensures { result ≡ head table.now.types.slots group.now }
{
    match group.types.as_slice() {
        [] => None,
        [id, ..] => Some(KeyedType::new(table.get(*id))),
    }
}

// Whether the group is free: it has no types, or it isn't explicit and its one type names no live
// type but itself.
pub(super) fn is_free_group(table: &ModuleTypes, group: &RecGroup) -> bool
    requires { All (IsLive table.now.types.slots) group.now.types }
    ensures { result ≡ is_free table.now.types.slots group.now }
{
    match group.types.as_slice() {
        [] => true,
        [id] => !group.is_explicit && type_names_none_other(table, *id, table.get(*id)),
        _ => false,
    }
}

// This one and those below say whether something names no live type but `own`.
#[tactic(auto, using(walrus_sections::proofs::Ordering::FreeNames::list_all_both))]
fn type_names_none_other(table: &ModuleTypes, own: TypeId, ty: &Type) -> bool
    ensures { result ≡ names_none_other table.now.types.slots own
        (names_of (type_definition ty.now)) }
{
    composite_names_none_other(table, own, ty.kind()) && is_none_other(table, own, ty.supertype)
}

#[tactic(auto, using(walrus_sections::proofs::Ordering::FreeNames::list_all_flat_map, walrus_sections::proofs::Ordering::FreeNames::list_all_both))]
fn composite_names_none_other(table: &ModuleTypes, own: TypeId, kind: &CompositeType) -> bool
    ensures { result ≡ names_none_other table.now.types.slots own
        (composite_names (kind_composite kind.now)) }
{
    match kind {
        CompositeType::Function(function) => {
            vals_name_none_other(table, own, function.params())
                && vals_name_none_other(table, own, function.results())
        }
        CompositeType::Struct(of) => fields_name_none_other(table, own, of.fields.as_slice()),
        CompositeType::Array(of) => is_none_other(table, own, of.field.type_id()),
    }
}

fn vals_name_none_other(table: &ModuleTypes, own: TypeId, vals: &[ValType]) -> bool
    ensures { result ≡ list_all
        (λ v. names_none_other table.now.types.slots own (val_names v)) vals.now }
{
    vals.iter()
        .all(|val| is_none_other(table, own, val.type_id()))
}

fn fields_name_none_other(table: &ModuleTypes, own: TypeId, fields: &[FieldType]) -> bool
    ensures { result ≡ list_all
        (λ f. names_none_other table.now.types.slots own (field_names f)) fields.now }
{
    fields
        .iter()
        .all(|field| is_none_other(table, own, field.type_id()))
}

fn is_none_other(table: &ModuleTypes, own: TypeId, name: Option<TypeId>) -> bool
    ensures { result ≡ names_none_other table.now.types.slots own (supertype_names name) }
{
    match name {
        Some(name) => name == own || !table.contains(name),
        None => true,
    }
}
