//! Each call of a table that changes something, made once: it is a `Call`, of which
//! [`every_table_is_sound`] speaks.
//!
//! [`every_table_is_sound`]: super::every_table_is_sound
ghost use Rattle.std.specs.Prelude.{[], ◌∷◌, ◌≡◌, All, IfOk, MatchBool, None, OnErr, OnOk, true, false, nat_eq};
ghost use Rattle.std.specs.Fn.{FnOnceTakesAt};
ghost use Rattle.std.specs.List.{IsDistinct, range_with_len};
ghost use Rattle.walrus_ty.specs.Types.{unnamed_type, function};
ghost use Rattle.walrus_ty.specs.declared.ty.composite.CompositeType.TheVariants as kind;
ghost use Rattle.walrus_types.specs.Table.{Deletes, DeletesAll, DeletesGroup, IsNamedInGroup, next_id};
ghost use Rattle.walrus_types.specs.TableCalls.{IsAddition, IsCall};
ghost use Rattle.walrus_types.specs.TableLends.{with_type};
ghost use Rattle.walrus_types.specs.TypesById.{IsLive};

use crate::{AddRecGroupError, CompositeType, FieldType, ModuleTypes, Type, TypeId, ValType};
use std::alloc::AllocError;

/// `add` of a table.
pub fn add(
    types: &mut ModuleTypes,
    params: &[ValType],
    results: &[ValType],
) -> Result<TypeId, AllocError>
    ensures ok { IfOk result
        (IsAddition types.old types.new
        (unnamed_type (function params.now results.now) true None false (next_id types.old))) }
    ensures err { OnErr result (IsCall types.old types.new []) }
{
    types.add(params, results)
}

/// `add_struct` of a table.
pub fn add_struct(types: &mut ModuleTypes, fields: Vec<FieldType>) -> Result<TypeId, AllocError>
    ensures ok { IfOk result
        (IsAddition types.old types.new
        (unnamed_type (kind.Struct (record { fields = fields.items })) true None false
        (next_id types.old))) }
    ensures err { OnErr result (IsCall types.old types.new []) }
{
    types.add_struct(fields)
}

/// `add_array` of a table.
pub fn add_array(types: &mut ModuleTypes, element: FieldType) -> Result<TypeId, AllocError>
    ensures ok { IfOk result
        (IsAddition types.old types.new
        (unnamed_type (kind.Array (record { field = element })) true None false
        (next_id types.old))) }
    ensures err { OnErr result (IsCall types.old types.new []) }
{
    types.add_array(element)
}

/// `add_composite` of a table.
pub fn add_composite(
    types: &mut ModuleTypes,
    comp: CompositeType,
    is_final: bool,
    supertype: Option<TypeId>,
) -> Result<TypeId, AllocError>
    ensures ok { IfOk result
        (IsAddition types.old types.new
        (unnamed_type comp is_final supertype false (next_id types.old))) }
    ensures err { OnErr result (IsCall types.old types.new []) }
{
    types.add_composite(comp, is_final, supertype)
}

/// `add_entry_ty` of a table.
pub fn add_entry_ty(types: &mut ModuleTypes, results: &[ValType]) -> Result<TypeId, AllocError>
    ensures ok { IfOk result
        (IsAddition types.old types.new
        (unnamed_type (function [] results.now) true None true (next_id types.old))) }
    ensures err { OnErr result (IsCall types.old types.new []) }
{
    types.add_entry_ty(results)
}

/// `add_rec_group` of a table.
pub fn add_rec_group<
    F: FnOnce(&[TypeId]) -> Result<Vec<(CompositeType, bool, Option<TypeId>)>, AllocError> + Drop,
>(types: &mut ModuleTypes, count: usize, build: F) -> Result<Vec<TypeId>, AddRecGroupError>
    requires { FnOnceTakesAt F.FnOnce build (range_with_len (next_id types.old) count) }
    ensures ids { IfOk result (λ ids. ids.items ≡ range_with_len (next_id types.old) count) }
    ensures ok { IfOk result (λ ids. IsCall types.old types.new ids.items) }
    ensures err { OnErr result (IsCall types.old types.new []) }
{
    types.add_rec_group(count, build)
}

/// A write through `get_mut` of a table.
pub fn write(types: &mut ModuleTypes, id: TypeId, ty: Type)
    requires { IsLive types.old.types.slots id }
    ensures writes { types.new ≡ with_type types.old id ty }
    ensures call { IsCall types.old types.new [] }
{
    *types.get_mut(id) = ty;
}

/// `delete` of a table.
pub fn delete(types: &mut ModuleTypes, id: TypeId) -> Result<(), AllocError>
    requires { IsLive types.old.types.slots id }
    ensures deletes { OnOk result (Deletes types.old types.new id) }
    ensures ok { OnOk result (IsCall types.old types.new []) }
{
    types.delete(id)
}

/// `delete_all` of a table.
pub fn delete_all(types: &mut ModuleTypes, ids: &[TypeId]) -> Result<(), AllocError>
    requires live { All (IsLive types.old.types.slots) ids.now }
    requires distinct { IsDistinct nat_eq ids.now }
    ensures deletes { OnOk result (DeletesAll types.old ids.now types.new) }
    ensures ok { OnOk result (IsCall types.old types.new []) }
{
    types.delete_all(ids)
}

/// `try_delete` of a table.
pub fn try_delete(types: &mut ModuleTypes, id: TypeId) -> Result<bool, AllocError>
    requires { IsLive types.old.types.slots id }
    ensures deleted { IfOk result
        (λ deleted. MatchBool deleted (IsNamedInGroup types.old id → ⊥)
        (IsNamedInGroup types.old id)) }
    ensures deletes { IfOk result
        (λ deleted. MatchBool deleted (Deletes types.old types.new id) (types.new ≡ types.old)) }
    ensures ok { OnOk result (IsCall types.old types.new []) }
{
    types.try_delete(id)
}

/// `delete_entire_group` of a table.
pub fn delete_entire_group(types: &mut ModuleTypes, id: TypeId) -> Result<(), AllocError>
    requires { IsLive types.old.types.slots id }
    ensures deletes { OnOk result (DeletesGroup types.old types.new id) }
    ensures ok { OnOk result (IsCall types.old types.new []) }
{
    types.delete_entire_group(id)
}

/// `clone` of a table.
pub fn clone(types: &ModuleTypes) -> Result<ModuleTypes, AllocError>
    ensures { IfOk result (λ copy. IsCall types.now copy []) }
{
    types.clone()
}
