//! Records of groups, and the indices that their types get.
ghost use Rattle.std.specs.Prelude.{◌≡◌, ◌<◌, ◌≤◌, ◌^◌, IfOk, IfErr, OnOk, None, Some, All, map, length, false};
ghost use Rattle.walrus_types.specs.TypesById.{IsLive};
ghost use Rattle.walrus_types.specs.declared.table.rec_group.RecGroup.{RecGroup};
ghost use Rattle.walrus_types.specs.declared.emit.order.PendingGroup.{PendingGroup};
ghost use Rattle.walrus_types.specs.Steps.PendingGroups.{groups_of};
ghost use Rattle.walrus_ty.specs.declared.error.ToRecordError.TheVariants as to_record;
ghost use Rattle.walrus_ty.specs.Definition.{names_of};
ghost use Rattle.walrus_types.specs.TableEmission.{contents, definition_at};
ghost use Rattle.walrus_ty.specs.Indices.{IsEmpty, type_index, type_indices, func_indices, global_indices};
ghost use Rattle.walrus_ty.specs.Lookups.{first_missing};
ghost use Rattle.walrus_sections.specs.SlotMap.{TypeGroup};
ghost use Rattle.walrus_ty.specs.Records.{entry_definition, group_of};
ghost use Rattle.walrus_types.specs.Steps.WrittenGroups.{AllIndexed, AreWritten, IsMemoryOrMissing, IsFirstUnindexed, IsLone, RefusesType, emit_error};
ghost use Rattle.walrus_sections.specs.WritingOrders.{IsApart, ids_in, with_indices, written_group};
ghost use Rattle.walrus_sections.specs.MissingNames.{FirstMissingIs};

use super::order::PendingGroup;
use crate::{
    EmitError, EntryAt, GroupAt, IdsToIndices, Listed, ModuleTypes, NoIndex, RecGroup,
    ToRecordError, TypeId,
};
use std::alloc::{AllocError, Global};

// The records of these groups in order. Each type of a group has its index before the group is
// written.
pub(super) fn write_groups(
    alloc: Global,
    table: &ModuleTypes,
    groups: &[RecGroup],
    pending: &[PendingGroup<'_>],
) -> Result<(Vec<GroupAt>, IdsToIndices), EmitError>
    requires live { All (λ (g : RecGroup). All (IsLive table.now.types.slots) g.types) groups.now }
    requires single { All (λ (g : RecGroup). g.is_explicit ≡ false → length g.types ≤ 1)
        groups.now }
    requires within { All (λ (p : PendingGroup). p.place < length groups.now) pending.now }
    requires filled { All (λ (g : TypeGroup). 0 < length g.ids)
        (groups_of groups.now pending.now) }
    requires apart { IsApart (ids_in (groups_of groups.now pending.now)) }
    requires few { length (ids_in (groups_of groups.now pending.now)) < 2 ^ 32 }
    ensures written { IfOk result
        (λ r. AreWritten (definition_at table.now.types.slots) (groups_of groups.now pending.now)
        r.0.items (type_indices r.1)) }
    ensures others { IfOk result (λ r. IsEmpty (func_indices r.1) × IsEmpty (global_indices r.1)) }
    ensures missing { IfErr result
        (λ e. IsMemoryOrMissing e (FirstMissingIs (definition_at table.now.types.slots)
        (groups_of groups.now pending.now))) }
{
    let mut written = Vec::with_capacity(alloc, pending.len())?;
    let mut indices = IdsToIndices::new(alloc);
    for item in pending {
        let group = &groups[item.place];
        indices.push_all_types(group.types.as_slice())?;
        let record = record_of(alloc, table, group, &indices)?;
        written.push(record)?;
    }
    Ok((written, indices))
}

fn record_of(
    alloc: Global,
    table: &ModuleTypes,
    group: &RecGroup,
    indices: &IdsToIndices,
) -> Result<GroupAt, EmitError>
    requires live { All (IsLive table.now.types.slots) group.now.types }
    requires filled { 0 < length group.now.types }
    requires single { group.now.is_explicit ≡ false → length group.now.types ≤ 1 }
    ensures renamed { IfOk result
        (λ g. group_of g ≡ written_group
        (with_indices (type_index indices.now) (definition_at table.now.types.slots))
        (contents group.now)) }
    ensures complete { OnOk result
        (AllIndexed (type_index indices.now)
        (definition_at table.now.types.slots) group.now.types) }
    ensures missing { IfErr result
        (λ e. IsMemoryOrMissing e (IsFirstUnindexed (type_index indices.now)
        (definition_at table.now.types.slots) group.now.types)) }
{
    match lone_id(group) {
        Some(id) => {
            let entry = entry_of(alloc, table, id, indices)?;
            Ok(GroupAt::Single(entry))
        }
        None => {
            let entries = entries_of(alloc, table, group.types.as_slice(), indices)?;
            Ok(GroupAt::Rec(Listed::from_vec(entries)))
        }
    }
}

// The id of a group that isn't explicit.
fn lone_id(group: &RecGroup) -> Option<TypeId>
    requires filled { 0 < length group.now.types }
    requires single { group.now.is_explicit ≡ false → length group.now.types ≤ 1 }
    ensures { IsLone result group.now }
{
    if group.is_explicit {
        None
    } else {
        Some(group.types.as_slice()[0])
    }
}

fn entries_of(
    alloc: Global,
    table: &ModuleTypes,
    ids: &[TypeId],
    indices: &IdsToIndices,
) -> Result<Vec<EntryAt>, EmitError>
    requires { All (IsLive table.now.types.slots) ids.now }
    ensures renamed { IfOk result
        (λ v. map entry_definition v.items ≡
        map (with_indices (type_index indices.now) (definition_at table.now.types.slots)) ids.now) }
    ensures complete { OnOk result
        (AllIndexed (type_index indices.now) (definition_at table.now.types.slots) ids.now) }
    ensures missing { IfErr result
        (λ e. IsMemoryOrMissing e (IsFirstUnindexed (type_index indices.now)
        (definition_at table.now.types.slots) ids.now)) }
{
    let mut entries = Vec::with_capacity(alloc, ids.len())?;
    for id in ids {
        entries.push(entry_of(alloc, table, *id, indices)?)?;
    }
    Ok(entries)
}

// The record of the type of a live id. `NoIndex` has its first name that has no index.
fn entry_of(
    alloc: Global,
    table: &ModuleTypes,
    id: TypeId,
    indices: &IdsToIndices,
) -> Result<EntryAt, EmitError>
    requires { IsLive table.now.types.slots id }
    ensures renamed { IfOk result
        (λ e. entry_definition e ≡
        with_indices (type_index indices.now) (definition_at table.now.types.slots) id) }
    ensures complete { OnOk result
        (first_missing (type_index indices.now)
        (names_of (definition_at table.now.types.slots id)) ≡ None) }
    ensures missing { IfErr result
        (λ e. IsMemoryOrMissing e (λ i k. (i ≡ id) ×
        (first_missing (type_index indices.now)
        (names_of (definition_at table.now.types.slots id)) ≡ Some k))) }
{
    match table.get(id).to_record(alloc, indices) {
        Ok(entry) => Ok(entry),
        Err(error) => Err(refusal(id, error)),
    }
}

// The refusal of the type `from` whose names could not be written.
fn refusal(from: TypeId, error: ToRecordError) -> EmitError
    requires { RefusesType error }
    ensures { result ≡ emit_error from error }
{
    match &error {
        ToRecordError::NoIndex(none) => refusal_of(from, none),
        ToRecordError::Memory => EmitError::Memory,
    }
}

fn refusal_of(from: TypeId, none: &NoIndex) -> EmitError
    requires { RefusesType (to_record.NoIndex none.now) }
    ensures { result ≡ emit_error from (to_record.NoIndex none.now) }
{
    match none {
        NoIndex::OfType(to) => EmitError::NoIndex { from, to: *to },
        NoIndex::OfFunc(_) => unreachable!(),
        NoIndex::OfGlobal(_) => unreachable!(),
    }
}
