//! Emission: the type section of a table.
ghost use Rattle.std.specs.Prelude.{◌≤◌, ◌<◌, ◌^◌, ◌↔◌, IfOk, IfErr, IsTrue, IsErrOf, All};
ghost use Rattle.walrus_types.specs.TypesById.{IsLive};
ghost use Rattle.walrus_types.specs.declared.table.rec_group.RecGroup.{RecGroup};
ghost use Rattle.walrus_types.specs.TableEmission.{type_groups, is_entry_at, written_types, IfNameMissing, IsEmitted, MissesFirst};
ghost use Rattle.walrus_ty.specs.Indices.{IsEmpty, type_indices, func_indices, global_indices};
ghost use Rattle.walrus_types.specs.declared.error.EmitError.TheVariants.{TooMany};
ghost use Rattle.walrus_sections.specs.Refusal.{written_count};
ghost use Rattle.walrus_types.specs.Steps.WrittenGroups.{IsMemoryOrMissing};

mod free;
mod order;
mod sort_key;
mod write;

use crate::{EmitError, GroupAt, IdsToIndices, ModuleTypes, RecGroup};
use free::is_written_group;
use order::writing_order;
use std::alloc::Global;
use walrus_sections::laws::written_in_order;
use write::write_groups;

// The least number of types that can't be written.
const TOO_MANY: usize = 1 << 32;

impl ModuleTypes {
    /// Writes the table as a type section. Returns its groups, and the index that each type has in
    /// it.
    ///
    /// Empty groups are left out, and groups whose types all mark function entries. A group that
    /// isn't explicit and whose type names no other live type is free: neighbouring free groups are
    /// sorted by their types, and groups with equal types keep their order. All other groups stay
    /// where they are. The section can be read again
    /// ([`emitted_section_can_be_read`](crate::laws::emitted_section_can_be_read)).
    ///
    /// Only the groups have the new indices. **The bytes of a module still name the old indices**,
    /// and have to be written again with the map.
    ///
    /// # Errors
    ///
    /// `TooMany` comes where 2^32 types or more would be written, before anything else is looked
    /// at. `NoIndex` comes where a type names one without an index by the end of its own group. It
    /// has the first such type in the order of the section, and its first such name. `Memory` comes
    /// where memory was refused. The table is never changed.
    ///
    /// # A table of one type
    ///
    /// ```
    /// let mut types = ModuleTypes::new(alloc);
    /// let id = types.add(&[ValType::I32], &[])?;
    /// let (groups, indices) = types.emit()?;
    /// assert_eq!(rt; groups.len(), 1);
    /// assert_eq!(rt; indices.get_type_index(id)?, 0);
    /// ```
    pub fn emit(&self) -> Result<(Vec<GroupAt>, IdsToIndices), EmitError>
        ensures written { IfOk result (λ r. IsEmitted self.now r.0.items (type_indices r.1)) }
        ensures others { IfOk result
            (λ r. IsEmpty (func_indices r.1) × IsEmpty (global_indices r.1)) }
        ensures too_many { IsErrOf result TooMany ↔ (2 ^ 32 ≤ written_types self.now) }
        ensures missing { IfErr result (λ e. IfNameMissing e (MissesFirst self.now)) }
    {
        if has_too_many(self) {
            return Err(EmitError::TooMany);
        }
        write_table(self.allocator(), self)
    }
}

// Whether 2^32 types or more would be written. With fewer slots than that none need be counted.
fn has_too_many(table: &ModuleTypes) -> bool
    ensures { IsTrue result ↔ (2 ^ 32 ≤ written_types table.now) }
{
    let groups = table.rec_groups();
    table.next_id().index() >= TOO_MANY && counts_too_many(table, groups)
}

// Whether the groups that are written have 2^32 types or more.
fn counts_too_many(table: &ModuleTypes, groups: &[RecGroup]) -> bool
    requires { All (λ (g : RecGroup). All (IsLive table.now.types.slots) g.types) groups.now }
    ensures { IsTrue result ↔
        (2 ^ 32 ≤ written_count (is_entry_at table.now.types.slots) (type_groups groups.now)) }
{
    let mut count = 0;
    for group in groups {
        if is_written_group(table, group) {
            count += group.types.as_slice().len();
            if count >= TOO_MANY {
                return true;
            }
        }
    }
    false
}

// The section of a table that has not too many types.
fn write_table(
    alloc: Global,
    table: &ModuleTypes,
) -> Result<(Vec<GroupAt>, IdsToIndices), EmitError>
    requires { written_types table.now < 2 ^ 32 }
    ensures written { IfOk result (λ r. IsEmitted table.now r.0.items (type_indices r.1)) }
    ensures others { IfOk result (λ r. IsEmpty (func_indices r.1) × IsEmpty (global_indices r.1)) }
    ensures missing { IfErr result (λ e. IsMemoryOrMissing e (MissesFirst table.now)) }
{
    written_in_order();
    let pending = writing_order(alloc, table)?;
    write_groups(alloc, table, table.rec_groups(), pending.as_slice())
}
