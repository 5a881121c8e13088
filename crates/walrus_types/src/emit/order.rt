//! The groups that are written, and their order.
ghost use Rattle.std.specs.Prelude.{◌≡◌, cond, length, All, IfOk};
ghost use Rattle.walrus_sections.specs.Refusal.{written_count};
ghost use Rattle.walrus_types.specs.TypesById.{IsLive};
ghost use Rattle.walrus_types.specs.TableEmission.{type_groups, is_entry_at, table_view};
ghost use Rattle.walrus_types.specs.declared.table.rec_group.RecGroup.{RecGroup};
ghost use Rattle.walrus_types.specs.Steps.PendingGroups.{pending_groups, places_of};
ghost use Rattle.walrus_sections.specs.WritingOrders.{IsWritingOrder, id_count};

use super::free::{head_of, is_free_group, is_written_group};
use super::sort_key::KeyedType;
use crate::{ModuleTypes, RecGroup};
use std::alloc::{AllocError, Global};

// A group that is to be written: where its run begins, its first type, and its place. They are
// sorted by these in turn: each run of free groups by their first types. All others stay.
#[derive(PartialEq, Eq, PartialOrd, Ord, Drop)]
pub(super) struct PendingGroup<'a> {
    start: usize,
    head: Option<KeyedType<'a>>,
    pub(super) place: usize,
}

// The groups that are written, in the order in which they are.
pub(super) fn writing_order<'a>(
    alloc: Global,
    table: &'a ModuleTypes,
) -> Result<Vec<PendingGroup<'a>>, AllocError>
    ensures order { IfOk result
        (λ v. IsWritingOrder (table_view table.now) (places_of v.items)) }
    ensures count { IfOk result
        (λ v. id_count (type_groups table.now.groups) (places_of v.items) ≡
        written_count (is_entry_at table.now.types.slots) (type_groups table.now.groups)) }
{
    let mut pending = pending_groups(alloc, table, table.rec_groups())?;
    pending.sort()?;
    Ok(pending)
}

// The groups that are written, in their own order. `run` is where the free groups begin that come
// just before the next one.
fn pending_groups<'a>(
    alloc: Global,
    table: &'a ModuleTypes,
    groups: &[RecGroup],
) -> Result<Vec<PendingGroup<'a>>, AllocError>
    requires { All (λ (g : RecGroup). All (IsLive table.now.types.slots) g.types) groups.now }
    ensures { IfOk result
        (λ v. v.items ≡ pending_groups table.now.types.slots groups.now (length groups.now)) }
{
    let mut pending = Vec::with_capacity(alloc, groups.len())?;
    let mut run = 0;
    for (place, group) in groups.iter().enumerate() {
        let is_free = is_free_group(table, group);
        if is_written_group(table, group) {
            let start = run_start(is_free, run, place);
            let head = head_of(table, group);
            pending.push(PendingGroup { start, head, place })?;
        }
        run = run_start(is_free, run, place + 1);
    }
    Ok(pending)
}

// Where the run begins, if the group is free and so part of it, else this place.
fn run_start(is_free: bool, run: usize, place: usize) -> usize
    ensures { result ≡ cond is_free run place }
{
    if is_free { run } else { place }
}
