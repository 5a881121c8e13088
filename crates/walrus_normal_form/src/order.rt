//! The groups that are written, and their order.
ghost use Rattle.std.specs.Prelude.{◌≡◌, ℕ, cond, length, slice_get, List, IfOk};
ghost use Rattle.walrus_ty.specs.Groups.{Section};
ghost use Rattle.walrus_sections.specs.Emission.{read_table};
ghost use Rattle.walrus_sections.specs.NormalForm.{image};
ghost use Rattle.walrus_normal_form.specs.Steps.PendingGroups.{ArePending, head, places_of};
ghost use Rattle.walrus_normal_form.specs.Steps.ReadSections.{IsReadAs};
ghost use Rattle.walrus_sections.specs.WritingOrders.{IsWritingOrder};

use crate::free::is_free_group;
use crate::keyed_entry::KeyedEntry;
use crate::slot_group::SlotGroup;
use std::alloc::{AllocError, Global};
use walrus_ty::{EntryAt, GroupAt};

/// The places of the groups that are written, in the order in which they are written. Each group
/// with a record is written.
pub(crate) fn writing_order(alloc: Global, groups: &[SlotGroup]) -> Result<Vec<usize>, AllocError>
    ensures order { (section : Section) (slots : List ℕ) → IsReadAs section slots groups.now →
        IfOk result (λ v. IsWritingOrder (read_table section (image slots)) v.items) }
{
    let mut pending = pending_groups(alloc, groups)?;
    pending.sort()?;
    places_of(alloc, pending.as_slice())
}

// A group that is to be written: where its run begins, its first record, and its place. The groups
// are sorted by these in turn. So the free groups of a run are sorted by their records, and all other
// groups keep their places.
#[derive(PartialEq, Eq, PartialOrd, Ord, Drop)]
struct PendingGroup<'a> {
    start: usize,
    head: KeyedEntry<'a>,
    place: usize,
}

// The groups that are written, in their own order. `run` is the place where the run of free groups
// begins that ends before this one.
fn pending_groups(alloc: Global, groups: &[SlotGroup]) -> Result<Vec<PendingGroup<'_>>, AllocError>
    ensures { IfOk result (λ v. ArePending groups.now (length groups.now) v.items) }
{
    let mut pending = Vec::with_capacity(alloc, groups.len())?;
    let mut run = 0;
    for (place, group) in groups.iter().enumerate() {
        let is_free = is_free_group(group);
        if let Some(head) = head_of(&group.group) {
            let start = run_start(is_free, run, place);
            pending.push(PendingGroup { start, head, place })?;
        }
        run = run_start(is_free, run, place + 1);
    }
    Ok(pending)
}

// The first record of the group. An empty group has none, and is not written.
fn head_of(group: &GroupAt) -> Option<KeyedEntry<'_>>
    ensures { result ≡ head group.now }
{
    match group {
        GroupAt::Single(entry) => Some(KeyedEntry::new(entry)),
        GroupAt::Rec(entries) => first_of(entries.as_slice()),
    }
}

fn first_of(entries: &[EntryAt]) -> Option<KeyedEntry<'_>>
    ensures { result ≡ slice_get entries.now 0 }
{
    match entries {
        [] => None,
        [entry, ..] => Some(KeyedEntry::new(entry)),
    }
}

// Where the run of a group begins: a group that isn't free is a run of its own.
fn run_start(is_free: bool, run: usize, place: usize) -> usize
    ensures { result ≡ cond is_free run place }
{
    if is_free { run } else { place }
}

fn places_of(alloc: Global, pending: &[PendingGroup<'_>]) -> Result<Vec<usize>, AllocError>
    ensures { IfOk result (λ v. v.items ≡ places_of pending.now) }
{
    pending.iter().map(|group| group.place).collect(alloc)
}
