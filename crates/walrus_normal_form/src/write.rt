//! Writing the groups of a section that was read.
ghost use Rattle.std.specs.Prelude.{◌≡◌, ◌+◌, ◌<◌, ◌≤◌, ◌^◌, ◌⊎◌, ℕ, List, Some, All, IfOk, length, map, slice_get};
ghost use Rattle.walrus_ty.specs.Groups.{Section};
ghost use Rattle.walrus_ty.specs.Records.{group_of, section_of};
ghost use Rattle.walrus_sections.specs.FirstError.{definitions_of};
ghost use Rattle.walrus_sections.specs.NormalForm.{image, IsNormalForm};
ghost use Rattle.walrus_normal_form.specs.declared.slot_group.SlotGroup.{SlotGroup};
ghost use Rattle.walrus_normal_form.specs.Steps.ReadSections.{IsReadAs, slot_group_at};
ghost use Rattle.walrus_normal_form.specs.Steps.WrittenRecords.{AreNumbered, CanBeWritten, groups_at, rename_group, slots_in};

use crate::order::writing_order;
use crate::rename::rename_index;
use crate::rename_group::rename_group;
use crate::slot_group::{ReadSection, SlotGroup};
use std::alloc::{AllocError, Global};
use std::mem;
use walrus_ty::{GroupAt, Listed};

/// Writes a section that was read as its normal form, with the new index of each index. It takes
/// memory for lists alone, and none for a record.
pub(crate) fn write_section(
    alloc: Global,
    read: ReadSection,
) -> Result<(Vec<GroupAt>, Vec<u32>), AllocError>
    requires { (section : Section) × IsReadAs section read.slots.items read.groups.items }
    ensures { (section : Section) → IsReadAs section read.slots.items read.groups.items →
        IfOk result (λ r. IsNormalForm section (section_of r.0.items) r.1.items) }
{
    let ReadSection { slots, groups } = read;
    let order = writing_order(alloc, groups.as_slice())?;
    let (normal, new_index) = write_groups(alloc, groups, order.as_slice(), slots.len())?;
    let map = new_indices(slots, new_index.as_slice());
    Ok((normal, map))
}

// The records of the groups at these places, and the new index of each slot. There are `count`
// slots.
fn write_groups(
    alloc: Global,
    mut groups: Vec<SlotGroup>,
    order: &[usize],
    count: usize,
) -> Result<(Vec<GroupAt>, Vec<u32>), AllocError>
    requires { CanBeWritten groups.items order.now count }
    ensures numbered { IfOk result
        (λ r. AreNumbered (slots_in (groups_at groups.items order.now)) r.1.items) }
    ensures renamed { IfOk result
        (λ r. section_of r.0.items ≡ map (λ (g : SlotGroup).
        rename_group (image r.1.items) (group_of g.group)) (groups_at groups.items order.now)) }
{
    let mut new_index = vec![in alloc; 0; count]?;
    let mut next = 0;
    let mut written = Vec::with_capacity(alloc, order.len())?;
    for place in order {
        let SlotGroup { first, mut group } = take_group(alloc, &mut groups, *place);
        next = give_indices(&mut new_index, first, entry_count(&group), next);
        rename_group(&mut group, new_index.as_slice());
        written.push(group)?;
    }
    Ok((written, new_index))
}

// Takes the group at this place out of the list, and leaves an empty one there.
fn take_group(alloc: Global, groups: &mut Vec<SlotGroup>, place: usize) -> SlotGroup
    requires { place < length groups.old.items }
    ensures group { result ≡ slot_group_at groups.old.items place }
    ensures long { length groups.new.items ≡ length groups.old.items }
    ensures others { (i : ℕ) → ¬ (i ≡ place) →
        slot_group_at groups.new.items i ≡ slot_group_at groups.old.items i }
{
    let none = SlotGroup {
        first: 0,
        group: GroupAt::Rec(Listed::from_vec(Vec::new(alloc))),
    };
    mem::replace(&mut groups[place], none)
}

fn entry_count(group: &GroupAt) -> usize
    ensures { result ≡ length (definitions_of (group_of group.now)) }
{
    match group {
        GroupAt::Single(_) => 1,
        GroupAt::Rec(entries) => entries.len(),
    }
}

// Gives the indices from `next` on to `count` slots, from `first` on. Returns the index that comes
// after them.
fn give_indices(new_index: &mut Vec<u32>, first: u32, count: usize, next: u32) -> u32
    requires within { (t : ℕ) → t < count → first + t < length new_index.old.items }
    requires few { next + count < 2 ^ 32 }
    ensures next { result ≡ next + count }
    ensures long { length new_index.new.items ≡ length new_index.old.items }
    ensures given { (t : ℕ) → t < count →
        slice_get new_index.new.items (first + t) ≡ Some (next + t) }
    ensures kept { (i : ℕ) → (i < first) ⊎ (first + count ≤ i) →
        slice_get new_index.new.items i ≡ slice_get new_index.old.items i }
{
    let first = first as usize;
    let mut index = next;
    for slot in first..first + count {
        new_index[slot] = index;
        index += 1;
    }
    index
}

// The new index of each of these slots, in place of the slot.
fn new_indices(mut slots: Vec<u32>, new_index: &[u32]) -> Vec<u32>
    ensures { result.items ≡ map (image new_index.now) slots.items }
{
    for at in 0..slots.len() {
        slots[at] = rename_index(slots[at], new_index);
    }
    slots
}
