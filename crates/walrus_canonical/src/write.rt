//! Writing the classes of a section that was read: of those that can be written, always the least.
ghost use Rattle.std.specs.Prelude.{◌≡◌, ◌+◌, ◌<◌, ◌≤◌, ◌++◌, ◌∷◌, ◌↔◌, OnOk, ◌^◌, ◌⊎◌, ℕ, Bool, List, [], length, map, slice_get, slice_index_or, false, IfOk, IsTrue, Some, None, if◌then◌else◌};
ghost use Rattle.walrus_ty.specs.Definition.{rename};
ghost use Rattle.walrus_ty.specs.Groups.{Section};
ghost use Rattle.walrus_ty.specs.Records.{entry_definition, group_of};
ghost use Rattle.walrus_sections.specs.Section.{IsWellNamed, index_space};
ghost use Rattle.walrus_canonical.specs.declared.classes.Class.{Class};
ghost use Rattle.walrus_canonical.specs.declared.waiting.Wait.{Wait};
ghost use Rattle.walrus_canonical.specs.Greedy.{plain_group};
ghost use Rattle.walrus_canonical.specs.Listing.{AreIndices, IsCanonical};
ghost use Rattle.walrus_canonical.specs.Steps.Classes.{AreClasses};
ghost use Rattle.walrus_canonical.specs.Steps.Marks.{MarkNeeds};
ghost use Rattle.walrus_canonical.specs.Steps.Renamings.{renamed};
ghost use Rattle.walrus_canonical.specs.Steps.Shown.{own_base, shown_definitions};
ghost use Rattle.walrus_canonical.specs.Steps.Waits.{AreCounts, AreWaits};
ghost use Rattle.walrus_canonical.specs.Steps.Writing.{CanRelease, HasWritten, IsNext, IsOpening, IsReleasing, IsWriting, IsWrittenWhole, Release, Task, release_of, with_slots};
ghost use Rattle.walrus_canonical.specs.Steps.WrittenIndices.{AreIndicesBySlot, GivesIndices};

use crate::classes::{Class, ReadSection};
use crate::entries::plain_group;
use crate::queue::ReadyQueue;
use crate::ready::ReadyGroup;
use crate::renaming::{Renaming, number_after, own_base, rename_entries};
use crate::waiting::{Waits, wait_counts, waits_of};
use std::alloc::{AllocError, Global};
use std::mem;
use walrus_ty::{EntryAt, GroupAt, Listed};

/// Writes a section that was read as its canonical form, with the new index of each index that is
/// needed.
pub(crate) fn write_section(
    alloc: Global,
    read: ReadSection,
    needed: &[bool],
) -> Result<(Vec<GroupAt>, Vec<Option<u32>>), AllocError>
    ensures { IfOk result (λ r. (section : Section) (roots : List ℕ) → IsWellNamed section →
        AreIndices section roots → MarkNeeds section roots needed.now →
        AreClasses section needed.now read.slots.items read.slot_count read.classes.items →
        IsCanonical section roots (map group_of r.0.items) r.1.items) }
{
    let ReadSection {
        slots,
        slot_count,
        classes,
    } = read;
    let (written, new_index) = write_classes(alloc, classes, slot_count, slots.len())?;
    let map = new_indices(alloc, slots.as_slice(), needed, new_index.as_slice())?;
    Ok((written, map))
}

// The classes in order, and the new index of each slot. The section has so many indices.
fn write_classes(
    alloc: Global,
    classes: Vec<Class>,
    slot_count: u32,
    index_count: usize,
) -> Result<(Vec<GroupAt>, Vec<u32>), AllocError>
    ensures { IfOk result (λ r. (task : Task) → task.classes ≡ classes.items →
        task.slot_count ≡ slot_count → (index_space task.section).count ≤ index_count →
        IsWrittenWhole task (map group_of r.0.items) r.1.items) }
{
    let class_count = classes.len();
    let waits = waits_of(alloc, classes.as_slice())?;
    let counts = wait_counts(alloc, waits.as_slice(), class_count)?;
    let writer = Writer::new(alloc, classes, counts, slot_count)?;
    let writer = writer.with_ready(alloc)?;
    let writer = writer.with_all(alloc, &waits, index_count)?;
    Ok(writer.finish())
}

// Classes of which some are written.
#[derive(Drop)]
struct Writer {
    // The classes. Those that are ready or written have no records here.
    classes: Vec<Class>,
    // How many names of each class have no new index yet.
    counts: Vec<usize>,
    // The records of each class that is ready, and its place.
    ready: ReadyQueue,
    // The new index of each slot of a class that is written.
    new_index: Vec<u32>,
    // How many indices are written.
    next: u32,
    // What is written.
    written: Vec<GroupAt>,
}

impl Writer {
    // Nothing is written or ready.
    fn new(
        alloc: Global,
        classes: Vec<Class>,
        counts: Vec<usize>,
        slot_count: u32,
    ) -> Result<Writer, AllocError>
        ensures { IfOk result (λ w. (task : Task) (waits : List Wait) → task.classes ≡ classes.items →
            task.slot_count ≡ slot_count → AreCounts waits (length classes.items) counts.items →
            IsOpening task waits 0 w) }
    {
        let new_index = vec![in alloc; 0; slot_count as usize]?;
        let written = Vec::with_capacity(alloc, classes.len())?;
        Ok(Writer {
            classes,
            counts,
            ready: ReadyQueue::new(alloc),
            new_index,
            next: 0,
            written,
        })
    }

    // Makes each class ready that waits for nothing.
    fn with_ready(self, alloc: Global) -> Result<Writer, AllocError>
        ensures { IfOk result (λ w. (task : Task) (waits : List Wait) → AreWaits task.classes waits →
            IsOpening task waits 0 self → IsWriting task waits (λ x. false) [] w) }
    {
        let mut writer = self;
        for place in 0..writer.counts.len() {
            writer.push_if_ready(alloc, place)?;
        }
        Ok(writer)
    }

    // Makes this class ready if it waits for nothing.
    fn push_if_ready(&mut self, alloc: Global, place: usize) -> Result<(), AllocError>
        ensures { OnOk result ((task : Task) (waits : List Wait) → AreWaits task.classes waits →
            place < length task.classes → IsOpening task waits place self.old →
            IsOpening task waits (place + 1) self.new) }
    {
        if waits_for_none(self.counts.as_slice(), place) {
            self.push_ready(alloc, place)
        } else {
            Ok(())
        }
    }

    // Makes this class ready.
    fn push_ready(&mut self, alloc: Global, place: usize) -> Result<(), AllocError>
        ensures ready { (c : Class) → slice_get self.old.classes.items place ≡ Some c →
            OnOk result (self.new.ready ≡ self.old.ready ++ (
              shown_definitions (map (rename (renamed (own_base (length c.entries))
                  self.old.new_index.items (own_base (length c.entries)))) (map entry_definition c.entries)),
              place,
            ) ∷ []) }
        ensures firsts { map (λ (c : Class). c.first) self.new.classes.items ≡
            map (λ (c : Class). c.first) self.old.classes.items }
        ensures others { (other : ℕ) → ¬ (other ≡ place) →
            slice_get self.new.classes.items other ≡ slice_get self.old.classes.items other }
        ensures counts { self.new.counts.items ≡ self.old.counts.items }
        ensures indices { self.new.new_index.items ≡ self.old.new_index.items }
        ensures next { self.new.next ≡ self.old.next }
        ensures written { self.new.written.items ≡ self.old.written.items }
    {
        let mut entries = take_records(alloc, &mut self.classes, place);
        let base = own_base(entries.len());
        rename_entries(
            &mut entries,
            &Renaming::new(base, self.new_index.as_slice(), base),
        );
        self.ready.push(ReadyGroup::new(entries), place)
    }

    // Writes all classes, of which the section has at most so many.
    fn with_all(self, alloc: Global, waits: &Waits, count: usize) -> Result<Writer, AllocError>
        ensures { IfOk result (λ w. (task : Task) → AreWaits task.classes waits.now →
            (index_space task.section).count ≤ count →
            IsWriting task waits.now (λ x. false) [] self →
            IsWrittenWhole task (map group_of w.written.items) w.new_index.items) }
    {
        let mut writer = self;
        for _turn in 0..count {
            writer.write_least(alloc, waits)?;
        }
        Ok(writer)
    }

    // Writes the least class that is ready, if there is one, and makes those ready that waited for it
    // alone.
    fn write_least(&mut self, alloc: Global, waits: &Waits) -> Result<(), AllocError>
        ensures { OnOk result ((task : Task) (done : ℕ → Bool) (before : Section) →
            AreWaits task.classes waits.now → IsWriting task waits.now done before self.old →
            HasWritten task waits.now done before self.old self.new) }
    {
        match self.ready.pop_least(alloc)? {
            Some((group, place)) => {
                let first = first_slot(self.classes.as_slice(), place);
                let entries = group.into_entries();
                let end = first.saturating_add(entries.len());
                self.write_group(first, entries)?;
                self.release(alloc, first, end, waits)
            }
            None => Ok(()),
        }
    }

    // Writes the group of these records, whose members have the slots from `first` on.
    fn write_group(&mut self, first: usize, entries: Listed<EntryAt>) -> Result<(), AllocError>
        ensures written { OnOk result (map group_of self.new.written.items ≡
            map group_of self.old.written.items ++
            plain_group (map (rename (renamed (own_base (length entries)) [] self.old.next))
            (map entry_definition entries)) ∷ []) }
        ensures next { self.old.next + length entries < 2 ^ 32 →
            OnOk result (self.new.next ≡ self.old.next + length entries) }
        ensures given { first + length entries ≤ length self.old.new_index.items →
            self.old.next + length entries < 2 ^ 32 →
            GivesIndices self.old.new_index.items self.new.new_index.items first (length entries)
            self.old.next }
        ensures indices { length self.new.new_index.items ≡ length self.old.new_index.items }
        ensures classes { self.new.classes.items ≡ self.old.classes.items }
        ensures counts { self.new.counts.items ≡ self.old.counts.items }
        ensures ready { self.new.ready ≡ self.old.ready }
    {
        let count = entries.len();
        give_indices(&mut self.new_index, first, count, self.next);
        self.written.push(written_group(entries, self.next))?;
        self.next = number_after(self.next, count);
        Ok(())
    }

    // The slots from `first` up to `end` are written. Makes the classes ready that waited for them
    // alone.
    fn release(
        &mut self,
        alloc: Global,
        first: usize,
        end: usize,
        waits: &Waits,
    ) -> Result<(), AllocError>
        ensures { OnOk result ((task : Task) (done : ℕ → Bool) (before : Section) →
            CanRelease task (release_of waits.now done (with_slots done first end)) →
            ((x : ℕ) → first ≤ x → x < end → done x ≡ false) →
            IsReleasing task (release_of waits.now done (with_slots done first end)) before 0 self.old →
            IsWriting task waits.now (with_slots done first end) before self.new) }
    {
        for at in waits.before(first)..waits.before(end) {
            self.wait_less(alloc, waits.as_slice()[at].waiting)?;
        }
        Ok(())
    }

    // One of the names of this class is written.
    fn wait_less(&mut self, alloc: Global, place: usize) -> Result<(), AllocError>
        ensures { OnOk result ((task : Task) (r : Release) (before : Section) (at : ℕ) →
            CanRelease task r → IsNext r at place → IsReleasing task r before at self.old →
            IsReleasing task r before (at + 1) self.new) }
    {
        if take_one(&mut self.counts, place) {
            self.push_ready(alloc, place)
        } else {
            Ok(())
        }
    }

    fn finish(self) -> (Vec<GroupAt>, Vec<u32>)
        ensures { result ≡ (self.written, self.new_index) }
    {
        let Writer {
            classes: _,
            counts: _,
            ready: _,
            new_index,
            next: _,
            written,
        } = self;
        (written, new_index)
    }
}

// Takes the records of the class at this place, or none where there is no class.
fn take_records(alloc: Global, classes: &mut Vec<Class>, place: usize) -> Listed<EntryAt>
    ensures records { (c : Class) → slice_get classes.old.items place ≡ Some c → result ≡ c.entries }
    ensures firsts { map (λ (c : Class). c.first) classes.new.items ≡
        map (λ (c : Class). c.first) classes.old.items }
    ensures others { (other : ℕ) → ¬ (other ≡ place) →
        slice_get classes.new.items other ≡ slice_get classes.old.items other }
{
    let none = Listed::from_vec(Vec::new(alloc));
    if place < classes.len() {
        mem::replace(&mut classes[place].entries, none)
    } else {
        none
    }
}

// The first slot of the class at this place.
fn first_slot(classes: &[Class], place: usize) -> usize
    ensures { (class : Class) → slice_get classes.now place ≡ Some class → result ≡ class.first }
{
    if place < classes.len() {
        classes[place].first as usize
    } else {
        0
    }
}

// Whether the count at this place is 0.
fn waits_for_none(counts: &[usize], place: usize) -> bool
    ensures zero { IsTrue result → slice_get counts.now place ≡ Some 0 }
    ensures some { result ≡ false → ¬ (slice_get counts.now place ≡ Some 0) }
{
    place < counts.len() && counts[place] == 0
}

// Lowers the count at this place. Whether it is 0 then.
fn take_one(counts: &mut Vec<usize>, place: usize) -> bool
    ensures long { length counts.new.items ≡ length counts.old.items }
    ensures there { (n : ℕ) → slice_get counts.old.items place ≡ Some (n + 1) →
        slice_get counts.new.items place ≡ Some n }
    ensures others { (other : ℕ) → ¬ (other ≡ place) →
        slice_get counts.new.items other ≡ slice_get counts.old.items other }
    ensures zero { (n : ℕ) → slice_get counts.old.items place ≡ Some (n + 1) → IsTrue result → n ≡ 0 }
    ensures some { (n : ℕ) → slice_get counts.old.items place ≡ Some (n + 1) → result ≡ false →
        ¬ (n ≡ 0) }
{
    if place >= counts.len() {
        return false;
    }
    counts[place] = counts[place].wrapping_sub(1);
    counts[place] == 0
}

// The group of these records, whose first index is `next`.
fn written_group(mut entries: Listed<EntryAt>, next: u32) -> GroupAt
    ensures { group_of result ≡ plain_group (map (rename (renamed (own_base (length entries)) [] next))
        (map entry_definition entries)) }
{
    let base = own_base(entries.len());
    rename_entries(&mut entries, &Renaming::new(base, &[], next));
    plain_group(entries)
}

// Gives the indices from `next` on to `count` slots, from `first` on.
fn give_indices(new_index: &mut Vec<u32>, first: usize, count: usize, next: u32)
    ensures long { length new_index.new.items ≡ length new_index.old.items }
    ensures given { first + count ≤ length new_index.old.items → next + count < 2 ^ 32 →
        GivesIndices new_index.old.items new_index.new.items first count next }
{
    let mut index = next;
    for slot in first..first.saturating_add(count) {
        if slot < new_index.len() {
            new_index[slot] = index;
        }
        index = index.wrapping_add(1);
    }
}

// The new index of each index that is needed, by its slot.
fn new_indices(
    alloc: Global,
    slots: &[u32],
    needed: &[bool],
    new_index: &[u32],
) -> Result<Vec<Option<u32>>, AllocError>
    ensures { IfOk result (λ v. AreIndicesBySlot slots.now needed.now new_index.now v.items) }
{
    let mut map = Vec::with_capacity(alloc, slots.len())?;
    for (at, slot) in slots.iter().enumerate() {
        map.push(index_if(is_marked(needed, at), *slot, new_index))?;
    }
    Ok(map)
}

fn is_marked(needed: &[bool], at: usize) -> bool
    ensures { result ≡ slice_index_or needed.now at false }
{
    if at < needed.len() { needed[at] } else { false }
}

fn index_if(is_needed: bool, slot: u32, new_index: &[u32]) -> Option<u32>
    ensures { result ≡ (if is_needed then slice_get new_index.now slot else None) }
{
    if is_needed {
        new_index.get(slot as usize).copied()
    } else {
        None
    }
}
