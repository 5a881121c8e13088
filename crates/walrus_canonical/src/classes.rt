//! Reading a section into classes of equal groups.
ghost use Rattle.std.specs.Prelude.{◌≡◌, ◌+◌, ◌<◌, ◌≤◌, ◌^◌, ◌++◌, ◌∷◌, [], length, map, slice_get, slice_set, Some, None, ◌≢◌, ℕ, Bool, List, IfOk, OnOk, if◌then◌else◌};
ghost use Rattle.std.specs.Option.{unwrap_or};
ghost use Rattle.walrus_canonical.specs.Steps.KnownClasses.{are_same, place_of};
ghost use Rattle.walrus_canonical.specs.Steps.Classes.{AreClasses, HasRead, ReadsGroup, class_at_place};
ghost use Rattle.walrus_sections.specs.Section.{IndexSpace, IsWellNamed};
ghost use Rattle.walrus_canonical.specs.Steps.Marks.{IsMarked, MarkNeeds};
ghost use Rattle.walrus_sections.specs.FirstError.{definitions_of};
ghost use Rattle.walrus_ty.specs.Records.{group_of, section_of};
ghost use Rattle.walrus_ty.specs.declared.records.EntryAt.{EntryAt};
ghost use Rattle.walrus_canonical.specs.declared.classes.Class.{Class};
ghost use Rattle.std.specs.List.{range_with_len};

use crate::entries::{entries_of, into_entries};
use crate::needed::has_needed;
use crate::renaming::{Renaming, number_after, own_base, rename_entries};
use std::alloc::{AllocError, Global};
use std::collections::HashMap;
use walrus_id::HashKeys;
use walrus_ty::{EntryAt, GroupAt, Listed};

/// The groups of a section that are equal to one another. In its records an index below
/// `own_base` is the slot of another class's member, and the others are its own members.
#[derive(Drop)]
pub(crate) struct Class {
    /// The slot of its first member. Those of the others come next.
    pub(crate) first: u32,
    /// Its records.
    pub(crate) entries: Listed<EntryAt>,
}

/// A section that was read.
#[derive(Drop)]
pub(crate) struct ReadSection {
    /// The slot of each needed index; what the others have plays no role.
    pub(crate) slots: Vec<u32>,
    /// How many slots there are.
    pub(crate) slot_count: u32,
    /// The classes of the needed groups.
    pub(crate) classes: Vec<Class>,
}

/// Reads the needed groups of a section.
pub(crate) fn read_section(
    alloc: Global,
    keys: HashKeys,
    groups: Vec<GroupAt>,
    needed: &[bool],
) -> Result<ReadSection, AllocError>
    ensures { IfOk result (λ r. (roots : List ℕ) → IsWellNamed (section_of groups.items) →
        MarkNeeds (section_of groups.items) roots needed.now →
        AreClasses (section_of groups.items) needed.now r.slots.items r.slot_count r.classes.items) }
{
    let mut reader = Reader::new(alloc, keys);
    for group in groups {
        reader.push_group(alloc, group, needed)?;
    }
    Ok(reader.finish())
}

// A section that is read group by group.
#[derive(Drop)]
struct Reader {
    // The slot of each index.
    slots: Vec<u32>,
    // How many slots there are.
    slot_count: u32,
    // The classes, without their records.
    classes: Vec<Class>,
    // The records of each class, and its place.
    known: HashMap<Listed<EntryAt>, usize, HashKeys>,
}

impl Reader {
    // A reader that has read the empty section. It takes no memory.
    fn new(alloc: Global, keys: HashKeys) -> Reader
        ensures slots { result.slots.items ≡ [] }
        ensures read { (s : IndexSpace) (marks : List Bool) → HasRead s marks result }
    {
        Reader {
            slots: Vec::new(alloc),
            slot_count: 0,
            classes: Vec::new(alloc),
            known: HashMap::with_hasher(alloc, keys),
        }
    }

    // Reads one more group. After an error the reader is of no use.
    fn push_group(
        &mut self,
        alloc: Global,
        group: GroupAt,
        needed: &[bool],
    ) -> Result<(), AllocError>
        ensures { OnOk result (ReadsGroup self.old self.new needed.now (group_of group)) }
    {
        let start = self.slots.len();
        let count = entries_of(&group).len();
        if has_needed(needed, start, start.saturating_add(count)) {
            self.push_needed(alloc, group)
        } else {
            push_slots(&mut self.slots, 0, count)?;
            Ok(())
        }
    }

    fn push_needed(&mut self, alloc: Global, group: GroupAt) -> Result<(), AllocError>
        ensures { OnOk result ((marks : List Bool) → IsMarked marks (length self.old.slots.items) →
            0 < length (definitions_of (group_of group)) →
            ReadsGroup self.old self.new marks (group_of group)) }
    {
        let mut entries = into_entries(alloc, group)?;
        let count = entries.len();
        rename_entries(
            &mut entries,
            &Renaming::new(
                number_after(0, self.slots.len()),
                self.slots.as_slice(),
                own_base(count),
            ),
        );
        let class = find_or_insert(&mut self.known, entries, self.classes.len())?;
        let first = self.first_slot(alloc, class, count)?;
        push_slots(&mut self.slots, first, count)?;
        Ok(())
    }

    // The first slot of this class. Where it is a new one, of so many records, it gets slots.
    fn first_slot(&mut self, alloc: Global, class: usize, count: usize) -> Result<u32, AllocError>
        ensures known { self.new.known.entries ≡ self.old.known.entries }
        ensures slots { self.new.slots.items ≡ self.old.slots.items }
        ensures old { (c : Class) → slice_get self.old.classes.items class ≡ Some c →
            IfOk result (λ first. first ≡ c.first) }
        ensures old_classes { class < length self.old.classes.items →
            OnOk result (self.new.classes.items ≡ self.old.classes.items) }
        ensures old_count { class < length self.old.classes.items →
            OnOk result (self.new.slot_count ≡ self.old.slot_count) }
        ensures new { length self.old.classes.items ≤ class →
            IfOk result (λ first. first ≡ self.old.slot_count) }
        ensures new_classes { length self.old.classes.items ≤ class →
            OnOk result (map (λ (c : Class). c.first) self.new.classes.items ≡
            map (λ (c : Class). c.first) self.old.classes.items ++ self.old.slot_count ∷ []) }
        ensures new_count { length self.old.classes.items ≤ class →
            self.old.slot_count + count < 2 ^ 32 →
            OnOk result (self.new.slot_count ≡ self.old.slot_count + count) }
    {
        if let Some(known) = self.classes.get(class) {
            return Ok(known.first);
        }
        let first = self.slot_count;
        self.classes.push(without_records(alloc, first))?;
        self.slot_count = number_after(first, count);
        Ok(first)
    }

    // What was read. It takes no memory.
    fn finish(self) -> ReadSection
        ensures slots { result.slots.items ≡ self.slots.items }
        ensures slot_count { result.slot_count ≡ self.slot_count }
        ensures firsts { map (λ (c : Class). c.first) result.classes.items ≡
            map (λ (c : Class). c.first) self.classes.items }
        ensures records { (c : ℕ) (class : Class) → slice_get result.classes.items c ≡ Some class →
            ((entries : List EntryAt) × (place_of self.known.entries entries ≡ Some c)) →
            place_of self.known.entries class.entries ≡ Some c }
    {
        let Reader {
            slots,
            slot_count,
            classes,
            known,
        } = self;
        ReadSection {
            slots,
            slot_count,
            classes: with_records(classes, known),
        }
    }
}

// The place that the map has for these records, or else this one, which the map then has for them.
fn find_or_insert(
    known: &mut HashMap<Listed<EntryAt>, usize, HashKeys>,
    entries: Listed<EntryAt>,
    next: usize,
) -> Result<usize, AllocError>
    ensures place { IfOk result (λ p. p ≡ unwrap_or (place_of known.old.entries entries) next) }
    ensures known { place_of known.old.entries entries ≢ None →
        OnOk result (known.new.entries ≡ known.old.entries) }
    ensures new { place_of known.old.entries entries ≡ None →
        OnOk result ((other : List EntryAt) → place_of known.new.entries other ≡
        (if are_same entries other then Some next else place_of known.old.entries other)) }
{
    match known.get(&entries) {
        Some(place) => Ok(*place),
        None => insert_new(known, entries, next),
    }
}

fn insert_new(
    known: &mut HashMap<Listed<EntryAt>, usize, HashKeys>,
    entries: Listed<EntryAt>,
    next: usize,
) -> Result<usize, AllocError>
    ensures place { IfOk result (λ p. p ≡ next) }
    ensures places { OnOk result ((other : List EntryAt) → place_of known.new.entries other ≡
        (if are_same entries other then Some next else place_of known.old.entries other)) }
{
    known.insert(entries, next)?;
    Ok(next)
}

// A class whose records are elsewhere. An empty list takes no memory.
fn without_records(alloc: Global, first: u32) -> Class
    ensures { result.first ≡ first }
{
    Class {
        first,
        entries: Listed::from_vec(Vec::new(alloc)),
    }
}

// Pushes `count` slots, from the first on.
fn push_slots(slots: &mut Vec<u32>, first: u32, count: usize) -> Result<(), AllocError>
    ensures { first + count < 2 ^ 32 →
        OnOk result (slots.new.items ≡ slots.old.items ++ range_with_len first count) }
{
    let end = number_after(first, count);
    for slot in first..end {
        slots.push(slot)?;
    }
    Ok(())
}

// The classes, where the records of each are put at its place.
fn with_records(
    mut classes: Vec<Class>,
    known: HashMap<Listed<EntryAt>, usize, HashKeys>,
) -> Vec<Class>
    ensures firsts { map (λ (c : Class). c.first) result.items ≡
        map (λ (c : Class). c.first) classes.items }
    ensures records { (c : ℕ) (class : Class) → slice_get result.items c ≡ Some class →
        ((entries : List EntryAt) × (place_of known.entries entries ≡ Some c)) →
        place_of known.entries class.entries ≡ Some c }
{
    for (entries, place) in known {
        put_records(&mut classes, place, entries);
    }
    classes
}

fn put_records(classes: &mut Vec<Class>, place: usize, entries: Listed<EntryAt>)
    ensures put { place < length classes.old.items →
        classes.new.items ≡ slice_set classes.old.items place (record {
          first = (class_at_place classes.old.items place).first;
          entries = entries;
        }) }
    ensures stays { length classes.old.items ≤ place → classes.new.items ≡ classes.old.items }
{
    if place < classes.len() {
        classes[place].entries = entries;
    }
}
