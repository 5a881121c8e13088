//! Reading a type section into groups whose records name slots.
ghost use Rattle.std.specs.Prelude.{◌≡◌, ◌<◌, ◌+◌, ◌^◌, ◌⊎◌, ◌++◌, ◌∷◌, [], ℕ, List, None, Some, length, map, slice_set, IfOk, IfErr, OnOk, if◌then◌else◌};
ghost use Rattle.std.specs.List.{range_with_len};
ghost use Rattle.std.specs.Option.{unwrap_or};
ghost use Rattle.walrus_ty.specs.Groups.{Section, Single, Rec};
ghost use Rattle.walrus_ty.specs.Records.{entry_definition, group_of, section_of};
ghost use Rattle.walrus_ty.specs.declared.records.GroupAt.TheVariants as group;
ghost use Rattle.walrus_sections.specs.FirstError.{definitions_of, group_error, IsFirstError};
ghost use Rattle.walrus_sections.specs.declared.error.ReadError.TheVariants as read;
ghost use Rattle.walrus_normal_form.specs.Steps.ReadSections.{IsReadAs, slot_group_at};
ghost use Rattle.walrus_normal_form.specs.Steps.SectionReaders.{IsReaderOf, IsReadSoFar, place_of};

use crate::rename::rename_entry;
use crate::rename_group::rename_entries;
use crate::slot_group::{ReadSection, SlotGroup};
use std::alloc::{AllocError, Global};
use std::collections::HashMap;
use std::slice;
use walrus_id::HashKeys;
use walrus_sections::{ReadError, first_error};
use walrus_ty::{EntryAt, GroupAt, Listed};

/// Reads a section. Each index has a slot, which a lone type shares with the earlier lone types
/// that are equal to it.
///
/// # Errors
///
/// The first group that can't be read decides, as `first_error` says. `Memory` comes where memory
/// was refused.
pub(crate) fn read_section(
    alloc: Global,
    keys: HashKeys,
    groups: Vec<GroupAt>,
) -> Result<ReadSection, ReadError>
    ensures ok { IfOk result
        (λ r. IsReadAs (section_of groups.items) r.slots.items r.groups.items) }
    ensures err { IfErr result
        (λ e. (e ≡ read.Memory) ⊎ IsFirstError (section_of groups.items) e) }
{
    let mut reader = Reader::new(alloc, keys);
    for group in groups {
        reader.push_group(alloc, group)?;
    }
    Ok(reader.finish())
}

// A section that is read group by group.
#[derive(Drop)]
struct Reader {
    // The slot of each index.
    slots: Vec<u32>,
    // The groups that have slots of their own, each lone type without its record.
    groups: Vec<SlotGroup>,
    // The record of each lone type that has a slot of its own, and the place of its group.
    lone: HashMap<EntryAt, usize, HashKeys>,
}

impl Reader {
    // A reader that has read the empty section. It takes no memory.
    fn new(alloc: Global, keys: HashKeys) -> Reader
        ensures { IsReaderOf [] result }
    {
        Reader {
            slots: Vec::new(alloc),
            groups: Vec::new(alloc),
            lone: HashMap::with_hasher(alloc, keys),
        }
    }

    // Reads one more group. After an error the reader is of no use.
    fn push_group(&mut self, alloc: Global, group: GroupAt) -> Result<(), ReadError>
        ensures ok { (s : Section) → IsReaderOf s self.old →
            OnOk result (IsReaderOf (s ++ group_of group ∷ []) self.new) }
        ensures err { IfErr result (λ e.
            ((e ≡ read.Memory) ×
            (group_error (length self.old.slots.items) (definitions_of (group_of group)) ≡ None)) ⊎
            (group_error (length self.old.slots.items) (definitions_of (group_of group)) ≡ Some e)) }
    {
        match group {
            GroupAt::Single(entry) => self.push_single(alloc, entry),
            GroupAt::Rec(entries) => self.push_rec(entries),
        }
    }

    fn push_single(&mut self, alloc: Global, mut entry: EntryAt) -> Result<(), ReadError>
        ensures ok { (s : Section) → IsReaderOf s self.old →
            OnOk result (IsReaderOf (s ++ Single (entry_definition entry) ∷ []) self.new) }
        ensures err { IfErr result (λ e.
            ((e ≡ read.Memory) ×
            (group_error (length self.old.slots.items) (entry_definition entry ∷ []) ≡ None)) ⊎
            (group_error (length self.old.slots.items) (entry_definition entry ∷ []) ≡ Some e)) }
    {
        let index = self.slots.len();
        if let Some(error) = first_error(slice::from_ref(&entry), index) {
            return Err(error);
        }
        self.slots.push(index as u32)?;
        rename_entry(&mut entry, self.slots.as_slice());
        let place = find_or_insert(&mut self.lone, entry, self.groups.len())?;
        match self.groups.get(place) {
            Some(equal) => self.slots[index] = equal.first,
            None => self.groups.push(without_record(alloc, index as u32))?,
        }
        Ok(())
    }

    fn push_rec(&mut self, mut entries: Listed<EntryAt>) -> Result<(), ReadError>
        ensures ok { (s : Section) → IsReaderOf s self.old →
            OnOk result (IsReaderOf (s ++ Rec (map entry_definition entries) ∷ []) self.new) }
        ensures err { IfErr result (λ e.
            ((e ≡ read.Memory) ×
            (group_error (length self.old.slots.items) (map entry_definition entries) ≡ None)) ⊎
            (group_error (length self.old.slots.items) (map entry_definition entries) ≡ Some e)) }
    {
        let first = self.slots.len();
        if let Some(error) = first_error(entries.as_slice(), first) {
            return Err(error);
        }
        push_slots(&mut self.slots, first as u32, entries.len() as u32)?;
        rename_entries(&mut entries, self.slots.as_slice());
        self.groups.push(SlotGroup {
            first: first as u32,
            group: GroupAt::Rec(entries),
        })?;
        Ok(())
    }

    // What was read. It takes no memory.
    fn finish(self) -> ReadSection
        requires { (s : Section) × IsReaderOf s self }
        ensures { (s : Section) → IsReaderOf s self →
            IsReadAs s result.slots.items result.groups.items }
    {
        let Reader {
            slots,
            groups,
            lone,
        } = self;
        ReadSection {
            slots,
            groups: with_records(groups, lone),
        }
    }
}

// The place that the map has for the record, or else this one, which the map then has for it.
fn find_or_insert(
    lone: &mut HashMap<EntryAt, usize, HashKeys>,
    entry: EntryAt,
    next: usize,
) -> Result<usize, ReadError>
    ensures place { IfOk result (λ p. p ≡ unwrap_or (place_of lone.old.entries entry) next) }
    ensures places { IfOk result (λ p. (other : EntryAt) → place_of lone.new.entries other ≡
        (if (⟦<EntryAt as PartialEq>⟧.eq) entry other then Some p
        else place_of lone.old.entries other)) }
    ensures err { IfErr result (λ e. e ≡ read.Memory) }
{
    Ok(*lone.entry(entry)?.or_insert(next))
}

// The group of a lone type whose record is elsewhere. An empty `Rec` takes no memory.
fn without_record(alloc: Global, first: u32) -> SlotGroup
    ensures { result.first ≡ first }
{
    SlotGroup {
        first,
        group: GroupAt::Rec(Listed::from_vec(Vec::new(alloc))),
    }
}

// Pushes `count` slots, from the first on.
fn push_slots(slots: &mut Vec<u32>, first: u32, count: u32) -> Result<(), AllocError>
    requires { first + count < 2 ^ 32 }
    ensures { OnOk result (slots.new.items ≡ slots.old.items ++ range_with_len first count) }
{
    for k in 0..count {
        slots.push(first + k)?;
    }
    Ok(())
}

// The groups, where each record is put at its place.
fn with_records(
    mut groups: Vec<SlotGroup>,
    lone: HashMap<EntryAt, usize, HashKeys>,
) -> Vec<SlotGroup>
    requires { (s : Section) × (slots : List ℕ) × IsReadSoFar s slots groups.items lone.entries }
    ensures { (s : Section) (slots : List ℕ) → IsReadSoFar s slots groups.items lone.entries →
        IsReadAs s slots result.items }
{
    for (entry, place) in lone {
        put_record(&mut groups, place, entry);
    }
    groups
}

fn put_record(groups: &mut Vec<SlotGroup>, place: usize, entry: EntryAt)
    requires { place < length groups.old.items }
    ensures { groups.new.items ≡ slice_set groups.old.items place (record {
      first = (slot_group_at groups.old.items place).first;
      group = group.Single entry;
    }) }
{
    groups[place].group = GroupAt::Single(entry);
}
