//! Reading a type section into a table of types.
ghost use Rattle.std.specs.Prelude.{◌≡◌, ◌+◌, ◌⊎◌, [], ◌∷◌, ◌++◌, List, length, map, IfOk, IfErr, OnOk, OnErr, MatchResult, None, Some};
ghost use Rattle.walrus_arena.specs.HashKeys.{fixed_hasher};
ghost use Rattle.walrus_sections.specs.declared.error.ReadError.TheVariants as error;
ghost use Rattle.walrus_ty.specs.Definition.{rename};
ghost use Rattle.walrus_ty.specs.Groups.{Section, Single, Rec};
ghost use Rattle.walrus_sections.specs.NormalForm.{image};
ghost use Rattle.walrus_ty.specs.Records.{entry_definition, group_of, section_of};
ghost use Rattle.walrus_sections.specs.FirstError.{group_error, definitions_of, IsFirstError};
ghost use Rattle.walrus_types.specs.Table.{IsSameTable};
ghost use Rattle.walrus_types.specs.Steps.TableReads.{ReadsSingle, ReadsRec, member_definition};
ghost use Rattle.walrus_types.specs.ReadResult.{type_of_definition};
ghost use Rattle.walrus_types.specs.ReaderState.{IsReadInto, IsSameState};

use crate::{
    CompositeType, EntryAt, FromRecordError, GroupAt, HashKeys, IndicesToIds, ModuleTypes,
    ReadError, Type, TypeId,
};
use std::alloc::Global;
use std::marker::Model;
use std::slice;
use walrus_sections::first_error;
use walrus_ty::SubType;

/// Reads a type section into a table of types, one recursion group after the other (WebAssembly
/// core specification, "Types", recursive types).
///
/// Each entry gets an id of its own, which is its index. A lone type that is equal to an earlier
/// lone type is sent to that one, and its own id is dead. The entries of a `Rec` are never sent
/// elsewhere.
///
/// Only names are checked. Nothing else that makes a section valid is: a supertype may be final,
/// come later in its group, or not match.
#[derive(Drop)]
pub struct SectionReader {
    types: ModuleTypes,
    ids: IndicesToIds,
}

impl Model for SectionReader {
    ghost use Rattle.walrus_types.specs.ReaderState.{ReaderState};

    ghost Value = { ReaderState };

    ghost view = { λ r. record { table = r.types; ids = r.ids.types } };
}

impl SectionReader {
    /// A reader that has read the empty section, into a table whose hash has fixed keys. It takes
    /// no memory.
    ///
    /// Fixed keys are safe where the section is trusted: see [`HashKeys`].
    pub fn new(alloc: Global) -> SectionReader
        ensures section { IsReadInto [] result.table result.ids }
        ensures keys { result.table.types.keys ≡ fixed_hasher }
    {
        SectionReader::with_hash_keys(alloc, HashKeys::fixed())
    }

    /// A reader that has read the empty section, into a table whose hash has these keys. It takes
    /// no memory. What the calls return does not depend on the keys.
    pub fn with_hash_keys(alloc: Global, keys: HashKeys) -> SectionReader
        ensures section { IsReadInto [] result.table result.ids }
        ensures keys { result.table.types.keys ≡ keys }
    {
        SectionReader {
            types: ModuleTypes::with_hash_keys(alloc, keys),
            ids: IndicesToIds::new(alloc),
        }
    }

    /// Reads one more group. On success it is appended to what was read; on failure nothing
    /// changes.
    ///
    /// # Errors
    ///
    /// `TooMany` comes where the group brings the number of entries to 2^32 or more. Otherwise
    /// `BadIndex` comes where an entry names an index at or past the group's end. It has the first
    /// such entry and the first such index in it: the composite type from left to right, then the
    /// supertype. `Memory` comes where memory was refused.
    pub fn push_group(&mut self, group: &GroupAt) -> Result<(), ReadError>
        ensures ok { (s : Section) → IsReadInto s self.old.table self.old.ids
            → OnOk result (IsReadInto (s ++ group_of group.now ∷ []) self.new.table self.new.ids) }
        ensures refusal { MatchResult result
            (λ _. group_error (length self.old.ids) (definitions_of (group_of group.now)) ≡ None)
            (λ e.
            (group_error (length self.old.ids) (definitions_of (group_of group.now)) ≡ Some e) ⊎
            ((e ≡ error.Memory) ×
            (group_error (length self.old.ids) (definitions_of (group_of group.now)) ≡ None))) }
        ensures err { OnErr result (IsSameState self.old self.new) }
        ensures keys { self.new.table.types.keys ≡ self.old.table.types.keys }
        ensures kept { (s : Section) → IsReadInto s self.old.table self.old.ids
            → OnErr result (IsReadInto s self.new.table self.new.ids) }
    {
        match group {
            GroupAt::Single(entry) => self.push_single(entry),
            GroupAt::Rec(entries) => self.push_rec(entries.as_slice()),
        }
    }

    /// Returns the table of the section that was read, and the id of each index. It takes no
    /// memory.
    pub fn finish(self) -> (ModuleTypes, Vec<TypeId>)
        ensures types { result.0 ≡ self.table }
        ensures ids { result.1.items ≡ self.ids }
    {
        (self.types, self.ids.into_types())
    }

    fn push_single(&mut self, entry: &EntryAt) -> Result<(), ReadError>
        ensures ok { (s : Section) → IsReadInto s self.old.table self.old.ids
            → OnOk result (IsReadInto
            (s ++ Single (entry_definition entry.now) ∷ []) self.new.table self.new.ids) }
        ensures refusal { MatchResult result
            (λ _. group_error (length self.old.ids) (entry_definition entry.now ∷ []) ≡ None)
            (λ e.
            (group_error (length self.old.ids) (entry_definition entry.now ∷ []) ≡ Some e) ⊎
            ((e ≡ error.Memory) ×
            (group_error (length self.old.ids) (entry_definition entry.now ∷ []) ≡ None))) }
        ensures err { OnErr result (IsSameState self.old self.new) }
        ensures keys { self.new.table.types.keys ≡ self.old.table.types.keys }
    {
        let index = self.ids.type_count();
        if let Some(refusal) = first_error(slice::from_ref(entry), index) {
            return Err(refusal);
        }
        self.ids.push_type(TypeId::from_index(index))?;
        match read_single(&mut self.types, &self.ids, entry) {
            Ok(id) => {
                self.ids.remap_type(index as u32, id);
                Ok(())
            }
            // All indices are known here, so it was memory.
            Err(_) => {
                self.ids.truncate_types(index);
                Err(ReadError::Memory)
            }
        }
    }

    fn push_rec(&mut self, entries: &[EntryAt]) -> Result<(), ReadError>
        ensures ok { (s : Section) → IsReadInto s self.old.table self.old.ids
            → OnOk result (IsReadInto
            (s ++ Rec (map entry_definition entries.now) ∷ []) self.new.table self.new.ids) }
        ensures refusal { MatchResult result
            (λ _. group_error (length self.old.ids) (map entry_definition entries.now) ≡ None)
            (λ e.
            (group_error (length self.old.ids) (map entry_definition entries.now) ≡ Some e) ⊎
            ((e ≡ error.Memory) ×
            (group_error (length self.old.ids) (map entry_definition entries.now) ≡ None))) }
        ensures err { OnErr result (IsSameState self.old self.new) }
        ensures keys { self.new.table.types.keys ≡ self.old.table.types.keys }
    {
        let first = self.ids.type_count();
        if let Some(refusal) = first_error(entries, first) {
            return Err(refusal);
        }
        self.ids.push_types(first, entries.len())?;
        match read_rec(&mut self.types, &self.ids, entries) {
            Ok(()) => Ok(()),
            // All indices are known here, so it was memory.
            Err(_) => {
                self.ids.truncate_types(first);
                Err(ReadError::Memory)
            }
        }
    }
}

// Puts a lone type into the table, with an id for each index.
fn read_single(
    types: &mut ModuleTypes,
    ids: &IndicesToIds,
    entry: &EntryAt,
) -> Result<TypeId, FromRecordError>
    ensures ok { IfOk result
        (λ id. ReadsSingle types.old types.new
        (type_of_definition (rename (image ids.now.types) (entry_definition entry.now))
        (length types.old.types.slots)) id) }
    ensures err { OnErr result (IsSameTable types.old types.new) }
    ensures keys { types.new.types.keys ≡ types.old.types.keys }
{
    let id = types.next_id();
    let alloc = types.allocator();
    let sub = SubType::from_record(alloc, entry, ids)?;
    let ty = Type::new(alloc, id, sub.kind, sub.is_final, sub.supertype);
    Ok(types.add_single(ty)?)
}

// Puts the entries of a `Rec` into the table, with an id for each index.
fn read_rec(
    types: &mut ModuleTypes,
    ids: &IndicesToIds,
    entries: &[EntryAt],
) -> Result<(), FromRecordError>
    ensures ok { OnOk result
        (ReadsRec types.old types.new
        (map (rename (image ids.now.types)) (map entry_definition entries.now))) }
    ensures err { OnErr result (IsSameTable types.old types.new) }
    ensures keys { types.new.types.keys ≡ types.old.types.keys }
{
    let members = members(types.allocator(), entries, ids)?;
    types.place_group(members)?;
    Ok(())
}

// What the entries of a `Rec` say, with an id for each index.
fn members(
    alloc: Global,
    entries: &[EntryAt],
    ids: &IndicesToIds,
) -> Result<Vec<(CompositeType, bool, Option<TypeId>)>, FromRecordError>
    ensures { IfOk result (λ members. map member_definition members.items ≡
        map (rename (image ids.now.types)) (map entry_definition entries.now)) }
{
    let mut members = Vec::with_capacity(alloc, entries.len())?;
    for entry in entries {
        let sub = SubType::from_record(alloc, entry, ids)?;
        members.push((sub.kind, sub.is_final, sub.supertype))?;
    }
    Ok(members)
}

/// Reads a whole type section. Returns the table of its types, and the id of each index. The hash
/// of the table has these keys: see [`HashKeys`].
///
/// A lone type that is equal to an earlier lone type is merged with it: both indices have one id.
/// The entries of a `Rec` are never merged.
///
/// # Errors
///
/// The first group that [`SectionReader::push_group`] refuses decides, with its error. Then there
/// is no table.
///
/// # Each index has a live type
///
/// ```
/// let (types, ids) = parse_types(alloc, HashKeys::fixed(), groups.as_slice())?;
/// assert!(rt; ids.iter().all(|id| types.contains(*id)));
/// ```
pub fn parse_types(
    alloc: Global,
    keys: HashKeys,
    groups: &[GroupAt],
) -> Result<(ModuleTypes, Vec<TypeId>), ReadError>
    ensures ok { IfOk result (λ read. IsReadInto (section_of groups.now) read.0 read.1.items) }
    ensures keys { IfOk result (λ read. read.0.types.keys ≡ keys) }
    ensures err { IfErr result (λ e. (e ≡ error.Memory) ⊎ IsFirstError (section_of groups.now) e) }
{
    let mut reader = SectionReader::with_hash_keys(alloc, keys);
    for group in groups {
        reader.push_group(group)?;
    }
    Ok(reader.finish())
}
