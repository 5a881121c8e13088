//! Laws of type sections and of tables. Each function does nothing, or returns what its clause
//! speaks of. Its clauses are theorems, which a caller gets by calling it.
//!
//! A section is the list of the contents of its recursion groups, as `section_of` gives them for a
//! list of `GroupAt`.
ghost use Rattle.std.specs.Prelude.{◌≡◌, ◌≤◌, ◌<◌, ◌^◌, All, IsSome, List, false, length, map, ℕ};
ghost use Rattle.walrus_types.specs.TableEmission.{IsEmitted, table_view, written_types};
ghost use Rattle.walrus_ty.specs.Indices.{IndexMap};
ghost use Rattle.walrus_ty.specs.Lookups.{value_or_zero};
ghost use Rattle.walrus_sections.specs.NormalForm.{IsNormalForm};
ghost use Rattle.walrus_types.specs.ReaderState.{IsReadInto};
ghost use Rattle.walrus_sections.specs.Refusal.{IsMissing, NameUse};
ghost use Rattle.walrus_types.specs.Table.{Table, rec_group_at};
ghost use Rattle.walrus_ty.specs.declared.records.GroupAt.{GroupAt};
ghost use Rattle.walrus_ty.specs.Records.{section_of};
ghost use Rattle.walrus_ty.specs.Groups.{Section};
ghost use Rattle.walrus_sections.specs.Section.{IsWellNamed};

pub mod calls;

pub use crate::table::every_table_is_sound;
pub use walrus_sections::laws::{
    equal_outputs_by_moves, first_error_decides, names_stand_before, normal_form_stays,
    one_candidate, one_normal_form, output_exists, read_then_emitted, second_round,
    swap_keeps_output, worked_sections,
};
pub use walrus_ty::laws::{
    contents_tell_records, definitions_in_order, entries_in_order, reference_constant, same_text,
    text_tells_value_types, types_in_order, value_types_in_order,
};

/// A table that a section was read into is written as the normal form of the section; each index
/// goes where its slot goes, which has an index.
pub fn read_table_is_written()
    ensures normal { (s : Section) (t : Table) (ids : List ℕ) (out : List GroupAt) (x : IndexMap) →
        IsReadInto s t ids → IsEmitted t out x →
        IsNormalForm s (section_of out) (map (value_or_zero x.index) ids) }
    ensures indexed { (s : Section) (t : Table) (ids : List ℕ) (out : List GroupAt)
        (x : IndexMap) → IsReadInto s t ids → IsEmitted t out x →
        All (λ id. IsSome (x.index id)) ids }
{}

/// A table that a section was read into can be written: each name has an index when it is written,
/// and 32 bits count the types.
pub fn read_table_can_be_written()
    ensures named { (s : Section) (t : Table) (ids : List ℕ) (name : NameUse) →
        IsReadInto s t ids → ¬ (IsMissing (table_view t) name) }
    ensures few { (s : Section) (t : Table) (ids : List ℕ) → IsReadInto s t ids →
        written_types t < 2 ^ 32 }
{}

/// A table that is emitted is written as a section that can be read: no name points past its own
/// group, and 32 bits count the entries.
///
/// Each group that isn't explicit has at most one type. That holds of each table that calls make
/// ([`every_table_is_sound`]), and is a premise here: two types of such a group would be written
/// apart, and the first must not name the second. Fewer than 2^32 types are written. That holds
/// wherever [`emit`](crate::ModuleTypes::emit) returns `Ok`, since it returns `TooMany` otherwise.
/// That each name has an index when it is written is part of `IsEmitted`.
pub fn emitted_section_can_be_read()
    ensures { (t : Table) (out : List GroupAt) (x : IndexMap) → IsEmitted t out x →
        ((k : ℕ) → (rec_group_at t.groups k).is_explicit ≡ false →
        length (rec_group_at t.groups k).types ≤ 1) →
        written_types t < 2 ^ 32 → IsWellNamed (section_of out) }
{}
