//! What is wrong with a recursion group, before anything of it is read.
ghost use Rattle.std.specs.Prelude.{◌≡◌, ◌+◌, ◌++◌, ◌^◌, ◌<◌, ◌≤◌, nat_le, find, map, length, [], ◌∷◌, Some, if◌then◌else◌, None, option_map};
ghost use Rattle.std.specs.List.{flat_map};
ghost use Rattle.walrus_ty.specs.Value.{val_names, field_names};
ghost use Rattle.walrus_ty.specs.Definition.{composite_names, supertype_names, names_of};
ghost use Rattle.walrus_ty.specs.Records.{comp_composite, entry_definition};
ghost use Rattle.walrus_sections.specs.FirstError.{group_error, entry_limit, first_out_of_range, index_uses_from};
ghost use Rattle.walrus_sections.specs.declared.error.ReadError.TheVariants as error;

use crate::ReadError;
use walrus_ty::{CompAt, EntryAt, FieldAt, ValAt};

/// What is wrong with a group of these entries, if `start` entries come before it. `None` says that
/// it can be read.
pub fn first_error(entries: &[EntryAt], start: usize) -> Option<ReadError>
    ensures { result ≡ group_error start (map entry_definition entries.now) }
{
    match end_of(entries.len(), start) {
        Some(end) => bad_entry(entries, start, end),
        None => Some(ReadError::TooMany),
    }
}

// One past the last index of a group of `count` entries, if a section may be that long.
fn end_of(count: usize, start: usize) -> Option<u32>
    ensures { result ≡ (if nat_le entry_limit (start + count) then None else Some (start + count)) }
{
    let limit = u32::MAX as usize;
    if start <= limit && count <= limit - start {
        Some((start + count) as u32)
    } else {
        None
    }
}

fn bad_entry(entries: &[EntryAt], start: usize, end: u32) -> Option<ReadError>
    requires { start + length entries.now ≡ end }
    ensures { result ≡ option_map (λ n. error.BadIndex n.entry n.index end)
        (first_out_of_range end (index_uses_from start (map entry_definition entries.now))) }
{
    for (i, entry) in entries.iter().enumerate() {
        if let Some(index) = bad_in_entry(entry, end) {
            let entry = (start + i) as u32;
            return Some(ReadError::BadIndex { entry, index, end });
        }
    }
    None
}

// The first index at or past the end that the entry names.
#[tactic(auto, using(crate::proofs::FirstError::Search::find_in_two))]
fn bad_in_entry(entry: &EntryAt, end: u32) -> Option<u32>
    ensures { result ≡ find (nat_le end) (names_of (entry_definition entry.now)) }
{
    match bad_in_comp(&entry.comp, end) {
        Some(index) => Some(index),
        None => bad_name(entry.supertype, end),
    }
}

#[tactic(auto, using(walrus_ty::proofs::Names::InLists::field_named))]
fn bad_in_comp(comp: &CompAt, end: u32) -> Option<u32>
    ensures { result ≡ find (nat_le end) (composite_names (comp_composite comp.now)) }
{
    match comp {
        CompAt::Function { params, results } => {
            bad_in_function(params.as_slice(), results.as_slice(), end)
        }
        CompAt::Struct { fields } => bad_in_fields(fields.as_slice(), end),
        CompAt::Array { field } => bad_name(field.name(), end),
    }
}

#[tactic(auto, using(crate::proofs::FirstError::Search::find_in_two))]
fn bad_in_function(params: &[ValAt], results: &[ValAt], end: u32) -> Option<u32>
    ensures { result ≡ find (nat_le end) (flat_map val_names params.now ++
        flat_map val_names results.now) }
{
    match bad_in_vals(params, end) {
        Some(index) => Some(index),
        None => bad_in_vals(results, end),
    }
}

#[tactic(auto, using(walrus_ty::proofs::Names::InLists::val_named))]
fn bad_in_vals(vals: &[ValAt], end: u32) -> Option<u32>
    ensures { result ≡ find (nat_le end) (flat_map val_names vals.now) }
{
    for val in vals {
        if let Some(index) = bad_name(val.name(), end) {
            return Some(index);
        }
    }
    None
}

#[tactic(auto, using(walrus_ty::proofs::Names::InLists::field_named))]
fn bad_in_fields(fields: &[FieldAt], end: u32) -> Option<u32>
    ensures { result ≡ find (nat_le end) (flat_map field_names fields.now) }
{
    for field in fields {
        if let Some(index) = bad_name(field.name(), end) {
            return Some(index);
        }
    }
    None
}

// The name, if it is an index at or past the end.
fn bad_name(name: Option<u32>, end: u32) -> Option<u32>
    ensures { result ≡ find (nat_le end) (supertype_names name) }
{
    let index = name?;
    if index < end { None } else { Some(index) }
}
