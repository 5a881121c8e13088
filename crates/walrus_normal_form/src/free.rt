//! Which groups are free.
ghost use Rattle.std.specs.Prelude.{◌≡◌};
ghost use Rattle.std.specs.List.{list_all};
ghost use Rattle.walrus_ty.specs.Definition.{composite_names, names_of, supertype_names};
ghost use Rattle.walrus_ty.specs.Records.{comp_composite, entry_definition};
ghost use Rattle.walrus_ty.specs.Value.{field_names, val_names};
ghost use Rattle.walrus_normal_form.specs.Steps.PendingGroups.{is_free, is_own};

use crate::slot_group::SlotGroup;
use walrus_ty::{CompAt, EntryAt, FieldAt, GroupAt, ValAt};

/// Whether the group is free: it has no records, or it is a lone one that names no slot but its
/// own.
pub(crate) fn is_free_group(group: &SlotGroup) -> bool
    ensures { result ≡ is_free group.now }
{
    match &group.group {
        GroupAt::Single(entry) => entry_names_own(entry, group.first),
        GroupAt::Rec(entries) => entries.is_empty(),
    }
}

// This one and those below say whether all names in something are `own`.
#[tactic(auto, using(walrus_sections::proofs::Ordering::FreeNames::list_all_both))]
fn entry_names_own(entry: &EntryAt, own: u32) -> bool
    ensures { result ≡ list_all (is_own own) (names_of (entry_definition entry.now)) }
{
    comp_names_own(&entry.comp, own) && is_own_name(entry.supertype, own)
}

#[tactic(auto, using(walrus_sections::proofs::Ordering::FreeNames::list_all_flat_map, walrus_sections::proofs::Ordering::FreeNames::list_all_both, walrus_ty::proofs::Names::InLists::field_named))]
fn comp_names_own(comp: &CompAt, own: u32) -> bool
    ensures { result ≡ list_all (is_own own) (composite_names (comp_composite comp.now)) }
{
    match comp {
        CompAt::Function { params, results } => {
            vals_name_own(params.as_slice(), own) && vals_name_own(results.as_slice(), own)
        }
        CompAt::Struct { fields } => fields_name_own(fields.as_slice(), own),
        CompAt::Array { field } => is_own_name(field.name(), own),
    }
}

#[tactic(auto, using(walrus_ty::proofs::Names::InLists::val_named))]
fn vals_name_own(vals: &[ValAt], own: u32) -> bool
    ensures { result ≡ list_all (λ v. list_all (is_own own) (val_names v)) vals.now }
{
    vals.iter().all(|val| is_own_name(val.name(), own))
}

#[tactic(auto, using(walrus_ty::proofs::Names::InLists::field_named))]
fn fields_name_own(fields: &[FieldAt], own: u32) -> bool
    ensures { result ≡ list_all (λ f. list_all (is_own own) (field_names f)) fields.now }
{
    fields.iter().all(|field| is_own_name(field.name(), own))
}

fn is_own_name(name: Option<u32>, own: u32) -> bool
    ensures { result ≡ list_all (is_own own) (supertype_names name) }
{
    match name {
        Some(name) => name == own,
        None => true,
    }
}
