//! The indices that an entry names, as a list.
ghost use Rattle.std.specs.Prelude.{◌≡◌, ◌++◌, IfOk, OnOk};
ghost use Rattle.std.specs.List.{flat_map};
ghost use Rattle.walrus_ty.specs.Definition.{names_of as all_names, composite_names, supertype_names};
ghost use Rattle.walrus_ty.specs.Records.{entry_definition, comp_composite};
ghost use Rattle.walrus_ty.specs.Value.{val_names, field_names};

use std::alloc::{AllocError, Global};
use walrus_ty::{CompAt, EntryAt, FieldAt, ValAt};

/// The indices in an entry, from left to right: first its composite type, then its supertype.
pub(crate) fn names_of(alloc: Global, entry: &EntryAt) -> Result<Vec<u32>, AllocError>
    ensures { IfOk result (λ v. v.items ≡ all_names (entry_definition entry.now)) }
{
    let mut names = Vec::new(alloc);
    add_comp(&mut names, &entry.comp)?;
    add_name(&mut names, entry.supertype)?;
    Ok(names)
}

#[tactic(auto, using(walrus_ty::proofs::Names::InLists::field_named))]
fn add_comp(names: &mut Vec<u32>, comp: &CompAt) -> Result<(), AllocError>
    ensures { OnOk result (names.new.items ≡ names.old.items ++
        composite_names (comp_composite comp.now)) }
{
    match comp {
        CompAt::Function { params, results } => {
            add_vals(names, params.as_slice())?;
            add_vals(names, results.as_slice())
        }
        CompAt::Struct { fields } => add_fields(names, fields.as_slice()),
        CompAt::Array { field } => add_name(names, field.name()),
    }
}

#[tactic(auto, using(walrus_ty::proofs::Names::InLists::val_named))]
fn add_vals(names: &mut Vec<u32>, vals: &[ValAt]) -> Result<(), AllocError>
    ensures { OnOk result (names.new.items ≡ names.old.items ++ flat_map val_names vals.now) }
{
    for val in vals {
        add_name(names, val.name())?;
    }
    Ok(())
}

#[tactic(auto, using(walrus_ty::proofs::Names::InLists::field_named))]
fn add_fields(names: &mut Vec<u32>, fields: &[FieldAt]) -> Result<(), AllocError>
    ensures { OnOk result (names.new.items ≡ names.old.items ++ flat_map field_names fields.now) }
{
    for field in fields {
        add_name(names, field.name())?;
    }
    Ok(())
}

fn add_name(names: &mut Vec<u32>, name: Option<u32>) -> Result<(), AllocError>
    ensures { OnOk result (names.new.items ≡ names.old.items ++ supertype_names name) }
{
    if let Some(index) = name {
        names.push(index)?;
    }
    Ok(())
}
