//! The normal form of a type section by way of a table of types.
ghost use Rattle.std.specs.Prelude.{◌≡◌, ◌⊎◌, ℕ, List, suc, map, All, IsSome, IfOk, IfErr, OnOk};
ghost use Rattle.std.specs.List.{swap};
ghost use Rattle.walrus_ty.specs.Indices.{type_index};
ghost use Rattle.walrus_ty.specs.Lookups.{value_or_zero};
ghost use Rattle.walrus_sections.specs.declared.error.ReadError.TheVariants as read;
ghost use Rattle.walrus_sections.specs.FirstError.{IsFirstError};
ghost use Rattle.walrus_sections.specs.Moves.{IsRenumberedSwap};
ghost use Rattle.walrus_sections.specs.NormalForm.{IsNormalForm, identity};
ghost use Rattle.walrus_sections.specs.Section.{IsWellNamed};
ghost use Rattle.walrus_ty.specs.Groups.{Section};
ghost use Rattle.walrus_ty.specs.Records.{section_of};
ghost use Rattle.walrus_types.specs.ReaderState.{IsReadInto};

use crate::laws::{
    contents_tell_records, one_normal_form, read_table_can_be_written, read_table_is_written,
    second_round, swap_keeps_output,
};
use crate::{
    EmitError, GroupAt, HashKeys, IdsToIndices, ModuleTypes, ReadError, TypeId, parse_types,
};
use std::alloc::{AllocError, Global};

/// Returns the normal form of a type section, and the new index of each old index. It reads the
/// section into a table ([`parse_types`]) and emits that ([`ModuleTypes::emit`]).
///
/// This is the plain way to the normal form: what the two calls promise says what comes out.
/// [`normalise`](crate::normalise) is the fast way, which makes no table. Both have one contract,
/// so they return the same. Call the fast one, and this one to check it. That this one succeeds
/// shows that whatever can be read can be emitted.
///
/// # Errors
///
/// They are the errors of [`normalise`](crate::normalise): emission adds none.
///
/// # Both ways
///
/// ```
/// let (plain, plain_map) = normalise_by_table(alloc, HashKeys::fixed(), groups.as_slice())?;
/// let (fast, fast_map) = normalise(alloc, HashKeys::fixed(), groups.as_slice())?;
/// assert!(rt; plain == fast);
/// assert_eq!(rt; plain_map.as_slice(), fast_map.as_slice());
/// ```
pub fn normalise_by_table(
    alloc: Global,
    keys: HashKeys,
    groups: &[GroupAt],
) -> Result<(Vec<GroupAt>, Vec<u32>), ReadError>
    ensures well_named { OnOk result (IsWellNamed (section_of groups.now)) }
    ensures normal { IfOk result
        (λ r. IsNormalForm (section_of groups.now) (section_of r.0.items) r.1.items) }

    // It is the only normal form.
    ensures only_section { IfOk result
        (λ r. (n : Section) (m : List ℕ) → IsNormalForm (section_of groups.now) n m →
        n ≡ section_of r.0.items) }
    ensures only_map { IfOk result
        (λ r. (n : Section) (m : List ℕ) → IsNormalForm (section_of groups.now) n m →
        m ≡ r.1.items) }

    // A second round changes nothing.
    ensures again_well_named { IfOk result (λ r. IsWellNamed (section_of r.0.items)) }
    ensures again { IfOk result (λ r.
        IsNormalForm (section_of r.0.items) (section_of r.0.items)
        (identity (section_of r.0.items))) }

    // A renumbered swap of neighbours keeps the section.
    ensures swapped_well_named { IfOk result (λ r. (t : Section) (i : ℕ) →
        IsRenumberedSwap (section_of groups.now) t i → IsWellNamed t) }
    ensures swapped { IfOk result
        (λ r. (t : Section) (i : ℕ) → IsRenumberedSwap (section_of groups.now) t i →
        IsNormalForm t (section_of r.0.items) (swap r.1.items i (suc i))) }

    // A section that is its own normal form stays as it is.
    ensures stays { IfOk result (λ r.
        IsNormalForm (section_of groups.now) (section_of groups.now)
        (identity (section_of groups.now)) →
        r.0.items ≡ groups.now) }
    ensures stays_map { IfOk result (λ r.
        IsNormalForm (section_of groups.now) (section_of groups.now)
        (identity (section_of groups.now)) →
        r.1.items ≡ identity (section_of groups.now)) }

    // The first group that can't be read decides.
    ensures refused { IfErr result
        (λ e. (e ≡ read.Memory) ⊎ IsFirstError (section_of groups.now) e) }
{
    contents_tell_records();
    one_normal_form();
    second_round();
    swap_keeps_output();
    let (types, ids) = parse_types(alloc, keys, groups)?;
    let (normal, map) = emitted(alloc, &types, ids.as_slice())?;
    Ok((normal, map))
}

// Emits a table that a section was read into, with the new index of each index of the section.
fn emitted(
    alloc: Global,
    types: &ModuleTypes,
    ids: &[TypeId],
) -> Result<(Vec<GroupAt>, Vec<u32>), AllocError>
    requires { (section : Section) × IsReadInto section types.now ids.now }
    ensures { (section : Section) → IsReadInto section types.now ids.now →
        IfOk result (λ r. IsNormalForm section (section_of r.0.items) r.1.items) }
{
    read_table_is_written();
    read_table_can_be_written();
    match types.emit() {
        Ok((section, indices)) => {
            let map = indices_of(alloc, ids, &indices)?;
            Ok((section, map))
        }
        Err(EmitError::Memory) => Err(AllocError),
        // In a table that was read each name has an index, and there are not too many types.
        Err(EmitError::NoIndex { .. }) => unreachable!(),
        Err(EmitError::TooMany) => unreachable!(),
    }
}

// The index of each of these ids.
fn indices_of(alloc: Global, ids: &[TypeId], indices: &IdsToIndices) -> Result<Vec<u32>, AllocError>
    requires { All (λ id. IsSome (type_index indices.now id)) ids.now }
    ensures { IfOk result (λ v. v.items ≡ map (value_or_zero (type_index indices.now)) ids.now) }
{
    let mut all = Vec::with_capacity(alloc, ids.len())?;
    for id in ids {
        all.push(index_of(*id, indices))?;
    }
    Ok(all)
}

fn index_of(id: TypeId, indices: &IdsToIndices) -> u32
    requires { IsSome (type_index indices.now id) }
    ensures { result ≡ value_or_zero (type_index indices.now) id }
{
    match indices.get_type_index(id) {
        Ok(index) => index,
        Err(_) => unreachable!(),
    }
}
