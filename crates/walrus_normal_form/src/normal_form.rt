//! The normal form of a type section.
ghost use Rattle.std.specs.Prelude.{◌≡◌, ◌<◌, ◌≤◌, ◌^◌, ◌⊎◌, ◌↔◌, ℕ, List, suc, map, All, IfOk, IfErr, OnOk};
ghost use Rattle.std.specs.List.{swap};
ghost use Rattle.walrus_sections.specs.declared.error.ReadError.TheVariants as read;
ghost use Rattle.walrus_sections.specs.FirstError.{IsFirstError};
ghost use Rattle.walrus_sections.specs.Moves.{IsRenumberedSwap};
ghost use Rattle.walrus_sections.specs.NormalForm.{IsNormalForm, identity};
ghost use Rattle.walrus_sections.specs.Section.{IsWellNamed};
ghost use Rattle.walrus_ty.specs.Groups.{Section};
ghost use Rattle.walrus_ty.specs.Records.{section_of};

use crate::read::read_section;
use crate::write::write_section;
use crate::{GroupAt, HashKeys, ReadError};
use std::alloc::{AllocError, Global};
use walrus_sections::laws::{one_normal_form, second_round, swap_keeps_output};
use walrus_ty::laws::contents_tell_records;

/// Returns the normal form of a type section, and the new index of each old index (WebAssembly core
/// specification, "Types", recursive types). It works on a copy of the records: no table of types is
/// made.
///
/// Equal lone types are merged, and lone types are sorted as far as references allow. Recursion
/// groups keep their order and are never merged. A `Rec` of one type is not the lone type: both
/// stay, although WebAssembly treats them as equal. Nothing else is validated.
///
/// **The map is not applied to anything else.** The rest of the module still names the old indices:
/// imports, functions, code and other sections. The module is wrong until they are all renumbered.
///
/// The keys begin the hash by which equal types are found. They change how long the call takes, and
/// no result. Fixed keys are safe where the section is trusted: see [`HashKeys`].
///
/// # Errors
///
/// The first group that can't be read decides. `TooMany` comes where the section has 2^32 entries
/// or more by the group's end. Otherwise `BadIndex` comes where one of its entries names an index
/// at or past the group's end. `Memory` comes where memory was refused. No other section is
/// refused.
///
/// # A struct and a function type change places
///
/// ```
/// let groups = [GroupAt::Single(structure), GroupAt::Single(function)];
/// let (output, map) = normalise(alloc, HashKeys::fixed(), &groups)?;
/// assert_eq!(rt; map.as_slice(), [1, 0].as_slice());
/// ```
pub fn normalise(
    alloc: Global,
    keys: HashKeys,
    groups: &[GroupAt],
) -> Result<(Vec<GroupAt>, Vec<u32>), ReadError>
    ensures well_named { OnOk result (IsWellNamed (section_of groups.now)) }
    ensures normal { IfOk result
        (λ r. IsNormalForm (section_of groups.now) (section_of r.0.items) r.1.items) }

    // It is the only normal form.
    ensures only_section { IfOk result
        (λ r. (n : Section) (m : List ℕ) → IsNormalForm (section_of groups.now) n m →
        n ≡ section_of r.0.items) }
    ensures only_map { IfOk result
        (λ r. (n : Section) (m : List ℕ) → IsNormalForm (section_of groups.now) n m →
        m ≡ r.1.items) }

    // A second round changes nothing.
    ensures again_well_named { IfOk result (λ r. IsWellNamed (section_of r.0.items)) }
    ensures again { IfOk result (λ r.
        IsNormalForm (section_of r.0.items) (section_of r.0.items)
        (identity (section_of r.0.items))) }

    // A renumbered swap of neighbours keeps the section.
    ensures swapped_well_named { IfOk result (λ r. (t : Section) (i : ℕ) →
        IsRenumberedSwap (section_of groups.now) t i → IsWellNamed t) }
    ensures swapped { IfOk result
        (λ r. (t : Section) (i : ℕ) → IsRenumberedSwap (section_of groups.now) t i →
        IsNormalForm t (section_of r.0.items) (swap r.1.items i (suc i))) }

    // A section that is its own normal form stays as it is.
    ensures stays { IfOk result (λ r.
        IsNormalForm (section_of groups.now) (section_of groups.now)
        (identity (section_of groups.now)) →
        r.0.items ≡ groups.now) }
    ensures stays_map { IfOk result (λ r.
        IsNormalForm (section_of groups.now) (section_of groups.now)
        (identity (section_of groups.now)) →
        r.1.items ≡ identity (section_of groups.now)) }

    // The first group that can't be read decides.
    ensures refused { IfErr result
        (λ e. (e ≡ read.Memory) ⊎ IsFirstError (section_of groups.now) e) }
{
    let copy = copy_of(alloc, groups)?;
    normalise_owned(alloc, keys, copy)
}

/// Returns the same as [`normalise`], of a section that is no longer needed. Its records become
/// those of the normal form, so no memory is taken for a record.
///
/// # Errors
///
/// They are the errors of [`normalise`].
pub fn normalise_owned(
    alloc: Global,
    keys: HashKeys,
    groups: Vec<GroupAt>,
) -> Result<(Vec<GroupAt>, Vec<u32>), ReadError>
    ensures well_named { OnOk result (IsWellNamed (section_of groups.items)) }
    ensures normal { IfOk result
        (λ r. IsNormalForm (section_of groups.items) (section_of r.0.items) r.1.items) }

    // It is the only normal form.
    ensures only_section { IfOk result
        (λ r. (n : Section) (m : List ℕ) → IsNormalForm (section_of groups.items) n m →
        n ≡ section_of r.0.items) }
    ensures only_map { IfOk result
        (λ r. (n : Section) (m : List ℕ) → IsNormalForm (section_of groups.items) n m →
        m ≡ r.1.items) }

    // A second round changes nothing.
    ensures again_well_named { IfOk result (λ r. IsWellNamed (section_of r.0.items)) }
    ensures again { IfOk result (λ r.
        IsNormalForm (section_of r.0.items) (section_of r.0.items)
        (identity (section_of r.0.items))) }

    // A renumbered swap of neighbours keeps the section.
    ensures swapped_well_named { IfOk result (λ r. (t : Section) (i : ℕ) →
        IsRenumberedSwap (section_of groups.items) t i → IsWellNamed t) }
    ensures swapped { IfOk result
        (λ r. (t : Section) (i : ℕ) → IsRenumberedSwap (section_of groups.items) t i →
        IsNormalForm t (section_of r.0.items) (swap r.1.items i (suc i))) }

    // A section that is its own normal form stays as it is.
    ensures stays { IfOk result (λ r.
        IsNormalForm (section_of groups.items) (section_of groups.items)
        (identity (section_of groups.items)) →
        r.0.items ≡ groups.items) }
    ensures stays_map { IfOk result (λ r.
        IsNormalForm (section_of groups.items) (section_of groups.items)
        (identity (section_of groups.items)) →
        r.1.items ≡ identity (section_of groups.items)) }

    // The first group that can't be read decides.
    ensures refused { IfErr result
        (λ e. (e ≡ read.Memory) ⊎ IsFirstError (section_of groups.items) e) }
{
    contents_tell_records();
    one_normal_form();
    second_round();
    swap_keeps_output();
    let read = read_section(alloc, keys, groups)?;
    let (normal, map) = write_section(alloc, read)?;
    Ok((normal, map))
}

fn copy_of(alloc: Global, groups: &[GroupAt]) -> Result<Vec<GroupAt>, AllocError>
    ensures { IfOk result (λ copy. copy.items ≡ groups.now) }
{
    groups.to_vec(alloc)
}
