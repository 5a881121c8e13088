//! The canonical form of a type section.
ghost use Rattle.std.specs.Prelude.{◌≡◌, IfErr, IfOk, OnOk, option_copied};
ghost use Rattle.walrus_sections.specs.Section.{IsWellNamed};
ghost use Rattle.walrus_ty.specs.Records.{section_of};
ghost use Rattle.walrus_canonical.specs.Listing.{AreIndices, IsCanonical};
ghost use Rattle.walrus_canonical.specs.Refusals.{IsRefusal};
ghost use Rattle.walrus_canonical.specs.Roots.{roots_or_all};

use crate::classes::read_section;
use crate::needed::{entry_count, needed_indices};
use crate::write::write_section;
use crate::{CanonicalError, GroupAt, HashKeys};
use std::alloc::Global;

/// Returns the canonical form of a type section by WebAssembly's own equality of types, and the new
/// index of each old index (WebAssembly core specification, "Types", recursive types, and
/// "Validation", defined types). It works on the records that it is given: no table of types is made.
///
/// Two types are equal where they stand at the same place of recursion groups that are equal once
/// their indices are resolved. A lone type is a group of one. The canonical form has each needed type
/// once, a group of one as a lone type, and of all sections that have these types each once it is the
/// least: groups are compared as lists of definitions, and sections as lists of groups, as words are
/// in a dictionary.
///
/// So the meaning of no index changes, and two sections have the same canonical form exactly where
/// they have the same needed types ([`laws`](crate::laws)). Beyond that nothing is validated.
///
/// `roots` are the indices that the rest of the module names, in any order and as often as it names
/// them. Needed are the roots and, with an index, all of its group and all that these name. The others
/// have `None` as their new index. Where `roots` is `None`, all are needed.
///
/// **The new indices are not applied to anything else.** The rest of the module still names the old
/// ones, and is wrong until all of them are renumbered.
///
/// It takes n log n time for n entries, names and fields. The keys begin the hash by which equal
/// groups are found. They change how long the call takes, and no result. Fixed keys are safe where
/// the section is trusted: see [`HashKeys`].
///
/// # Errors
///
/// `Section` comes where the section can't be read: the first group that can't be read decides, as
/// [`first_error`](walrus_sections::first_error) says. Otherwise `UnknownRoot` comes where a root is
/// not below the number of entries. It has the first such root. `Memory` comes where memory was
/// refused.
///
/// # A type that names itself, alone and in a group of one
///
/// ```
/// // Both are a struct of a reference to the struct itself.
/// let groups = vec![in alloc; GroupAt::Single(names_0), GroupAt::Rec(list_of_names_1)]?;
/// let (canonical, map) = canonicalise(alloc, HashKeys::fixed(), groups, None)?;
/// assert_eq!(rt; canonical.len(), 1);
/// assert_eq!(rt; map.as_slice(), [Some(0), Some(0)].as_slice());
/// ```
pub fn canonicalise(
    alloc: Global,
    keys: HashKeys,
    groups: Vec<GroupAt>,
    roots: Option<&[u32]>,
) -> Result<(Vec<GroupAt>, Vec<Option<u32>>), CanonicalError>
    ensures well_named { OnOk result (IsWellNamed (section_of groups.items)) }
    ensures known { OnOk result (AreIndices (section_of groups.items)
        (roots_or_all (section_of groups.items) (option_copied roots.entry))) }
    ensures canonical { IfOk result (λ r. IsCanonical (section_of groups.items)
        (roots_or_all (section_of groups.items) (option_copied roots.entry))
        (section_of r.0.items) r.1.items) }
    ensures refused { IfErr result (IsRefusal (section_of groups.items)
        (roots_or_all (section_of groups.items) (option_copied roots.entry))) }
{
    let count = entry_count(groups.as_slice())?;
    let needed = needed_indices(alloc, groups.as_slice(), count, roots)?;
    let read = read_section(alloc, keys, groups, needed.as_slice())?;
    let (canonical, map) = write_section(alloc, read, needed.as_slice())?;
    Ok((canonical, map))
}
