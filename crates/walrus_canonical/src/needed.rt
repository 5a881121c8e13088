//! Which indices are needed.
ghost use Rattle.std.specs.Prelude.{◌≡◌, ◌+◌, ◌<◌, ◌≤◌, ◌↔◌, ℕ, true, false, List, length, map, slice_get, IsTrue, IfOk, IfErr, OnOk, Some, None, option_copied};
ghost use Rattle.walrus_sections.specs.FirstError.{definitions_of, group_error, IsFirstError};
ghost use Rattle.walrus_ty.specs.Records.{entry_definition, group_of, section_of};
ghost use Rattle.walrus_sections.specs.Section.{index_space, IsWellNamed};
ghost use Rattle.walrus_canonical.specs.Listing.{AreIndices};
ghost use Rattle.walrus_canonical.specs.Roots.{roots_or_all};
ghost use Rattle.walrus_canonical.specs.Refusals.{IsUnknownOrMemory};
ghost use Rattle.walrus_canonical.specs.Steps.Marks.{AreKnown, IsMarked, MarkNeeds, MarkRoots, Marks};

use crate::CanonicalError;
use crate::entries::entries_of;
use crate::names::push_names;
use std::alloc::{AllocError, Global};
use walrus_sections::{ReadError, first_error};
use walrus_ty::{EntryAt, GroupAt};

/// Returns the number of entries of a section that can be read (WebAssembly core specification,
/// "Modules", types).
///
/// # Errors
///
/// The first group that can't be read decides, as [`first_error`](walrus_sections::first_error) says.
/// [`canonicalise`](crate::canonicalise) has the same error.
pub fn entry_count(groups: &[GroupAt]) -> Result<usize, ReadError>
    ensures well_named { OnOk result (IsWellNamed (section_of groups.now)) }
    ensures count { IfOk result (λ n. n ≡ (index_space (section_of groups.now)).count) }
    ensures refused { IfErr result (IsFirstError (section_of groups.now)) }
{
    let mut start = 0;
    for group in groups {
        start = end_of_group(group, start)?;
    }
    Ok(start)
}

// Where a group ends that begins at `start`, if it can be read.
fn end_of_group(group: &GroupAt, start: usize) -> Result<usize, ReadError>
    ensures ok { OnOk result (group_error start (definitions_of (group_of group.now)) ≡ None) }
    ensures end { IfOk result (λ end. end ≡ start + length (definitions_of (group_of group.now))) }
    ensures err { IfErr result (λ e. group_error start (definitions_of (group_of group.now)) ≡ Some e) }
{
    end_of(entries_of(group), start)
}

// The same of these records; where they end that begin at `start`, if it can be read.
fn end_of(entries: &[EntryAt], start: usize) -> Result<usize, ReadError>
    ensures ok { OnOk result (group_error start (map entry_definition entries.now) ≡ None) }
    ensures end { IfOk result (λ end. end ≡ start + length (map entry_definition entries.now)) }
    ensures err { IfErr result (λ e. group_error start (map entry_definition entries.now) ≡ Some e) }
{
    match first_error(entries, start) {
        Some(error) => Err(error),
        None => Ok(start.saturating_add(entries.len())),
    }
}

/// Whether each index is needed: those of the roots, and with an index all of its group and all
/// that they name. Without roots all are.
///
/// # Errors
///
/// `UnknownRoot` comes where a root is no index, with the first such root.
pub(crate) fn needed_indices(
    alloc: Global,
    groups: &[GroupAt],
    count: usize,
    roots: Option<&[u32]>,
) -> Result<Vec<bool>, CanonicalError>
    requires well_named { IsWellNamed (section_of groups.now) }
    requires one_each { count ≡ (index_space (section_of groups.now)).count }
    ensures refused { IfErr result (IsUnknownOrMemory count
        (roots_or_all (section_of groups.now) (option_copied roots.entry))) }
    ensures known { OnOk result (AreIndices (section_of groups.now)
        (roots_or_all (section_of groups.now) (option_copied roots.entry))) }
    ensures needed { IfOk result (λ marks. MarkNeeds (section_of groups.now)
        (roots_or_all (section_of groups.now) (option_copied roots.entry)) marks.items) }
{
    match roots {
        None => Ok(vec![in alloc; true; count]?),
        Some(roots) => needed_by(alloc, groups, count, roots),
    }
}

// The same of these roots.
fn needed_by(
    alloc: Global,
    groups: &[GroupAt],
    count: usize,
    roots: &[u32],
) -> Result<Vec<bool>, CanonicalError>
    requires well_named { IsWellNamed (section_of groups.now) }
    requires one_each { count ≡ (index_space (section_of groups.now)).count }
    ensures refused { IfErr result (IsUnknownOrMemory count roots.now) }
    ensures known { OnOk result (AreIndices (section_of groups.now) roots.now) }
    ensures needed { IfOk result (λ marks. MarkNeeds (section_of groups.now) roots.now marks.items) }
{
    let mut needed = vec![in alloc; false; count]?;
    mark_roots(&mut needed, roots)?;
    mark_groups(alloc, &mut needed, groups)?;
    Ok(needed)
}

fn mark_roots(needed: &mut Vec<bool>, roots: &[u32]) -> Result<(), CanonicalError>
    ensures err { IfErr result (IsUnknownOrMemory (length needed.old.items) roots.now) }
    ensures known { OnOk result (AreKnown (length needed.old.items) roots.now (length roots.now)) }
    ensures ok { OnOk result (Marks needed.old.items needed.new.items
        (λ i. (k : ℕ) × (slice_get roots.now k ≡ Some i))) }
{
    for root in roots {
        if *root as usize >= needed.len() {
            return Err(CanonicalError::UnknownRoot { index: *root });
        }
        mark(needed, *root as usize);
    }
    Ok(())
}

fn mark(needed: &mut Vec<bool>, index: usize)
    ensures { Marks needed.old.items needed.new.items (λ i. i ≡ index) }
{
    if index < needed.len() {
        needed[index] = true;
    }
}

// Names point back or into the group itself, so what a group names is marked before its own group
// is visited.
fn mark_groups(alloc: Global, needed: &mut Vec<bool>, groups: &[GroupAt]) -> Result<(), AllocError>
    requires well_named { IsWellNamed (section_of groups.now) }
    requires one_each { length needed.old.items ≡ (index_space (section_of groups.now)).count }
    ensures { OnOk result ((roots : List ℕ) →
        MarkRoots (section_of groups.now) roots needed.old.items →
        MarkNeeds (section_of groups.now) roots needed.new.items) }
{
    let mut end = needed.len();
    let mut names = Vec::new(alloc);
    for group in groups.iter().rev() {
        let entries = entries_of(group);
        let start = end.saturating_sub(entries.len());
        if has_needed(needed.as_slice(), start, end) {
            mark_group(needed, start, end);
            names.clear();
            push_names(&mut names, entries)?;
            mark_names(needed, names.as_slice());
        }
        end = start;
    }
    Ok(())
}

/// Whether one of the indices from `start` up to `end` is needed.
pub(crate) fn has_needed(needed: &[bool], start: usize, end: usize) -> bool
    ensures found { IsTrue result → (i : ℕ) × (start ≤ i) × (i < end) × IsMarked needed.now i }
    ensures none { result ≡ false → (i : ℕ) → start ≤ i → i < end → ¬ (IsMarked needed.now i) }
{
    for at in start..end {
        if at < needed.len() && needed[at] {
            return true;
        }
    }
    false
}

fn mark_group(needed: &mut Vec<bool>, start: usize, end: usize)
    ensures { Marks needed.old.items needed.new.items (λ i. (start ≤ i) × (i < end)) }
{
    for at in start..end {
        mark(needed, at);
    }
}

fn mark_names(needed: &mut Vec<bool>, names: &[u32])
    ensures { Marks needed.old.items needed.new.items (λ i. (k : ℕ) × (slice_get names.now k ≡ Some i)) }
{
    for name in names {
        mark(needed, *name as usize);
    }
}
