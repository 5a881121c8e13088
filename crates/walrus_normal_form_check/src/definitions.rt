//! Whether a map keeps definitions, and definitions beside each other.
ghost use Rattle.std.specs.Prelude.{◌≡◌, ℕ, ◌<◌, IsTrue, IfOk, ◌↔◌, length};
ghost use Rattle.walrus_ty.specs.Definition.{definition_cmp, rename};
ghost use Rattle.walrus_ty.specs.Records.{entry_definition};
ghost use Rattle.walrus_sections.specs.NormalForm.{image};
ghost use Rattle.walrus_sections.specs.Section.{index_space_of_places};

use crate::anchors::image_of;
use crate::places::Place;
use crate::renaming::rename_entry;
use std::alloc::{AllocError, Global};
use std::cmp::Ordering;
use walrus_ty::EntryAt;
use walrus_ty::laws::entries_in_order;

/// Whether each definition goes to itself, with its names sent through the map.
pub(crate) fn carries_definitions(
    alloc: Global,
    section: &[Place<'_>],
    output: &[Place<'_>],
    map: &[u32],
) -> Result<bool, AllocError>
    requires { (i : ℕ) → i < length section.now → image map.now i < length output.now }
    ensures { IfOk result (λ b. IsTrue b ↔
        ((i : ℕ) → i < length section.now →
        (index_space_of_places output.now).definition (image map.now i) ≡ rename (image map.now)
        ((index_space_of_places section.now).definition i))) }
{
    for index in 0..section.len() {
        if !carries_definition(alloc, section, output, map, index)? {
            return Ok(false);
        }
    }
    Ok(true)
}

fn carries_definition(
    alloc: Global,
    section: &[Place<'_>],
    output: &[Place<'_>],
    map: &[u32],
    index: usize,
) -> Result<bool, AllocError>
    requires within { index < length section.now }
    requires below { image map.now index < length output.now }
    ensures { IfOk result (λ b. IsTrue b ↔
        ((index_space_of_places output.now).definition (image map.now index) ≡
        rename (image map.now)
        ((index_space_of_places section.now).definition index))) }
{
    let rename = rename_entry(alloc, section[index].entry(), map)?;
    let carried = &output[image_of(map, index)];
    Ok(are_same(carried.entry(), &rename))
}

/// Whether two entries have the same definition.
pub(crate) fn are_same(a: &EntryAt, b: &EntryAt) -> bool
    ensures { IsTrue result ↔ (entry_definition a.now ≡ entry_definition b.now) }
{
    entries_in_order();
    a == b
}

/// How the definitions of two entries are ordered.
pub(crate) fn order_of(a: &EntryAt, b: &EntryAt) -> Ordering
    ensures { result ≡ definition_cmp (entry_definition a.now) (entry_definition b.now) }
{
    entries_in_order();
    a.cmp(b)
}
