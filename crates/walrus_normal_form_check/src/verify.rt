//! A simple and slow program that decides whether a section, with a map onto it, is a normal form
//! of another section.
//!
//! It is the definition of the normal form, law by law, tried at every index and every pair of
//! indices. It takes time in the fourth power of the number of definitions. It is there to try the
//! definition on examples, and to judge other programs.
ghost use Rattle.std.specs.Prelude.{◌≡◌, IsTrue, IfOk, ◌↔◌, ℕ, ◌<◌, length};
ghost use Rattle.walrus_sections.specs.NormalForm.{IsNormalForm, IsNormal, image};
ghost use Rattle.walrus_ty.specs.Records.{section_of};
ghost use Rattle.walrus_sections.specs.Section.{IsFilled, index_space_of_places};

use crate::definitions::carries_definitions;
use crate::indices::{
    keeps_selfs, maps_below, maps_onto, sends_recs_to_recs, sends_singles_to_singles,
    takes_recs_from_recs,
};
use crate::pairs::{keeps_anchors, orders_free, singles_differ};
use crate::places::{Place, places_of};
use std::alloc::{AllocError, Global};
use walrus_ty::GroupAt;

/// Returns whether `output` is a normal form of `section`, with the map that has an index of
/// `output` for each index of `section`. Where the section is well-named there is one such output
/// and one such map, which `normalise` returns.
///
/// It takes time in the fourth power of the number of definitions. walrus has no such call.
///
/// # Errors
///
/// `AllocError` comes where memory was refused.
pub fn is_normal_form(
    alloc: Global,
    section: &[GroupAt],
    output: &[GroupAt],
    map: &[u32],
) -> Result<bool, AllocError>
    ensures { IfOk result (λ b. IsTrue b ↔
        IsNormalForm (section_of section.now) (section_of output.now) map.now) }
{
    let from = places_of(alloc, section)?;
    let to = places_of(alloc, output)?;
    if map.len() != from.len() {
        return Ok(false);
    }
    if !is_filled(output) {
        return Ok(false);
    }
    is_normal(alloc, from.as_slice(), to.as_slice(), map)
}

// Whether no `Rec` is empty.
fn is_filled(groups: &[GroupAt]) -> bool
    ensures { IsTrue result ↔ IsFilled (section_of groups.now) }
{
    for group in groups {
        if let GroupAt::Rec(entries) = group {
            if entries.as_slice().is_empty() {
                return false;
            }
        }
    }
    true
}

// Whether the laws of the normal form hold by index.
fn is_normal(
    alloc: Global,
    section: &[Place<'_>],
    output: &[Place<'_>],
    map: &[u32],
) -> Result<bool, AllocError>
    ensures { IfOk result (λ b. IsTrue b ↔
        IsNormal (index_space_of_places section.now) (index_space_of_places output.now)
        (image map.now)) }
{
    if !maps_below(section, output, map) {
        return Ok(false);
    }
    if !maps_onto(section, output, map) {
        return Ok(false);
    }
    if !sends_recs_to_recs(section, output, map) {
        return Ok(false);
    }
    if !takes_recs_from_recs(section, output) {
        return Ok(false);
    }
    if !sends_singles_to_singles(section, output, map) {
        return Ok(false);
    }
    if !singles_differ(output) {
        return Ok(false);
    }
    if !keeps_selfs(section, map) {
        return Ok(false);
    }
    if !keeps_anchors(section, map) {
        return Ok(false);
    }
    if !orders_free(section, map) {
        return Ok(false);
    }
    carries_definitions(alloc, section, output, map)
}
