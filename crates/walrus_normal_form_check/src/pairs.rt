//! The laws of the normal form that look at two indices, each by trying every pair.
ghost use Rattle.std.specs.Prelude.{◌≡◌, ℕ, ◌<◌, IsTrue, ◌↔◌, ◌⊎◌, length};
ghost use Rattle.std.specs.declared.cmp.Ordering.TheVariants.{Less};
ghost use Rattle.walrus_ty.specs.Definition.{definition_cmp};
ghost use Rattle.walrus_sections.specs.NormalForm.{IsKept, IsAnchor, AreFree, image};
ghost use Rattle.walrus_sections.specs.Section.{index_space_of_places, IsSingle};
ghost use Rattle.walrus_normal_form_check.specs.Steps.Pairs.{Differ, KeepsAnchors, OrdersFree};

use crate::anchors::{are_free, image_of, is_anchor, is_kept};
use crate::definitions::{are_same, order_of};
use crate::places::Place;
use std::cmp::Ordering;

/// Whether no lone type repeats an earlier one.
pub(crate) fn singles_differ(output: &[Place<'_>]) -> bool
    ensures { IsTrue result ↔ ((p q : ℕ) → p < q → q < length output.now →
        Differ (index_space_of_places output.now) p q) }
{
    for later in 0..output.len() {
        if !differs_from_earlier(output, later) {
            return false;
        }
    }
    true
}

fn differs_from_earlier(output: &[Place<'_>], later: usize) -> bool
    requires { later < length output.now }
    ensures { IsTrue result ↔
        ((p : ℕ) → p < later → Differ (index_space_of_places output.now) p later) }
{
    for earlier in 0..later {
        if !differ(output, earlier, later) {
            return false;
        }
    }
    true
}

fn differ(output: &[Place<'_>], earlier: usize, later: usize) -> bool
    requires earlier { earlier < length output.now }
    requires later { later < length output.now }
    ensures { IsTrue result ↔ Differ (index_space_of_places output.now) earlier later }
{
    let first = &output[earlier];
    let second = &output[later];
    match (first.rec_position(), second.rec_position()) {
        (None, None) => !are_same(first.entry(), second.entry()),
        _ => true,
    }
}

/// Whether for any two kept indices, one of which is an anchor, the earlier stays the earlier.
pub(crate) fn keeps_anchors(section: &[Place<'_>], map: &[u32]) -> bool
    ensures { IsTrue result ↔ ((i j : ℕ) → i < j → j < length section.now →
        KeepsAnchors (index_space_of_places section.now) (image map.now) i j) }
{
    for later in 0..section.len() {
        if !keeps_anchors_before(section, map, later) {
            return false;
        }
    }
    true
}

fn keeps_anchors_before(section: &[Place<'_>], map: &[u32], later: usize) -> bool
    requires { later < length section.now }
    ensures { IsTrue result ↔ ((i : ℕ) → i < later →
        KeepsAnchors (index_space_of_places section.now) (image map.now) i later) }
{
    for earlier in 0..later {
        if !keeps_anchor(section, map, earlier, later) {
            return false;
        }
    }
    true
}

fn keeps_anchor(section: &[Place<'_>], map: &[u32], earlier: usize, later: usize) -> bool
    requires earlier { earlier < length section.now }
    requires later { later < length section.now }
    ensures { IsTrue result ↔
        KeepsAnchors (index_space_of_places section.now) (image map.now) earlier
        later }
{
    let are_kept = is_kept(map, earlier) && is_kept(map, later);
    let has_anchor = is_anchor(section, map, earlier) || is_anchor(section, map, later);
    !are_kept || !has_anchor || image_of(map, earlier) < image_of(map, later)
}

/// Whether any two kept indices that are free, with no anchor between, are in the order of their
/// definitions.
pub(crate) fn orders_free(section: &[Place<'_>], map: &[u32]) -> bool
    ensures { IsTrue result ↔ ((i j : ℕ) → i < j → j < length section.now →
        OrdersFree (index_space_of_places section.now) (image map.now) i j) }
{
    for later in 0..section.len() {
        if !orders_free_before(section, map, later) {
            return false;
        }
    }
    true
}

fn orders_free_before(section: &[Place<'_>], map: &[u32], later: usize) -> bool
    requires { later < length section.now }
    ensures { IsTrue result ↔ ((i : ℕ) → i < later →
        OrdersFree (index_space_of_places section.now) (image map.now) i later) }
{
    for earlier in 0..later {
        if !orders_pair(section, map, earlier, later) {
            return false;
        }
    }
    true
}

fn orders_pair(section: &[Place<'_>], map: &[u32], earlier: usize, later: usize) -> bool
    requires earlier { earlier < length section.now }
    requires later { later < length section.now }
    ensures { IsTrue result ↔ OrdersFree (index_space_of_places section.now) (image map.now) earlier
        later }
{
    if !is_kept(map, earlier) || !is_kept(map, later) {
        return true;
    }
    if !are_free(section, map, earlier, later) {
        return true;
    }
    let is_less = is_less(section, earlier, later);
    if image_of(map, earlier) < image_of(map, later) {
        is_less
    } else {
        !is_less
    }
}

fn is_less(section: &[Place<'_>], first: usize, second: usize) -> bool
    requires first { first < length section.now }
    requires second { second < length section.now }
    ensures { IsTrue result ↔ (definition_cmp ((index_space_of_places section.now).definition first)
        ((index_space_of_places section.now).definition second) ≡ Less) }
{
    matches!(
        order_of(section[first].entry(), section[second].entry()),
        Ordering::Less
    )
}
