//! The laws of the normal form that look at one index at a time, each by trying every index.
ghost use Rattle.std.specs.Prelude.{◌≡◌, ℕ, ◌<◌, IsTrue, ◌↔◌, length, Some, false};
ghost use Rattle.walrus_ty.specs.Definition.{Names};
ghost use Rattle.walrus_sections.specs.NormalForm.{IsKept, image};
ghost use Rattle.walrus_sections.specs.Section.{index_space_of_places, IsSingle};

use crate::anchors::{image_of, is_kept};
use crate::places::{Place, rec_position_at, same_rec_position};

/// Whether the map sends each index to an index of the output.
pub(crate) fn maps_below(section: &[Place<'_>], output: &[Place<'_>], map: &[u32]) -> bool
    ensures { IsTrue result ↔ ((i : ℕ) → i < length section.now →
        image map.now i < length output.now) }
{
    for index in 0..section.len() {
        if image_of(map, index) >= output.len() {
            return false;
        }
    }
    true
}

/// Whether the map sends an index to each index of the output.
pub(crate) fn maps_onto(section: &[Place<'_>], output: &[Place<'_>], map: &[u32]) -> bool
    ensures { IsTrue result ↔ ((p : ℕ) → p < length output.now → (i : ℕ) ×
        (i < length section.now) × (image map.now i ≡ p)) }
{
    for target in 0..output.len() {
        if !has_source(section, map, target) {
            return false;
        }
    }
    true
}

fn has_source(section: &[Place<'_>], map: &[u32], target: usize) -> bool
    ensures { IsTrue result ↔ ((i : ℕ) × (i < length section.now) × (image map.now i ≡ target)) }
{
    for index in 0..section.len() {
        if image_of(map, index) == target {
            return true;
        }
    }
    false
}

/// Whether each member of a `Rec` goes to the member at the same place of the same `Rec`.
pub(crate) fn sends_recs_to_recs(section: &[Place<'_>], output: &[Place<'_>], map: &[u32]) -> bool
    ensures { IsTrue result ↔ ((i : ℕ) (x : ℕ × ℕ) → i < length section.now →
        (index_space_of_places section.now).rec_position i ≡ Some x →
        (index_space_of_places output.now).rec_position (image map.now i) ≡ Some x) }
{
    for index in 0..section.len() {
        if !keeps_rec_position(section, output, map, index) {
            return false;
        }
    }
    true
}

fn keeps_rec_position(
    section: &[Place<'_>],
    output: &[Place<'_>],
    map: &[u32],
    index: usize,
) -> bool
    ensures { IsTrue result ↔
        ((x : ℕ × ℕ) → (index_space_of_places section.now).rec_position index ≡ Some x →
        (index_space_of_places output.now).rec_position (image map.now index) ≡ Some x) }
{
    match rec_position_at(section, index) {
        None => true,
        rec_position => same_rec_position(
            rec_position,
            rec_position_at(output, image_of(map, index)),
        ),
    }
}

/// Whether each `Rec` of the output, and each member of one, is in the section too.
pub(crate) fn takes_recs_from_recs(section: &[Place<'_>], output: &[Place<'_>]) -> bool
    ensures { IsTrue result ↔ ((p : ℕ) (x : ℕ × ℕ) → p < length output.now →
        (index_space_of_places output.now).rec_position p ≡ Some x →
        (i : ℕ) × (i < length section.now) ×
        ((index_space_of_places section.now).rec_position i ≡ Some x)) }
{
    for target in 0..output.len() {
        if !comes_from_rec(section, output, target) {
            return false;
        }
    }
    true
}

fn comes_from_rec(section: &[Place<'_>], output: &[Place<'_>], target: usize) -> bool
    ensures { IsTrue result ↔
        ((x : ℕ × ℕ) → (index_space_of_places output.now).rec_position target ≡ Some x →
        (i : ℕ) × (i < length section.now) ×
        ((index_space_of_places section.now).rec_position i ≡ Some x)) }
{
    match rec_position_at(output, target) {
        Some((rec, at)) => has_rec_position(section, rec, at),
        None => true,
    }
}

fn has_rec_position(section: &[Place<'_>], rec: usize, at: usize) -> bool
    ensures { IsTrue result ↔ ((i : ℕ) × (i < length section.now) ×
        ((index_space_of_places section.now).rec_position i ≡ Some (rec, at))) }
{
    for index in 0..section.len() {
        if same_rec_position(rec_position_at(section, index), Some((rec, at))) {
            return true;
        }
    }
    false
}

/// Whether each lone type goes to a lone type.
pub(crate) fn sends_singles_to_singles(
    section: &[Place<'_>],
    output: &[Place<'_>],
    map: &[u32],
) -> bool
    ensures { IsTrue result ↔ ((i : ℕ) → i < length section.now →
        IsSingle (index_space_of_places section.now) i →
        IsSingle (index_space_of_places output.now) (image map.now i)) }
{
    for index in 0..section.len() {
        let goes_to_rec = is_in_rec(output, image_of(map, index));
        if !is_in_rec(section, index) && goes_to_rec {
            return false;
        }
    }
    true
}

/// Whether each lone type that names itself is kept.
pub(crate) fn keeps_selfs(section: &[Place<'_>], map: &[u32]) -> bool
    ensures { IsTrue result ↔ ((i : ℕ) → i < length section.now →
        IsSingle (index_space_of_places section.now) i →
        Names ((index_space_of_places section.now).definition i) i → IsKept (image map.now) i) }
{
    for index in 0..section.len() {
        if !keeps_self(section, map, index) {
            return false;
        }
    }
    true
}

fn keeps_self(section: &[Place<'_>], map: &[u32], index: usize) -> bool
    requires { index < length section.now }
    ensures { IsTrue result ↔ (IsSingle (index_space_of_places section.now) index →
        Names ((index_space_of_places section.now).definition index) index →
        IsKept (image map.now) index) }
{
    let place = &section[index];
    match place.rec_position() {
        Some(_) => true,
        None => !place.names(index) || is_kept(map, index),
    }
}

/// Whether a member of a `Rec` is at this index.
pub(crate) fn is_in_rec(places: &[Place<'_>], index: usize) -> bool
    ensures { (result ≡ false) ↔ IsSingle (index_space_of_places places.now) index }
{
    rec_position_at(places, index).is_some()
}
