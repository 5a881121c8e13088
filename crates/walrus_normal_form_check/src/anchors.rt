//! Which indices are kept under a map, and which of them keep their place.
ghost use Rattle.std.specs.Prelude.{◌≡◌, ◌<◌, IsTrue, ◌↔◌, length};
ghost use Rattle.walrus_sections.specs.NormalForm.{IsKept, IsAnchor, AreFree, image};
ghost use Rattle.walrus_sections.specs.Section.{index_space_of_places};

use crate::places::Place;

/// The number that the map has for an index.
pub(crate) fn image_of(map: &[u32], index: usize) -> usize
    ensures { result ≡ image map.now index }
{
    match map.get(index) {
        Some(image) => *image as usize,
        None => 0,
    }
}

/// Whether the map sends no smaller index to where it sends this one.
pub(crate) fn is_kept(map: &[u32], index: usize) -> bool
    ensures { IsTrue result ↔ IsKept (image map.now) index }
{
    for earlier in 0..index {
        if image_of(map, earlier) == image_of(map, index) {
            return false;
        }
    }
    true
}

/// Whether the index keeps its place: a member of a `Rec`, or a kept lone type that names another
/// index.
pub(crate) fn is_anchor(section: &[Place<'_>], map: &[u32], index: usize) -> bool
    requires { index < length section.now }
    ensures { IsTrue result ↔ IsAnchor (index_space_of_places section.now) (image map.now) index }
{
    let place = &section[index];
    match place.rec_position() {
        Some(_) => true,
        None => is_kept(map, index) && place.names_another(index),
    }
}

/// Whether there is no anchor from the one index to the other, both included.
pub(crate) fn are_free(section: &[Place<'_>], map: &[u32], first: usize, last: usize) -> bool
    requires { last < length section.now }
    ensures { IsTrue result ↔
        AreFree (index_space_of_places section.now) (image map.now) first last }
{
    for index in first..last + 1 {
        if is_anchor(section, map, index) {
            return false;
        }
    }
    true
}
