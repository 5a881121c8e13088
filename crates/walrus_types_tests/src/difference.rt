//! The first place where two sections differ.
use crate::assertions::{assert_equal, is_right};
use crate::fixtures::{columns, section};
use std::alloc::Global;
use std::process::Abort;
use walrus_types::{HashKeys, entries_before, first_difference, normalise};

// A name, two sections, and the place where they differ first, `-` for none.
const ROWS: &str = "\
equal sections differ nowhere      | f si   | f si       | -
another group is told              | f si f | f ( si ) f | 1
the end of the shorter one is told | f si   | f          | 1
also where it is empty             |        | f          | 0
";

// The sections of the row differ first at its place, in either order.
fn differ(rt: &impl Abort, alloc: Global, row: &str) {
    let [name, a, b, place, _] = columns(row);
    let first = section(alloc, a).expect(rt, "memory");
    let second = section(alloc, b).expect(rt, "memory");
    let (first, second, place) = (first.as_slice(), second.as_slice(), place.parse().ok());
    is_right(rt, name, first_difference(first, second) == place);
    is_right(rt, name, first_difference(second, first) == place);
}

#[test]
fn sections_differ_first_at_a_place(rt: HostRuntime) {
    for row in ROWS.lines() {
        differ(&rt, rt.alloc(), row);
    }
}

#[test]
fn all_entries_of_the_groups_before_count(rt: HostRuntime) {
    let section = section(rt.alloc(), "f ( si si ) ( ) si").expect(&rt, "memory");
    let groups = section.as_slice();
    let (_, places) = normalise(rt.alloc(), HashKeys::fixed(), groups).expect(&rt, "memory");
    assert_equal(&rt, places.len(), 4);
    assert_equal(&rt, groups.len(), 4);
    assert_equal(&rt, entries_before(groups, 0), 0);
    assert_equal(&rt, entries_before(groups, 1), 1);
    assert_equal(&rt, entries_before(groups, 2), 3);
    assert_equal(&rt, entries_before(groups, 3), 3);
    assert_equal(&rt, entries_before(groups, 4), 4);
}
