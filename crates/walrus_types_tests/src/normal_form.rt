//! Sections whose normal form is known, and refusals of sections.
mod refusals;

use crate::assertions::{assert_equal, is_right};
use crate::fixtures::{columns, entry, numbers_again, section_again};
use std::alloc::{AllocError, Global};
use std::process::Abort;
use walrus_types::{
    GroupAt, HashKeys, ReadError, is_normal_form, normalise, normalise_by_table, normalise_owned,
    parse_types,
};

// The normal form. It is asked for again after a refusal of memory.
fn normalise_again(
    alloc: Global,
    groups: &[GroupAt],
) -> Result<(Vec<GroupAt>, Vec<u32>), ReadError> {
    match normalise(alloc, HashKeys::fixed(), groups) {
        Err(ReadError::Memory) => normalise(alloc, HashKeys::fixed(), groups),
        answer => answer,
    }
}

// The same by a table.
fn normalise_by_table_again(
    alloc: Global,
    groups: &[GroupAt],
) -> Result<(Vec<GroupAt>, Vec<u32>), ReadError> {
    match normalise_by_table(alloc, HashKeys::fixed(), groups) {
        Err(ReadError::Memory) => normalise_by_table(alloc, HashKeys::fixed(), groups),
        answer => answer,
    }
}

// The same of a section that is given away. It is made again after a refusal of memory.
fn normalise_owned_again(alloc: Global, text: &str) -> Result<(Vec<GroupAt>, Vec<u32>), ReadError> {
    match normalise_owned(alloc, HashKeys::fixed(), section_again(alloc, text)?) {
        Err(ReadError::Memory) => {
            normalise_owned(alloc, HashKeys::fixed(), section_again(alloc, text)?)
        }
        answer => answer,
    }
}

// Whether the output is the normal form. It is asked for again after a refusal.
fn is_normal_again(
    alloc: Global,
    section: &[GroupAt],
    output: &[GroupAt],
    map: &[u32],
) -> Result<bool, AllocError> {
    match is_normal_form(alloc, section, output, map) {
        Ok(answer) => Ok(answer),
        Err(_) => is_normal_form(alloc, section, output, map),
    }
}

// Whether the call has returned this section and this map.
fn is(
    returned: Result<(Vec<GroupAt>, Vec<u32>), ReadError>,
    wanted: &[GroupAt],
    map: &[u32],
) -> bool {
    match returned {
        Ok((output, places)) => output.as_slice() == wanted && places.as_slice() == map,
        Err(_) => false,
    }
}

// A name, a section, its normal form, and the new index of each type.
//
// In the last five rows stands what comes out where lone types are also sent to members of `Rec`s,
// and what is sorted: each is its own normal form.
const ROWS: &str = "\
nothing gives nothing                       |            |            |
an empty rec goes                           | ( )        |            |
neighbours are sorted                       | si f       | f si       | 1 0
also by finality                            | si oi      | oi si      | 1 0
members of a rec are not shared             | ( f ) f    | ( f ) f    | 0 1
singles on both sides of it are             | f ( f ) f  | f ( f )    | 0 1 0
singles that name themselves are not shared | s0 s1      | s0 s1      | 0 1
nor sorted by the names they get            | s0i s1     | s0i s1     | 0 1
a single that names itself is sorted        | s0 si      | si s1      | 1 0
and stays then                              | si s1      | si s1      | 0 1
nothing goes past a rec                     | si ( b ) f | si ( b ) f | 0 1 2
nothing goes past one that names another    | si f0 f    | si f0 f    | 0 1 2
repeats are dropped                         | f f s0 s1  | f s0       | 0 0 1 1
also those of one that names itself         | s0 s0      | s0         | 0 0
a swap keeps the output                     | si f s0    | f si s1    | 1 0 2
of the swapped                              | f si s1    | f si s1    | 0 1 2
names follow their types                    | s0 f s2    | f s1 s2    | 1 0 2
and stay then                               | f s1 s2    | f s1 s2    | 0 1 2
an output of another rule stays             | ( f )      | ( f )      | 0
another one                                 | f ( f )    | f ( f )    | 0 1
two sorted singles stay                     | f si       | f si       | 0 1
one that names another stays                | f s0       | f s0       | 0 1
a rec whose first names its second stays    | ( s1 f )   | ( s1 f )   | 0 1
";

// Each way to the normal form of the section gives the one that is wanted, and the slow program
// agrees.
fn gives(rt: &impl Abort, alloc: Global, row: &str) {
    let [name, text, wanted, map, _] = columns(row);
    let groups = section_again(alloc, text).expect(rt, "memory");
    let wanted = section_again(alloc, wanted).expect(rt, "memory");
    let map = numbers_again(alloc, map).expect(rt, "memory");
    let (section, wanted, map) = (groups.as_slice(), wanted.as_slice(), map.as_slice());
    is_right(
        rt,
        name,
        is_normal_again(alloc, section, wanted, map) == Ok(true),
    );
    is_right(rt, name, is(normalise_again(alloc, section), wanted, map));
    is_right(
        rt,
        name,
        is(normalise_by_table_again(alloc, section), wanted, map),
    );
    is_right(
        rt,
        name,
        is(normalise_owned_again(alloc, text), wanted, map),
    );
}

// Each way to the normal form of the groups is refused, as this entry names the index, and not one
// before the end.
fn are_refused(rt: &impl Abort, alloc: Global, groups: Vec<GroupAt>, index: u32, end: u32) {
    let section = groups.as_slice();
    let wanted = Some(ReadError::BadIndex {
        entry: 0,
        index,
        end,
    });
    assert_equal(rt, normalise_again(alloc, section).err(), wanted);
    let refused = parse_types(alloc, HashKeys::fixed(), section).err();
    assert_equal(rt, refused, wanted);
    let refused = normalise_by_table(alloc, HashKeys::fixed(), section).err();
    assert_equal(rt, refused, wanted);
    let refused = normalise_owned(alloc, HashKeys::fixed(), groups).err();
    assert_equal(rt, refused, wanted);
}

fn is_refused(rt: &impl Abort, alloc: Global, text: &str, index: u32, end: u32) {
    let groups = section_again(alloc, text).expect(rt, "memory");
    are_refused(rt, alloc, groups, index, end);
}

#[test]
fn sections_have_their_normal_form(rt: HostRuntime) {
    for row in ROWS.lines() {
        gives(&rt, rt.alloc(), row);
    }
}

#[test]
fn an_index_past_its_group_is_refused(rt: HostRuntime) {
    is_refused(&rt, rt.alloc(), "s1", 1, 1);
    is_refused(&rt, rt.alloc(), "( s2 f )", 2, 2);
    is_refused(&rt, rt.alloc(), "sm", u32::MAX, 1);
}

#[test]
fn a_field_is_refused_before_a_supertype(rt: HostRuntime) {
    let mut both = entry(rt.alloc(), "s5").expect(&rt, "memory");
    both.supertype = Some(7);
    let groups = vec![in rt.alloc(); GroupAt::Single(both)].expect(&rt, "memory");
    are_refused(&rt, rt.alloc(), groups, 5, 1);
}
