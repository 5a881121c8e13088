//! Sections with maps that are normal forms, and some that keep all laws but one.
use crate::assertions::is_right;
use crate::fixtures::{columns, entry, numbers_again, section, single};
use std::alloc::{AllocError, Global};
use std::process::Abort;
use walrus_types::{EntryAt, GroupAt, Listed, is_normal_form};

// A name, a section, an output, and the new index of each type of the section.
//
// Normal forms that are tried beside outputs with other contents.
const WORKED: &str = "\
nothing                              |            |            |
an empty rec                         | ( )        |            |
neighbours are sorted                | si f       | f si       | 1 0
also by finality                     | si oi      | oi si      | 1 0
a rec and a single of its kind       | ( f ) f    | ( f ) f    | 0 1
and singles on both sides            | f ( f ) f  | f ( f )    | 0 1 0
singles that name themselves         | s0 s1      | s0 s1      | 0 1
one that does not, and one that does | si s1      | si s1      | 0 1
longer ones                          | s0i s1     | s0i s1     | 0 1
a single that names itself is sorted | s0 si      | si s1      | 1 0
singles on both sides of a rec       | si ( b ) f | si ( b ) f | 0 1 2
and of one that names another        | si f0 f    | si f0 f    | 0 1 2
repeats are dropped                  | f f s0 s1  | f s0       | 0 0 1 1
";

// First definitions and `Rec`s that are not kept. Then, for some laws, a section and a map that keep
// every other law, and would be a second normal form without it. Then anchors that leave their
// places, or are passed, and types that name themselves and are merged, or sorted by the wrong names.
// Of the last row, the last two types are the same only once the first two are one.
const REFUSED: &str = "\
definitions go where the map sends them           | si f       | f si       | 0 1
the map is whole                                  | si f       | f si       | 1
members of recs are kept                          | ( f ) f    | ( f )      | 0 0
also behind a single                              | f ( f ) f  | f ( f )    | 0 1 1
a map has one number for each index               |            |            | 7
a map points into the output                      | g          |            | 0
definitions are kept                              | f          | s          | 0
recs are kept                                     | ( f )      | f          | 0
no single repeats another                         | f f        | f f        | 1 0
a single before a rec of its kind                 | ( f ) f    | f ( f )    | 1 0
and behind one                                    | f ( f ) f  | ( f ) f    | 1 0 1
singles around a rec: both                        | si ( b ) f | f ( b ) si | 2 1 0
singles around a rec: the second                  | si ( b ) f | si f ( b ) | 0 2 1
singles around a rec: both before it              | si ( b ) f | f si ( b ) | 1 2 0
singles around a rec: the first                   | si ( b ) f | ( b ) si f | 1 0 2
singles around a rec: both behind it              | si ( b ) f | ( b ) f si | 2 0 1
singles around a namer: both                      | si f0 f    | f f2 si    | 2 1 0
singles around a namer: the second                | si f0 f    | si f f0    | 0 2 1
singles around a namer: both before it            | si f0 f    | f si f1    | 1 2 0
singles around a namer: the first                 | si f0 f    | f1 si f    | 1 0 2
singles around a namer: both behind it            | si f0 f    | f2 f si    | 2 0 1
repeated singles behind their namers              | f f s0 s1  | s1 f       | 1 1 0 0
self namers are not merged                        | s0 s1      | s0         | 0 0
self namers are not moved                         | s0 s1      | s0 s1      | 1 0
self namers are not ordered by the names they get | s0i s1     | s0 s1i     | 1 0
repeats that read differently go                  | f f s0 s1  | f s0 s0    | 0 0 1 2
";

// Sections that are not their own normal form: the result of a program that leaves them as they are
// read.
const AS_READ: &str = "\
an empty rec goes                        | ( )       | ( )       |
a greater neighbour does not stay first  | si f      | si f      | 0 1
a greater self namer does not stay first | s0 si     | s0 si     | 0 1
repeats go                               | f ( f ) f | f ( f ) f | 0 1 2
also if they are named                   | f f s0 s1 | f f s0 s1 | 0 1 2 3
what is final does not stay first        | si oi     | si oi     | 0 1
";

fn is_form(alloc: Global, text: &str, output: &[GroupAt], map: &str) -> Result<bool, AllocError> {
    let groups = section(alloc, text)?;
    let map = numbers_again(alloc, map)?;
    is_normal_form(alloc, groups.as_slice(), output, map.as_slice())
}

// Whether the output, with this map, is a normal form of the section.
fn accepts(alloc: Global, [text, output, map]: [&str; 3]) -> Result<bool, AllocError> {
    let output = section(alloc, output)?;
    is_form(alloc, text, output.as_slice(), map)
}

// Whether the output with an entry too many is.
fn accepts_one_more(alloc: Global, [text, output, map]: [&str; 3]) -> Result<bool, AllocError> {
    let mut output = section(alloc, output)?;
    output.push(single(alloc, "b")?)?;
    is_form(alloc, text, output.as_slice(), map)
}

fn entries(alloc: Global, text: &str) -> Result<Vec<EntryAt>, AllocError> {
    let mut entries = Vec::new(alloc);
    for word in text.split_whitespace() {
        if word != "(" && word != ")" {
            entries.push(entry(alloc, word)?)?;
        }
    }
    Ok(entries)
}

// Whether one `Rec` of all entries of the output is.
fn accepts_one_rec(alloc: Global, [text, output, map]: [&str; 3]) -> Result<bool, AllocError> {
    let rec = GroupAt::Rec(Listed::from_vec(entries(alloc, output)?));
    is_form(alloc, text, &[rec], map)
}

#[test]
fn all_other_outputs_are_refused(rt: HostRuntime) {
    for row in REFUSED.lines() {
        let [name, text, output, map, _] = columns(row);
        is_right(
            &rt,
            name,
            accepts(rt.alloc(), [text, output, map]) == Ok(false),
        );
    }
}

// One `Rec` of all entries is none either, nor the output with an entry too many.
#[test]
fn worked_normal_forms_are_accepted(rt: HostRuntime) {
    for row in WORKED.lines() {
        let [name, text, output, map, _] = columns(row);
        let row = [text, output, map];
        is_right(&rt, name, accepts(rt.alloc(), row) == Ok(true));
        is_right(&rt, name, accepts_one_rec(rt.alloc(), row) == Ok(false));
        is_right(&rt, name, accepts_one_more(rt.alloc(), row) == Ok(false));
    }
}

#[test]
fn sections_as_they_are_read_are_refused(rt: HostRuntime) {
    for row in AS_READ.lines() {
        let [name, text, output, map, _] = columns(row);
        let row = [text, output, map];
        is_right(&rt, name, accepts(rt.alloc(), row) == Ok(false));
        is_right(&rt, name, accepts_one_rec(rt.alloc(), row) == Ok(false));
    }
}
