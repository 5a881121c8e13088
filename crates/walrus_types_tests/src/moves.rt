//! Sections that moves join, and sections that differ.
mod refusals;

use crate::assertions::{assert_equal, is_right};
use crate::fixtures::{columns, section};
use std::alloc::Global;
use std::process::Abort;
use walrus_types::{HashKeys, ReadError, same_up_to_moves};

fn are_same(alloc: Global, a: &str, b: &str) -> Result<bool, ReadError> {
    let first = section(alloc, a)?;
    let second = section(alloc, b)?;
    same_up_to_moves(
        alloc,
        HashKeys::fixed(),
        first.as_slice(),
        second.as_slice(),
    )
}

// A name, and two sections.
const SAME: &str = "\
empty recs go                                 | ( ) f   | f
repeats go                                    | f f s1  | f s0
neighbours that name themselves change places | si0 sl1 | sl0 si1
exact references come after others            | sx s1   | s0 sy
";

const DIFFERENT: &str = "\
neighbours whose order hangs on their places stay | s0 s1i   | s0i s1
a single is no member                             | ( f ) f  | ( f )
a single does not go past a member                | si ( f ) | ( f ) si
a name                                            | f si s0  | f si s1
a cut                                             | ( f si ) | ( f ) ( si )
finality                                          | si       | oi
";

// Whether the two sections of each row are the same, in either order.
fn are_all(rt: &impl Abort, alloc: Global, rows: &str, same: bool) {
    for row in rows.lines() {
        let [name, a, b, ..] = columns(row);
        is_right(rt, name, are_same(alloc, a, b) == Ok(same));
        is_right(rt, name, are_same(alloc, b, a) == Ok(same));
    }
}

#[test]
fn sections_that_moves_join(rt: HostRuntime) {
    are_all(&rt, rt.alloc(), SAME, true);
}

#[test]
fn sections_that_differ(rt: HostRuntime) {
    are_all(&rt, rt.alloc(), DIFFERENT, false);
}

fn bad(index: u32) -> Result<bool, ReadError> {
    Err(ReadError::BadIndex {
        entry: 0,
        index,
        end: 1,
    })
}

#[test]
fn the_first_refusal_is_answered(rt: HostRuntime) {
    let alloc = rt.alloc();
    assert_equal(&rt, are_same(alloc, "s1", ""), bad(1));
    assert_equal(&rt, are_same(alloc, "", "s1"), bad(1));
    assert_equal(&rt, are_same(alloc, "s1", "s2"), bad(1));
}
