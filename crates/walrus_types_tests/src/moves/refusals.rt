//! Sections that are compared where memory is refused.
use super::*;

// Whether the sections are the same up to moves. It is asked for again after a refusal of memory.
fn are_same_again(alloc: Global, a: &str, b: &str) -> Result<bool, ReadError> {
    match are_same(alloc, a, b) {
        Err(ReadError::Memory) => are_same(alloc, a, b),
        answer => answer,
    }
}

#[test]
fn a_refused_comparison_comes_when_it_is_asked_for_again(rt: HostRuntime) {
    let alloc = rt.alloc();
    assert_equal(&rt, are_same_again(alloc, "si f", "f si f"), Ok(true));
    assert_equal(&rt, are_same_again(alloc, "si f", "f"), Ok(false));
    assert_equal(&rt, are_same_again(alloc, "s1", "si f"), bad(1));
    assert_equal(&rt, are_same_again(alloc, "si f", "s1"), bad(1));
}
