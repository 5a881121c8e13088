//! Canonical forms where memory is refused.
use super::*;
use crate::assertions::assert_equal;

const SECTION: &str = "one section | si f ( f ) s0 s4 | f si s1 s3 | 1 0 0 2 3";

const OF_A_ROOT: &str = "one root | 3 | f ( f si ) s1 | ( f si ) s0 | - 0 1 2";

#[test]
fn a_refused_canonical_form_comes_when_it_is_asked_for_again(rt: HostRuntime) {
    give(&rt, rt.alloc(), SECTION);
}

#[test]
fn a_refused_canonical_form_has_what_the_roots_need(rt: HostRuntime) {
    are_needed(&rt, rt.alloc(), OF_A_ROOT);
}

#[test]
fn a_refused_canonical_form_of_unknown_roots_is_its_error(rt: HostRuntime) {
    let refused = canonical_again(rt.alloc(), "f", Some(&[1])).err();
    assert_equal(&rt, refused, Some(CanonicalError::UnknownRoot { index: 1 }));
}
