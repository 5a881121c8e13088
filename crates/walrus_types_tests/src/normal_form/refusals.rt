//! Sections that are normalised and judged where memory is refused.
use super::*;

#[test]
fn a_refused_normal_form_comes_when_it_is_asked_for_again(rt: HostRuntime) {
    gives(
        &rt,
        rt.alloc(),
        "two that change places | si f s0 | f si s1 | 1 0 2",
    );
}

#[test]
fn a_refused_normal_form_has_each_single_once(rt: HostRuntime) {
    gives(&rt, rt.alloc(), "repeats | f f s0 s1 | f s0 | 0 0 1 1");
}

#[test]
fn a_refused_normal_form_of_an_ill_section_is_its_error(rt: HostRuntime) {
    let groups = section_again(rt.alloc(), "f s2").expect(&rt, "memory");
    let bad = ReadError::BadIndex {
        entry: 1,
        index: 2,
        end: 2,
    };
    let refused = normalise_again(rt.alloc(), groups.as_slice()).err();
    assert_equal(&rt, refused, Some(bad));
}

#[test]
fn a_refused_judgement_comes_when_it_is_asked_for_again(rt: HostRuntime) {
    let alloc = rt.alloc();
    let groups = section_again(alloc, "si f").expect(&rt, "memory");
    let sorted = section_again(alloc, "f si").expect(&rt, "memory");
    let (groups, sorted) = (groups.as_slice(), sorted.as_slice());
    assert!(rt; is_normal_again(alloc, groups, sorted, &[1, 0]).expect(&rt, "memory"));
    assert!(rt; !is_normal_again(alloc, groups, sorted, &[0, 1]).expect(&rt, "memory"));
    assert!(rt; !is_normal_again(alloc, groups, groups, &[0, 1]).expect(&rt, "memory"));
}
