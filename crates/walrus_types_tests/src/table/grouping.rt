//! Explicit groups.
mod refusals;

use super::calls::make_all;
use super::*;
use crate::assertions::assert_equal;

const TABLES: &str = "\
the types of a group may name each other
    add func = 0
    add_pair = 1 2
    kind 1 = (func (param (ref null 2)))
    kind 2 = (func (param (ref null 1)))
    iter = 0 1 2
a group knows its types
    add func = 0
    add_pair = 1 2
    rec_groups = 0 (1 2)
a type knows its group
    add func = 0
    add_pair = 1 2
    rec_group_for_type 2 = (1 2)
    rec_group_for_type 0 = 0
    rec_group_for_type 3 = none
a group may be empty
    add_rec_group =
    rec_groups = ()
    add func = 0
";

#[test]
fn groups_are_added(rt: HostRuntime) {
    make_all(&rt, rt.alloc(), TABLES);
}

#[test]
fn a_group_that_was_not_built_uses_up_no_id(rt: HostRuntime) {
    let mut types = ModuleTypes::new(rt.alloc());
    let refused = types.add_rec_group(1, |_| Err(AllocError)).err();
    assert_equal(&rt, refused, Some(AddRecGroupError::Memory));
    assert_equal(&rt, types.rec_groups().len(), 0);
    assert_equal(&rt, types.add(&[], &[]).expect(&rt, "memory").index(), 0);
}

// A group of one type is refused where this many are wanted.
fn refuses(rt: &impl Abort, alloc: Global, types: &mut ModuleTypes, wanted: usize) {
    let added = types.add_rec_group(wanted, |_| Ok(vec![in alloc; member(function(alloc))]?));
    let refused = Some(AddRecGroupError::Count { wanted, got: 1 });
    assert_equal(rt, added.err(), refused);
}

#[test]
fn a_group_with_a_type_too_few_uses_up_no_id(rt: HostRuntime) {
    let mut types = ModuleTypes::new(rt.alloc());
    refuses(&rt, rt.alloc(), &mut types, 2);
    assert_equal(&rt, types.rec_groups().len(), 0);
    assert_equal(&rt, types.add(&[], &[]).expect(&rt, "memory").index(), 0);
}

#[test]
fn a_group_with_a_type_too_many_is_refused(rt: HostRuntime) {
    let mut types = ModuleTypes::new(rt.alloc());
    refuses(&rt, rt.alloc(), &mut types, 0);
    assert_equal(&rt, types.rec_groups().len(), 0);
}
