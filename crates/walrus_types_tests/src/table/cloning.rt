//! Clones of tables.
use super::*;
use crate::assertions::assert_equal;

// A table of a function type, and of another one that is deleted.
pub(super) fn with_a_dead_type(alloc: Global) -> Result<ModuleTypes, AllocError> {
    let mut types = ModuleTypes::new(alloc);
    types.add(&[Val::I32], &[])?;
    let gone = types.add(&[], &[])?;
    if types.contains(gone) {
        types.delete(gone)?;
    }
    Ok(types)
}

// Whether the table finds its function type alone. The group of the deleted type is empty.
pub(super) fn finds_the_first(types: &ModuleTypes) -> bool {
    let first = types.find(&[Val::I32], &[]);
    matches!(first, Some(id) if id.index() == 0)
        && types.find(&[], &[]).is_none()
        && types.rec_groups().len() == 2
}

#[test]
fn a_clone_finds_what_the_table_finds(rt: HostRuntime) {
    let types = with_a_dead_type(rt.alloc()).expect(&rt, "memory");
    let mut copy = types.clone().expect(&rt, "memory");
    assert!(rt; finds_the_first(&copy));
    let added = copy.add(&[], &[]).expect(&rt, "memory");
    assert_equal(&rt, added.index(), 2);
    assert!(rt; copy.contains(added) && !types.contains(added));
}
