//! Ids as keys, in order, and printed.
use super::*;
use crate::assertions::assert_equal;
use std::collections::HashMap;

#[test]
fn ids_go_by_their_index(rt: HostRuntime) {
    let two: Id<Tagged> = Id::from_index(2);
    let three: Id<Tagged> = Id::from_index(3);
    assert!(rt; two < three);
    assert!(rt; two == Id::from_index(2));
    assert!(rt; two != three);
    assert_equal(&rt, two.max(three).index(), 3);
    assert_equal(&rt, three.place(), 3);
}

#[test]
fn an_id_prints_its_index(rt: HostRuntime) {
    let three: Id<Tagged> = Id::from_index(3);
    let printed = format!(in rt.alloc(); "{three:?}").expect(&rt, "memory");
    assert_equal(&rt, printed.as_str(), "Id(3)");
}

#[test]
fn a_map_by_ids(rt: HostRuntime) -> Result<(), Fail> {
    let mut names: IdHashMap<Tagged, u8> = HashMap::new(rt.alloc());
    names.insert(Id::from_index(2), 7)?;
    assert_equal(&rt, names.get(&Id::from_index(2)).copied(), Some(7));
    assert_equal(&rt, names.get(&Id::from_index(3)).copied(), None);
    Ok(())
}
