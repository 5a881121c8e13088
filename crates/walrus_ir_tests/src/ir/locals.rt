//! Adding locals, and finding them again.
use crate::assertions::assert_equal;
use walrus_ir::{ModuleLocals, Val};

#[test]
fn locals_get_the_next_ids(rt: HostRuntime) {
    let mut locals = ModuleLocals::new(rt.alloc());
    let first = locals.add(Val::I32).expect(&rt, "memory");
    let second = locals.add(Val::I64).expect(&rt, "memory");
    assert_equal(&rt, first.index(), 0);
    assert_equal(&rt, second.index(), 1);
    let local = locals.get(second);
    assert_equal(&rt, local.id(), second);
    assert!(rt; local.ty() == Val::I64);
    assert!(rt; local.name.is_none());
}
