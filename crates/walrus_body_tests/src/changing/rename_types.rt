//! Types of a body change places.
use super::*;
use crate::bodies::empty;
use crate::lists::hold;
use walrus_body::{RenameTypes, used_ids};
use walrus_ir::{CallIndirect, CallRef, InstrSeqType, RefTest};

// The block of sequence 0 has the type 0. The types 1, 0 and 2 are named before it, 0 and 1 in it.
fn body(rt: &impl Abort, alloc: Global) -> LocalFunction {
    let mut f = empty(alloc);
    let entry = vec![in alloc;
        Instr::CallRef(CallRef { ty: id(1) }),
        Instr::RefTest(RefTest {
            nullable: true,
            heap_type: HeapType::Exact(id(0))
        }),
        Instr::CallIndirect(CallIndirect {
            ty: id(2),
            table: id(0)
        }),
        Instr::from(Block { seq: id(1) }),
    ]
    .expect(rt, "memory");
    add(alloc, &mut f, NOTHING, entry).expect(rt, "memory");
    let inside = vec![in alloc; Instr::CallRef(CallRef { ty: id(1) })].expect(rt, "memory");
    add(alloc, &mut f, InstrSeqType::MultiValue(id(0)), inside).expect(rt, "memory");
    f.local_func(Vec::new(alloc))
}

// The body names these types, in this order.
fn names(rt: &impl Abort, alloc: Global, func: &LocalFunction, wanted: &[usize]) {
    let ids = used_ids(alloc, func, id(0)).expect(rt, "memory");
    let ids = ids.expect(rt, "a nested body");
    hold(rt, ids.types.as_slice(), wanted);
}

// Renames the types of the body by the list of their new ids.
fn rename(rt: &impl Abort, alloc: Global, func: &mut LocalFunction, names: Vec<TypeId>) {
    let mut visitor = RenameTypes::new(names);
    assert_nested(rt, alloc, func);
    assert!(rt; dfs_pre_order_mut(alloc, &mut visitor, func, Id::from_index(0)).is_ok());
}

#[test]
fn two_types_change_places(rt: HostRuntime) {
    let alloc = rt.alloc();
    let mut func = body(&rt, alloc);
    names(&rt, alloc, &func, &[1, 0, 2, 0, 1]);
    let new: Vec<TypeId> = vec![in alloc; id(1), id(0)].expect(&rt, "memory");
    rename(&rt, alloc, &mut func, new);
    names(&rt, alloc, &func, &[0, 1, 2, 1, 0]);
}
