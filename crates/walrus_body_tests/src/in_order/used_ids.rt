//! Worked collections of ids.
use super::*;
use walrus_body::{UsedIds, used_ids};
use walrus_ir::{
    BrIf, Call, CallIndirect, LocalGet, MemoryInit, RefCast, RefNull, TableInit, Throw, TryTable,
    TryTableCatch,
};
use walrus_types::{HeapType, Listed, RefType};

fn reference(index: usize) -> RefType {
    RefType {
        nullable: true,
        heap_type: HeapType::Exact(id(index)),
    }
}

// Sequence 0 names sequence 1, in which the rest stands.
fn body(rt: &impl Abort, alloc: Global) -> LocalFunction {
    let mut f = empty(alloc);
    let table = table_of_catches(alloc).expect(rt, "memory");
    let outer = vec![in alloc; table].expect(rt, "memory");
    add(alloc, &mut f, InstrSeqType::MultiValue(id(9)), outer).expect(rt, "memory");
    let inner = named_things(alloc).expect(rt, "memory");
    add(alloc, &mut f, NOTHING, inner).expect(rt, "memory");
    f.local_func(Vec::new(alloc))
}

fn table_of_catches(alloc: Global) -> Result<Instr, AllocError> {
    let clauses = vec![in alloc;
        TryTableCatch::CatchRef {
            tag: id(4),
            label: id(0),
        },
    ]?;
    Ok(Instr::from(TryTable {
        seq: id(1),
        catches: Listed::from_vec(clauses),
    }))
}

fn named_things(alloc: Global) -> Result<Vec<Instr>, AllocError> {
    Ok(vec![in alloc;
        Instr::Call(Call { func: id(5) }),
        Instr::CallIndirect(CallIndirect {
            ty: id(6),
            table: id(7)
        }),
        Instr::Call(Call { func: id(5) }),
        Instr::LocalGet(LocalGet { local: id(8) }),
        Instr::MemoryInit(MemoryInit {
            memory: id(1),
            data_id: id(2)
        }),
        Instr::TableInit(TableInit {
            table: id(3),
            elem: id(4)
        }),
        Instr::RefCast(RefCast {
            nullable: true,
            heap_type: HeapType::Concrete(id(11))
        }),
        Instr::RefNull(RefNull { ty: reference(90) }),
        Instr::BrIf(BrIf { block: id(90) }),
        Instr::Throw(Throw { tag: id(12) }),
    ]?)
}

fn collected(rt: &impl Abort, alloc: Global) -> UsedIds {
    let func = body(rt, alloc);
    let ids = used_ids(alloc, &func, id(0)).expect(rt, "memory");
    ids.expect(rt, "a nested body")
}

#[test]
fn each_kind_has_its_list(rt: HostRuntime) {
    let alloc = rt.alloc();
    let ids = collected(&rt, alloc);
    hold(&rt, ids.functions.as_slice(), &[5, 5]);
    hold(&rt, ids.types.as_slice(), &[9, 6, 11]);
    hold(&rt, ids.tables.as_slice(), &[7, 3]);
    hold(&rt, ids.tags.as_slice(), &[4, 12]);
    hold(&rt, ids.instr_seqs.as_slice(), &[1]);
}

#[test]
fn a_body_that_is_not_nested_has_none(rt: HostRuntime) {
    let alloc = rt.alloc();
    let mut f = empty(alloc);
    let instrs = vec![in alloc; block(0)].expect(&rt, "memory");
    add(alloc, &mut f, NOTHING, instrs).expect(&rt, "memory");
    let func = f.local_func(Vec::new(alloc));
    let ids = used_ids(alloc, &func, id(0)).expect(&rt, "memory");
    assert!(rt; ids.is_none());
}
