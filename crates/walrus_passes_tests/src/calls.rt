//! Functions whose calls are snipped or redirected.
use crate::bodies::has;
use std::alloc::Global;
use walrus_functions::{BuildError, FunctionBuilder, LocalFunction};
use walrus_ir::{Id, InstrSeqType};
use walrus_passes::{redirect_calls, snip_calls};
use walrus_types::{FunctionId, TypeId};

fn id(index: usize) -> FunctionId {
    Id::from_index(index)
}

// A function of one sequence, which names 5 and 6.
fn calling(alloc: Global) -> Result<LocalFunction, BuildError> {
    let mut f = FunctionBuilder::without_entry(alloc, TypeId::from_index(7));
    let mut seq = f.dangling_instr_seq(InstrSeqType::Simple(None))?;
    seq.call(id(5))?;
    seq.ref_func(id(5))?;
    seq.call(id(6))?;
    Ok(f.local_func(Vec::new(alloc)))
}

#[test]
fn calls_and_references_are_redirected_and_snipped(rt: HostRuntime) {
    let mut func = calling(rt.alloc()).expect(&rt, "memory");
    redirect_calls(&mut func, id(5), id(9));
    snip_calls(&mut func, &[id(8), id(6)]);
    has(&rt, rt.alloc(), &func, "call 9, ref.func 9, unreachable");
}
