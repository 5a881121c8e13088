//! Memories.
use super::*;
use walrus_ir::{DataDrop, MemoryCopy, MemoryFill, MemoryGrow, MemoryInit, MemorySize};

#[test]
fn fields_of_memories(rt: HostRuntime) {
    let (memory, data_id, dst) = (id(61), id(71), id(62));
    let mut rows = Rows::new(rt.alloc());
    rows.add(Instr::MemorySize(MemorySize { memory }), "memory 61");
    rows.add(Instr::MemoryGrow(MemoryGrow { memory }), "memory 61");
    rows.add(Instr::MemoryFill(MemoryFill { memory }), "memory 61");
    rows.add(
        Instr::MemoryInit(MemoryInit { memory, data_id }),
        "memory 61 data 71",
    );
    rows.add(Instr::DataDrop(DataDrop { data_id }), "data 71");
    rows.add(
        Instr::MemoryCopy(MemoryCopy { src: memory, dst }),
        "memory 61 memory 62",
    );
    rows.are_reported(&rt, rt.alloc());
}
