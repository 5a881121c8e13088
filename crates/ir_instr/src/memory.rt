//! Memories, and loads and stores.
//! WebAssembly core specification, "Memory Instructions".

use ir_operators::{LoadKind, LoadSimdKind, StoreKind};
use walrus_ty::{DataId, MemoryId};

/// Where an instruction reaches into a memory, in addition to the address that it takes.
#[derive(Clone, Copy, PartialEq, Eq, Debug)]
pub struct MemArg {
    /// The alignment that is promised, in bytes. Nothing checks it.
    pub align: u32,
    /// What is added to the address.
    pub offset: u64,
}

/// `memory.size`: the size of a memory in pages.
#[derive(Clone, Copy, PartialEq, Eq, Debug)]
pub struct MemorySize {
    /// The memory.
    pub memory: MemoryId,
}

/// `memory.grow`: makes a memory larger.
#[derive(Clone, Copy, PartialEq, Eq, Debug)]
pub struct MemoryGrow {
    /// The memory.
    pub memory: MemoryId,
}

/// `memory.fill`: sets bytes of a memory to one value.
#[derive(Clone, Copy, PartialEq, Eq, Debug)]
pub struct MemoryFill {
    /// The memory.
    pub memory: MemoryId,
}

/// `memory.init`: copies bytes of a data segment into a memory.
#[derive(Clone, Copy, PartialEq, Eq, Debug)]
pub struct MemoryInit {
    /// The memory.
    pub memory: MemoryId,
    /// The data segment.
    pub data_id: DataId,
}

/// `memory.copy`: copies bytes of one memory into another, or into the same.
#[derive(Clone, Copy, PartialEq, Eq, Debug)]
pub struct MemoryCopy {
    /// The memory that is read.
    pub src: MemoryId,
    /// The memory that is written.
    pub dst: MemoryId,
}

/// `data.drop`: gives up a data segment.
#[derive(Clone, Copy, PartialEq, Eq, Debug)]
pub struct DataDrop {
    /// The data segment.
    pub data_id: DataId,
}

/// `i32.load` and similar instructions: reads a value.
#[derive(Clone, Copy, PartialEq, Eq, Debug)]
pub struct Load {
    /// The memory.
    pub memory: MemoryId,
    /// What is read, and how.
    pub kind: LoadKind,
    /// Alignment and offset.
    pub arg: MemArg,
}

/// `i32.store` and similar instructions: writes a value.
#[derive(Clone, Copy, PartialEq, Eq, Debug)]
pub struct Store {
    /// The memory.
    pub memory: MemoryId,
    /// What is written, and how.
    pub kind: StoreKind,
    /// Alignment and offset.
    pub arg: MemArg,
}

/// `v128.load8_splat` and similar instructions: reads or writes a vector or a lane of one.
#[derive(Clone, Copy, PartialEq, Eq, Debug)]
pub struct LoadSimd {
    /// The memory.
    pub memory: MemoryId,
    /// What is read or written, and how.
    pub kind: LoadSimdKind,
    /// Alignment and offset.
    pub arg: MemArg,
}
