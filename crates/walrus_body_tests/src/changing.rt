//! The changing walk, on worked bodies.
mod adder;
pub(crate) mod changer;
mod refusals;
mod rename_types;
mod walks;

use crate::assertions::assert_equal;
use crate::bodies::{NOTHING, add, assert_nested, chain, id, instrs_of};
use std::alloc::Global;
use std::process::Abort;
use walrus_arena::Id;
use walrus_body::{LocalFunction, VisitorMut, WalkError, dfs_pre_order_mut};
use walrus_ir::{
    Block, DataId, ElementId, FunctionId, GlobalId, Instr, InstrLocId, InstrSeq, InstrSeqId,
    LocalId, MemoryId, TableId, TagId, TypeId, Value,
};
use walrus_types::HeapType;
