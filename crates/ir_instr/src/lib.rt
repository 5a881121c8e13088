//! The instructions of WebAssembly as data, sequences of them, and the locals of functions.
//!
//! - [`Instr`] is an instruction, with a struct for each of its 95 kinds, which becomes an `Instr`
//!   by `From`. [`BinaryOp`], [`UnaryOp`] and [`TernaryOp`] are the operators, [`LoadKind`] and
//!   similar types say what memory accesses touch.
//! - [`InstrSeq`] is a sequence of instructions, each with an [`InstrLocId`]. Instructions that
//!   have sequences inside name them by [`InstrSeqId`], so the body of a function is a list of
//!   sequences. [`InstrSeqType`] is what a sequence takes and leaves.
//! - [`Local`] is a local of a function, and [`Value`] is what a constant gives.
//!
//! Nothing here validates: any instruction may be anywhere. Names, and fields with their order, are
//! from walrus's `ir`, except the struct [`DropInstr`] and the fields `data_id`, which are `Drop`
//! and `data` there. The variants of [`Instr`] and [`UnaryOp`] are grouped by what they do.
//!
//! `walrus_ir` exports all of this together with the types of a module.
//!
//! # A branch
//!
//! ```
//! fn branch_or_trap(target: Option<InstrSeqId>) -> Instr {
//!     match target {
//!         Some(block) => Instr::Br(Br { block }),
//!         None => Instr::Unreachable(Unreachable {}),
//!     }
//! }
//! ```
#![tactic(auto)]

mod aggregates;
mod atomics;
mod calls;
mod control;
mod exceptions;
mod instr;
mod instr_loc_id;
mod instr_seq;
mod instr_seq_type;
pub mod laws;
mod locals;
mod memory;
mod numeric;
mod references;
mod simd;
mod tables;
mod variables;

// Instructions, sequences of them, and locals.
pub use instr::Instr;
pub use instr_loc_id::InstrLocId;
pub use instr_seq::{InstrSeq, InstrSeqId};
pub use instr_seq_type::InstrSeqType;
pub use locals::{Local, LocalId, LocalsIter, ModuleLocals};

// Control and calls.
pub use calls::{Call, CallIndirect, CallRef, ReturnCall, ReturnCallIndirect, ReturnCallRef};
pub use control::{
    Block, Br, BrIf, BrOnCast, BrOnCastFail, BrOnNonNull, BrOnNull, BrTable, IfElse, Loop, Return,
    Unreachable,
};
pub use exceptions::{LegacyCatch, Rethrow, Throw, ThrowRef, Try, TryTable, TryTableCatch};

// Numbers, vectors and memory.
pub use atomics::{AtomicFence, AtomicNotify, AtomicRmw, AtomicWait, Cmpxchg};
pub use memory::{
    DataDrop, Load, LoadSimd, MemArg, MemoryCopy, MemoryFill, MemoryGrow, MemoryInit, MemorySize,
    Store,
};
pub use numeric::{
    Binop, Const, DropInstr, I64Add128, I64MulWideS, I64MulWideU, I64Sub128, Select, TernOp, Unop,
};
pub use simd::{I8x16Shuffle, I8x16Swizzle, ShuffleIndices, V128Bitselect};
pub use variables::{GlobalGet, GlobalSet, LocalGet, LocalSet, LocalTee};

// References, structs, arrays and tables.
pub use aggregates::{
    ArrayCopy, ArrayFill, ArrayGet, ArrayGetS, ArrayGetU, ArrayInitData, ArrayInitElem, ArrayLen,
    ArrayNew, ArrayNewData, ArrayNewDefault, ArrayNewElem, ArrayNewFixed, ArraySet, StructGet,
    StructGetS, StructGetU, StructNew, StructNewDefault, StructSet,
};
pub use references::{
    AnyConvertExtern, ExternConvertAny, I31GetS, I31GetU, RefAsNonNull, RefCast, RefEq, RefFunc,
    RefI31, RefIsNull, RefNull, RefTest,
};
pub use tables::{
    ElemDrop, TableCopy, TableFill, TableGet, TableGrow, TableInit, TableSet, TableSize,
};

// Operators, what memory accesses touch, and constants.
pub use ir_operators::{
    AtomicOp, AtomicWidth, BinaryOp, ExtendedLoad, LoadKind, LoadSimdKind, StoreKind, TernaryOp,
    UnaryOp, Value,
};
