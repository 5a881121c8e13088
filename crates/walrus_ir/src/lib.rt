//! Function bodies of WebAssembly modules as data: sequences of instructions and their types.
//!
//! - [`Instr`] is an instruction, with a struct for each of its 95 kinds, which becomes an `Instr`
//!   by `From`. [`BinaryOp`], [`UnaryOp`] and [`TernaryOp`] are the operators, [`LoadKind`] and its
//!   kin say what memory accesses touch.
//! - [`InstrSeq`] is a sequence of instructions, each with an [`InstrLocId`]. Instructions that
//!   have sequences inside name them by [`InstrSeqId`], so a function's body is a list of
//!   sequences.
//! - [`Local`] is a local of a function, [`Value`] what a constant gives.
//!
//! Nothing here says what is valid: any instruction may stand anywhere. Names, and fields with
//! their order, are those of walrus's `ir`, but for the struct [`DropInstr`] and the fields
//! `data_id`, which are `Drop` and `data` there. The variants of [`Instr`] and [`UnaryOp`] are
//! grouped by what they do.
//!
//! # A branch
//!
//! ```
//! fn branch_or_trap(target: Option<InstrSeqId>) -> Instr {
//!     match target {
//!         Some(block) => Instr::Br(Br { block }),
//!         None => Instr::Unreachable(Unreachable {}),
//!     }
//! }
//! ```
#![tactic(auto)]

pub mod laws;

// Instructions, sequences of them, and locals.
pub use ir_instr::{
    Instr, InstrLocId, InstrSeq, InstrSeqId, InstrSeqType, Local, LocalId, LocalsIter, ModuleLocals,
};

// Control and calls.
pub use ir_instr::{
    Block, Br, BrIf, BrOnCast, BrOnCastFail, BrOnNonNull, BrOnNull, BrTable, Call, CallIndirect,
    CallRef, IfElse, LegacyCatch, Loop, Rethrow, Return, ReturnCall, ReturnCallIndirect,
    ReturnCallRef, Throw, ThrowRef, Try, TryTable, TryTableCatch, Unreachable,
};

// Numbers, vectors and memory.
pub use ir_instr::{
    AtomicFence, AtomicNotify, AtomicRmw, AtomicWait, Binop, Cmpxchg, Const, DataDrop, DropInstr,
    GlobalGet, GlobalSet, I8x16Shuffle, I8x16Swizzle, I64Add128, I64MulWideS, I64MulWideU,
    I64Sub128, Load, LoadSimd, LocalGet, LocalSet, LocalTee, MemArg, MemoryCopy, MemoryFill,
    MemoryGrow, MemoryInit, MemorySize, Select, ShuffleIndices, Store, TernOp, Unop, V128Bitselect,
};

// References, structs, arrays and tables.
pub use ir_instr::{
    AnyConvertExtern, ArrayCopy, ArrayFill, ArrayGet, ArrayGetS, ArrayGetU, ArrayInitData,
    ArrayInitElem, ArrayLen, ArrayNew, ArrayNewData, ArrayNewDefault, ArrayNewElem, ArrayNewFixed,
    ArraySet, ElemDrop, ExternConvertAny, I31GetS, I31GetU, RefAsNonNull, RefCast, RefEq, RefFunc,
    RefI31, RefIsNull, RefNull, RefTest, StructGet, StructGetS, StructGetU, StructNew,
    StructNewDefault, StructSet, TableCopy, TableFill, TableGet, TableGrow, TableInit, TableSet,
    TableSize,
};

// Operators, what memory accesses touch, and constants.
pub use ir_instr::{
    AtomicOp, AtomicWidth, BinaryOp, ExtendedLoad, LoadKind, LoadSimdKind, StoreKind, TernaryOp,
    UnaryOp, Value,
};

// Constant expressions.
pub use ir_const_expr::{ConstExpr, ConstOp, ConstOpAt};

// The types of a module.
pub use walrus_types::{
    AbstractHeapType, Data, DataId, Element, ElementId, FromRecordError, Function, FunctionId,
    FunctionTypes, Global, GlobalId, Heap, HeapAt, HeapType, Id, IdsToIndices, IndicesToIds,
    Listed, Memory, MemoryId, ModuleTypes, NoIndex, RecGroup, RecGroupId, RefType, Reference,
    Table, TableId, Tag, TagId, ToRecordError, TypeId, UnknownIndex, Val, ValType,
};
