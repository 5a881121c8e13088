//! The instruction.
ghost use Rattle.std.specs.Prelude.{◌≡◌};
ghost use Rattle.ir_instr.specs.Reachability.{diverts};

mod clone;

use crate::{
    AnyConvertExtern, ArrayCopy, ArrayFill, ArrayGet, ArrayGetS, ArrayGetU, ArrayInitData,
    ArrayInitElem, ArrayLen, ArrayNew, ArrayNewData, ArrayNewDefault, ArrayNewElem, ArrayNewFixed,
    ArraySet, AtomicFence, AtomicNotify, AtomicRmw, AtomicWait, Binop, Block, Br, BrIf, BrOnCast,
    BrOnCastFail, BrOnNonNull, BrOnNull, BrTable, Call, CallIndirect, CallRef, Cmpxchg, Const,
    DataDrop, DropInstr, ElemDrop, ExternConvertAny, GlobalGet, GlobalSet, I8x16Shuffle,
    I8x16Swizzle, I31GetS, I31GetU, I64Add128, I64MulWideS, I64MulWideU, I64Sub128, IfElse, Load,
    LoadSimd, LocalGet, LocalSet, LocalTee, Loop, MemoryCopy, MemoryFill, MemoryGrow, MemoryInit,
    MemorySize, RefAsNonNull, RefCast, RefEq, RefFunc, RefI31, RefIsNull, RefNull, RefTest,
    Rethrow, Return, ReturnCall, ReturnCallIndirect, ReturnCallRef, Select, Store, StructGet,
    StructGetS, StructGetU, StructNew, StructNewDefault, StructSet, TableCopy, TableFill, TableGet,
    TableGrow, TableInit, TableSet, TableSize, TernOp, Throw, ThrowRef, Try, TryTable, Unop,
    Unreachable, V128Bitselect,
};
use std::fmt;

/// An instruction: for each kind a struct of the same name with its fields. `Drop` has `DropInstr`.
/// It prints as `Instr` with `{:?}`.
#[derive(PartialEq, Eq, Drop)]
pub enum Instr {
    // Control and branches.
    Block(Block),
    Loop(Loop),
    IfElse(IfElse),
    Unreachable(Unreachable),
    Return(Return),
    Br(Br),
    BrIf(BrIf),
    BrTable(BrTable),
    BrOnNull(BrOnNull),
    BrOnNonNull(BrOnNonNull),
    BrOnCast(BrOnCast),
    BrOnCastFail(BrOnCastFail),

    // Calls.
    Call(Call),
    CallIndirect(CallIndirect),
    CallRef(CallRef),
    ReturnCall(ReturnCall),
    ReturnCallIndirect(ReturnCallIndirect),
    ReturnCallRef(ReturnCallRef),

    // Locals and globals.
    LocalGet(LocalGet),
    LocalSet(LocalSet),
    LocalTee(LocalTee),
    GlobalGet(GlobalGet),
    GlobalSet(GlobalSet),

    // Constants, operators, and values of any type.
    Const(Const),
    Unop(Unop),
    Binop(Binop),
    TernOp(TernOp),
    Select(Select),
    Drop(DropInstr),
    I64Add128(I64Add128),
    I64Sub128(I64Sub128),
    I64MulWideS(I64MulWideS),
    I64MulWideU(I64MulWideU),

    // Memories.
    MemorySize(MemorySize),
    MemoryGrow(MemoryGrow),
    MemoryFill(MemoryFill),
    MemoryInit(MemoryInit),
    MemoryCopy(MemoryCopy),
    DataDrop(DataDrop),
    Load(Load),
    Store(Store),
    LoadSimd(LoadSimd),

    // Atomic instructions.
    AtomicRmw(AtomicRmw),
    Cmpxchg(Cmpxchg),
    AtomicNotify(AtomicNotify),
    AtomicWait(AtomicWait),
    AtomicFence(AtomicFence),

    // Tables.
    TableGet(TableGet),
    TableSet(TableSet),
    TableGrow(TableGrow),
    TableSize(TableSize),
    TableFill(TableFill),
    TableInit(TableInit),
    TableCopy(TableCopy),
    ElemDrop(ElemDrop),

    // References.
    RefNull(RefNull),
    RefFunc(RefFunc),
    RefIsNull(RefIsNull),
    RefAsNonNull(RefAsNonNull),
    RefEq(RefEq),
    RefTest(RefTest),
    RefCast(RefCast),
    RefI31(RefI31),
    I31GetS(I31GetS),
    I31GetU(I31GetU),
    AnyConvertExtern(AnyConvertExtern),
    ExternConvertAny(ExternConvertAny),

    // Structs and arrays.
    StructNew(StructNew),
    StructNewDefault(StructNewDefault),
    StructGet(StructGet),
    StructGetS(StructGetS),
    StructGetU(StructGetU),
    StructSet(StructSet),
    ArrayNew(ArrayNew),
    ArrayNewDefault(ArrayNewDefault),
    ArrayNewFixed(ArrayNewFixed),
    ArrayNewData(ArrayNewData),
    ArrayNewElem(ArrayNewElem),
    ArrayGet(ArrayGet),
    ArrayGetS(ArrayGetS),
    ArrayGetU(ArrayGetU),
    ArraySet(ArraySet),
    ArrayLen(ArrayLen),
    ArrayFill(ArrayFill),
    ArrayCopy(ArrayCopy),
    ArrayInitData(ArrayInitData),
    ArrayInitElem(ArrayInitElem),

    // Vectors.
    I8x16Shuffle(I8x16Shuffle),
    I8x16Swizzle(I8x16Swizzle),
    V128Bitselect(V128Bitselect),

    // Exceptions.
    TryTable(TryTable),
    Try(Try),
    Throw(Throw),
    ThrowRef(ThrowRef),
    Rethrow(Rethrow),
}

impl Instr {
    /// Whether the instructions that follow it in its sequence are never reached.
    pub fn following_instructions_are_unreachable(&self) -> bool
        ensures { result ≡ diverts self.now }
    {
        matches!(
            self,
            Instr::Unreachable(_)
                | Instr::Br(_)
                | Instr::BrTable(_)
                | Instr::Return(_)
                | Instr::ReturnCall(_)
                | Instr::ReturnCallIndirect(_)
                | Instr::ReturnCallRef(_)
                | Instr::Throw(_)
                | Instr::ThrowRef(_)
                | Instr::Rethrow(_)
        )
    }
}

impl fmt::Debug for Instr {
    fn fmt<W: fmt::Write>(&self, f: &mut fmt::Formatter<W>) -> fmt::Result {
        f.write_str("Instr")
    }
}
