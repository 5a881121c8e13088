//! The calls that add one instruction, with what they add.
ghost use Rattle.walrus_functions.specs.Building.{IsKnown};

use super::texts::{ANY, ARG};
use super::*;
use walrus_ir::{LoadKind, StoreKind};

// Calls that add an instruction without sequences inside.
#[derive(Clone, Copy)]
pub(super) enum PlainCall {
    Instr,
    InstrAt,
    I32Const,
    I64Const,
    F32Const,
    F64Const,
    Const,
    LocalGet,
    LocalSet,
    LocalTee,
    GlobalGet,
    GlobalSet,
    Call,
    CallIndirect,
    RefFunc,
    Throw,
    Return,
    Br,
    BrIf,
    BrTable,
    Unreachable,
    MemorySize,
    MemoryGrow,
    Load,
    Store,
    Unop,
    Binop,
    Select,
    Drop,
    RefNull,
    StructNew,
    ArrayNew,
}

// Makes the call.
pub(super) fn add(
    alloc: Global,
    body: &mut InstrSeqBuilder<'_>,
    call: PlainCall,
) -> Result<(), BuildError>
    requires { IsKnown body.old }
{
    match call {
        PlainCall::Instr => body.instr(Instr::Drop(DropInstr {})),
        PlainCall::InstrAt => body.instr_at(0, Instr::Unreachable(Unreachable {})),
        PlainCall::I32Const => body.i32_const(-1),
        PlainCall::I64Const => body.i64_const(-2),
        PlainCall::F32Const => body.f32_const(3),
        PlainCall::F64Const => body.f64_const(4),
        PlainCall::Const => body.const_(Value::V128(5)),
        PlainCall::LocalGet => body.local_get(Id::from_index(7)),
        PlainCall::LocalSet => body.local_set(Id::from_index(7)),
        PlainCall::LocalTee => body.local_tee(Id::from_index(7)),
        PlainCall::GlobalGet => body.global_get(Id::from_index(7)),
        PlainCall::GlobalSet => body.global_set(Id::from_index(7)),
        PlainCall::Call => body.call(Id::from_index(7)),
        PlainCall::CallIndirect => body.call_indirect(Id::from_index(7), Id::from_index(8)),
        PlainCall::RefFunc => body.ref_func(Id::from_index(7)),
        PlainCall::Throw => body.throw(Id::from_index(7)),
        PlainCall::Return => body.return_(),
        _ => add_another(alloc, body, call),
    }
}

fn add_another(
    alloc: Global,
    body: &mut InstrSeqBuilder<'_>,
    call: PlainCall,
) -> Result<(), BuildError>
    requires { IsKnown body.old }
{
    match call {
        PlainCall::Br => body.br(Id::from_index(7)),
        PlainCall::BrIf => body.br_if(Id::from_index(7)),
        PlainCall::BrTable => body.br_table(vec![in alloc; Id::from_index(5)]?, Id::from_index(7)),
        PlainCall::Unreachable => body.unreachable(),
        PlainCall::MemorySize => body.memory_size(Id::from_index(7)),
        PlainCall::MemoryGrow => body.memory_grow(Id::from_index(7)),
        PlainCall::Load => body.load(Id::from_index(7), LoadKind::F32, ARG),
        PlainCall::Store => body.store(Id::from_index(7), StoreKind::F64, ARG),
        PlainCall::Unop => body.unop(UnaryOp::I32Eqz),
        PlainCall::Binop => body.binop(BinaryOp::I32Add),
        PlainCall::Select => body.select(None),
        PlainCall::Drop => body.drop(),
        PlainCall::RefNull => body.ref_null(ANY),
        PlainCall::StructNew => body.struct_new(Id::from_index(7)),
        PlainCall::ArrayNew => body.array_new(Id::from_index(7)),
        _ => Err(BuildError::Position),
    }
}

// Calls with the instructions that they add.
pub(super) type Rows = &'static [(PlainCall, &'static str)];

pub(super) const ROWS: Rows = &[
    (PlainCall::Instr, "drop"),
    (PlainCall::InstrAt, "unreachable"),
    (PlainCall::I32Const, "i32 -1"),
    (PlainCall::I64Const, "i64 -2"),
    (PlainCall::F32Const, "f32 0x00000003"),
    (PlainCall::F64Const, "f64 0x0000000000000004"),
    (PlainCall::Const, "v128 5"),
    (PlainCall::LocalGet, "local.get 7"),
    (PlainCall::LocalSet, "local.set 7"),
    (PlainCall::LocalTee, "local.tee 7"),
    (PlainCall::GlobalGet, "global.get 7"),
    (PlainCall::GlobalSet, "global.set 7"),
    (PlainCall::Call, "call 7"),
    (PlainCall::CallIndirect, "call_indirect 7 8"),
    (PlainCall::RefFunc, "ref.func 7"),
    (PlainCall::Throw, "throw 7"),
    (PlainCall::Return, "return"),
    (PlainCall::Br, "br 7"),
    (PlainCall::BrIf, "br_if 7"),
    (PlainCall::BrTable, "br_table 5 7"),
    (PlainCall::Unreachable, "unreachable"),
    (PlainCall::MemorySize, "memory.size 7"),
    (PlainCall::MemoryGrow, "memory.grow 7"),
    (PlainCall::Load, "f32.load 7"),
    (PlainCall::Store, "f64.store 7"),
    (PlainCall::Unop, "i32.eqz"),
    (PlainCall::Binop, "i32.add"),
    (PlainCall::Select, "select"),
    (PlainCall::Drop, "drop"),
    (PlainCall::RefNull, "ref.null any"),
    (PlainCall::StructNew, "struct.new 7"),
    (PlainCall::ArrayNew, "array.new 7"),
];
