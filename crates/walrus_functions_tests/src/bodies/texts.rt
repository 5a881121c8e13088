//! Functions as texts: each sequence in parentheses, with the words of its instructions.
use crate::assertions::assert_equal;
use std::alloc::{AllocError, Global};
use std::process::Abort;
use walrus_functions::LocalFunction;
use walrus_ir::{BinaryOp, Instr, InstrLocId, LoadKind, MemArg, StoreKind, UnaryOp, Value};
use walrus_types::{AbstractHeapType, HeapType, Id, RefType};

pub(super) const ARG: MemArg = MemArg {
    align: 4,
    offset: 8,
};

pub(super) const ANY: RefType = RefType {
    nullable: true,
    heap_type: HeapType::Abstract(AbstractHeapType::Any),
};

// The function has this text. The text is made again after a refusal.
pub(super) fn has(rt: &impl Abort, alloc: Global, func: &LocalFunction, expected: &str) {
    let text = match text_of(alloc, func) {
        Ok(text) => text,
        Err(_) => text_of(alloc, func).expect(rt, "memory"),
    };
    assert_equal(rt, text.as_str(), expected);
}

// The same of an instruction alone.
pub(super) fn is(rt: &impl Abort, alloc: Global, instr: &Instr, expected: &str) {
    let text = match text_of_one(alloc, instr) {
        Ok(text) => text,
        Err(_) => text_of_one(alloc, instr).expect(rt, "memory"),
    };
    assert_equal(rt, text.as_str(), expected);
}

fn text_of(alloc: Global, func: &LocalFunction) -> Result<String, AllocError> {
    let mut text = String::new(alloc);
    for index in 0..func.block_count() {
        let id = Id::from_index(index);
        if func.contains_block(id) {
            add_instrs(&mut text, func.block(id).instrs.as_slice())?;
        }
    }
    Ok(text)
}

fn text_of_one(alloc: Global, instr: &Instr) -> Result<String, AllocError> {
    let mut text = String::new(alloc);
    add_instr(&mut text, instr)?;
    Ok(text)
}

fn add_instrs(text: &mut String, instrs: &[(Instr, InstrLocId)]) -> Result<(), AllocError> {
    let mut gap = "";
    text.push_str("(")?;
    for (instr, _) in instrs {
        text.push_str(gap)?;
        add_instr(text, instr)?;
        gap = ", ";
    }
    text.push_str(")")
}

fn add_instr(text: &mut String, instr: &Instr) -> Result<(), AllocError> {
    let (word, number) = match instr {
        Instr::Block(x) => ("block", x.seq.index()),
        Instr::Loop(x) => ("loop", x.seq.index()),
        Instr::Br(x) => ("br", x.block.index()),
        Instr::BrIf(x) => ("br_if", x.block.index()),
        Instr::LocalGet(x) => ("local.get", x.local.index()),
        Instr::LocalSet(x) => ("local.set", x.local.index()),
        Instr::LocalTee(x) => ("local.tee", x.local.index()),
        Instr::GlobalGet(x) => ("global.get", x.global.index()),
        Instr::GlobalSet(x) => ("global.set", x.global.index()),
        Instr::Call(x) => ("call", x.func.index()),
        Instr::RefFunc(x) => ("ref.func", x.func.index()),
        Instr::Throw(x) => ("throw", x.tag.index()),
        Instr::MemorySize(x) => ("memory.size", x.memory.index()),
        Instr::MemoryGrow(x) => ("memory.grow", x.memory.index()),
        Instr::Load(x) if x.kind == LoadKind::F32 && x.arg == ARG => ("f32.load", x.memory.index()),
        Instr::Store(x) if x.kind == StoreKind::F64 && x.arg == ARG => {
            ("f64.store", x.memory.index())
        }
        Instr::StructNew(x) => ("struct.new", x.ty.index()),
        Instr::ArrayNew(x) => ("array.new", x.ty.index()),
        _ => return add_other(text, instr),
    };
    Ok(write!(text, "{word} {number}")?)
}

fn add_other(text: &mut String, instr: &Instr) -> Result<(), AllocError> {
    let (word, first, second) = match instr {
        Instr::IfElse(x) => ("if", x.consequent.index(), x.alternative.index()),
        Instr::CallIndirect(x) => ("call_indirect", x.ty.index(), x.table.index()),
        Instr::BrTable(x) if x.blocks.len() == 1 => {
            (
                "br_table",
                x.blocks.as_slice()[0].index(),
                x.default.index(),
            )
        }
        Instr::Const(x) => return add_value(text, x.value),
        _ => return text.push_str(word_of(instr)),
    };
    Ok(write!(text, "{word} {first} {second}")?)
}

fn add_value(text: &mut String, value: Value) -> Result<(), AllocError> {
    let word = match value {
        Value::I32(_) => "i32",
        Value::I64(_) => "i64",
        Value::F32(_) => "f32",
        Value::F64(_) => "f64",
        Value::V128(_) => "v128",
    };
    Ok(write!(text, "{word} {value}")?)
}

fn word_of(instr: &Instr) -> &'static str {
    match instr {
        Instr::Drop(_) => "drop",
        Instr::Return(_) => "return",
        Instr::Unreachable(_) => "unreachable",
        Instr::Unop(x) if x.op == UnaryOp::I32Eqz => "i32.eqz",
        Instr::Binop(x) if x.op == BinaryOp::I32Add => "i32.add",
        Instr::Select(x) if x.ty.is_none() => "select",
        Instr::RefNull(x) if x.ty == ANY => "ref.null any",
        _ => "another",
    }
}
