//! Bodies that are made of lists of instructions.
ghost use Rattle.std.specs.Prelude.{◌↔◌, IfOk};
ghost use Rattle.walrus_body.specs.Nesting.{IsNested};
ghost use Rattle.walrus_body.specs.Certificates.{SaysNested};

use crate::lists::list;
use std::alloc::{AllocError, Global};
use std::process::Abort;
use walrus_arena::Id;
use walrus_body::{BuildError, FunctionBuilder, LocalFunction, Nesting, check_nesting};
use walrus_ir::{
    Block, Br, Const, IfElse, Instr, InstrLocId, InstrSeqId, InstrSeqType, LegacyCatch, Loop, Try,
    TryTable, TryTableCatch, Value,
};
use walrus_types::Listed;

pub(crate) const NOTHING: InstrSeqType = InstrSeqType::Simple(None);

pub(crate) fn id<T>(index: usize) -> Id<T> {
    Id::from_index(index)
}

pub(crate) fn block(index: usize) -> Instr {
    Instr::Block(Block { seq: id(index) })
}

pub(crate) fn number(n: i32) -> Instr {
    Instr::Const(Const {
        value: Value::I32(n),
    })
}

/// A function without sequences.
pub(crate) fn empty(alloc: Global) -> FunctionBuilder {
    FunctionBuilder::without_entry(alloc, id(0))
}

/// Adds a sequence of this type with these instructions. Sequences have the ids 0, 1, and so on.
pub(crate) fn add(
    alloc: Global,
    f: &mut FunctionBuilder,
    ty: InstrSeqType,
    instrs: Vec<Instr>,
) -> Result<InstrSeqId, BuildError> {
    let located = with_locations(alloc, instrs)?;
    let mut b = f.dangling_instr_seq(ty)?;
    *b.instrs_mut() = located;
    Ok(b.id())
}

pub(crate) fn with_locations(
    alloc: Global,
    instrs: Vec<Instr>,
) -> Result<Vec<(Instr, InstrLocId)>, AllocError> {
    let mut list = Vec::new(alloc);
    for instr in instrs {
        list.push((instr, InstrLocId::default()))?;
    }
    Ok(list)
}

/// So many sequences, each with one block of the next, and a last empty one.
pub(crate) fn chain(rt: &impl Abort, alloc: Global, count: usize) -> LocalFunction {
    let mut f = empty(alloc);
    for index in 0..count {
        let next = vec![in alloc; block(index + 1)].expect(rt, "memory");
        add(alloc, &mut f, NOTHING, next).expect(rt, "memory");
    }
    add(alloc, &mut f, NOTHING, Vec::new(alloc)).expect(rt, "memory");
    f.local_func(Vec::new(alloc))
}

/// The instructions of a sequence, if it is known.
pub(crate) fn instrs_of(func: &LocalFunction, index: usize) -> Option<&[(Instr, InstrLocId)]> {
    let seq: InstrSeqId = id(index);
    if func.contains_block(seq) {
        Some(func.block(seq).instrs.as_slice())
    } else {
        None
    }
}

fn id_at<T>(words: &str, place: usize) -> Id<T> {
    let word = words.split_whitespace().nth(place).unwrap_or("");
    id(word.parse().ok().unwrap_or(0))
}

// A `try` of a sequence, with two handlers.
fn attempt(alloc: Global, words: &str) -> Result<Instr, AllocError> {
    let caught = LegacyCatch::Catch {
        tag: id(0),
        handler: id_at(words, 2),
    };
    let delegated = LegacyCatch::Delegate { relative_depth: 0 };
    let all = LegacyCatch::CatchAll {
        handler: id_at(words, 3),
    };
    Ok(Instr::Try(Try {
        seq: id_at(words, 1),
        catches: Listed::from_vec(list(alloc, &[caught, delegated, all])?),
    }))
}

// A `try_table` of a sequence, which branches to another.
fn table_of_catches(alloc: Global, words: &str) -> Result<Instr, AllocError> {
    let all = TryTableCatch::CatchAll {
        label: id_at(words, 2),
    };
    Ok(Instr::TryTable(TryTable {
        seq: id_at(words, 1),
        catches: Listed::from_vec(list(alloc, &[all])?),
    }))
}

fn instr(alloc: Global, words: &str) -> Result<Instr, AllocError> {
    let first = id_at(words, 1);
    match words.split_whitespace().next().unwrap_or("") {
        "if" => Ok(Instr::IfElse(IfElse {
            consequent: first,
            alternative: id_at(words, 2),
        })),
        "br" => Ok(Instr::Br(Br { block: first })),
        "loop" => Ok(Instr::Loop(Loop { seq: first })),
        "try" => attempt(alloc, words),
        "try_table" => table_of_catches(alloc, words),
        _ => Ok(Instr::Block(Block { seq: first })),
    }
}

fn instrs(alloc: Global, text: &str) -> Result<Vec<Instr>, AllocError> {
    let mut instrs = Vec::new(alloc);
    for words in text.split(',') {
        if !words.trim().is_empty() {
            instrs.push(instr(alloc, words)?)?;
        }
    }
    Ok(instrs)
}

/// The function of this text: its sequences with a `;` between two, each with the function type of its
/// own number, and their instructions with a `,`. An instruction is `block`, `loop`, `if`, `br`,
/// `try` or `try_table`, and numbers of sequences.
pub(crate) fn body(alloc: Global, text: &str) -> Result<LocalFunction, BuildError> {
    let mut f = empty(alloc);
    for (index, sequence) in text.split(';').enumerate() {
        let instrs = instrs(alloc, sequence)?;
        add(alloc, &mut f, InstrSeqType::MultiValue(id(index)), instrs)?;
    }
    Ok(f.local_func(Vec::new(alloc)))
}

/// The same. It is built again after a refusal.
pub(crate) fn body_again(alloc: Global, text: &str) -> Result<LocalFunction, BuildError> {
    body(alloc, text).or_else(|_| body(alloc, text))
}

/// The body is nested, from the sequence 0 on.
pub(crate) fn assert_nested(rt: &impl Abort, alloc: Global, func: &LocalFunction)
    ensures { IsNested func.now.body 0 }
{
    let Nesting::Nested(_) = check_nesting(alloc, func, Id::from_index(0)).expect(rt, "memory")
    else {
        panic!(rt; "not nested");
    };
}

/// The answer of the check from sequence 0. It is asked for again after a refusal.
pub(crate) fn check_again(alloc: Global, func: &LocalFunction) -> Result<Nesting, AllocError>
    ensures { IfOk result (λ n. SaysNested n ↔ IsNested func.now.body 0) }
{
    let start: InstrSeqId = Id::from_index(0);
    match check_nesting(alloc, func, start) {
        Ok(answer) => Ok(answer),
        Err(_) => check_nesting(alloc, func, start),
    }
}
