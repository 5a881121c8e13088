//! Refused memory: what a refused call leaves, and that it goes through when it is made again.
//! Each request for memory of these tests may be refused, one in a run, and they still pass.
ghost use Rattle.std.specs.Prelude.{IfOk, IsSome};
ghost use Rattle.walrus_functions.specs.Building.{function_of, IsKnown, Stays, StayKnown};

use super::*;
use crate::assertions::assert_equal;
use std::cell::Cell;
use walrus_ir::{InstrSeqId, LocalId};
use walrus_types::{FunctionId, ValType};

// A function with an entry. It is made again after a refusal.
pub(super) fn begin_again(alloc: Global) -> Result<FunctionBuilder, AllocError>
    ensures { IfOk result (λ f. IsSome f.entry) }
{
    match begin(alloc) {
        Ok(f) => Ok(f),
        Err(_) => begin(alloc),
    }
}

// A table with the function type that takes an `i64`.
fn table(alloc: Global) -> Result<ModuleTypes, AllocError> {
    let mut types = ModuleTypes::new(alloc);
    types.add(&[ValType::I64], &[])?;
    Ok(types)
}

// How many of three types the table has: the type of `table`, the function type from `i32` to
// `i64`, and the type of its body.
fn found(types: &ModuleTypes) -> usize {
    if types.find(&[ValType::I64], &[]).is_none() {
        return 0;
    }
    if types.find(&[ValType::I32], &[ValType::I64]).is_none() {
        return 1;
    }
    match types.find_for_function_entry(&[ValType::I64]) {
        None => 2,
        Some(_) => 3,
    }
}

// A function that takes an `i32` and leaves an `i64`. After a refusal the table must have no more
// types than before, the function type, or that and the type of the body, and the call is made
// again.
fn new_again(
    rt: &impl Abort,
    alloc: Global,
    types: &mut ModuleTypes,
) -> Result<FunctionBuilder, AllocError> {
    let params = [ValType::I32];
    let results = [ValType::I64];
    if let Ok(f) = FunctionBuilder::new(alloc, types, &params, &results) {
        return Ok(f);
    }
    assert!(rt; found(types) > 0 && found(types) == types.rec_groups().len());
    FunctionBuilder::new(alloc, types, &params, &results)
}

#[test]
fn a_refused_new_leaves_up_to_two_types(rt: HostRuntime) {
    let mut types = match table(rt.alloc()) {
        Ok(types) => types,
        Err(_) => table(rt.alloc()).expect(&rt, "memory"),
    };
    let f = new_again(&rt, rt.alloc(), &mut types).expect(&rt, "memory");
    assert!(rt; found(&types) == 3 && types.rec_groups().len() == 3);
    assert_equal(&rt, f.entry(), Some(Id::from_index(0)));
    assert_equal(&rt, f.ty().index(), 1);
    assert_equal(&rt, f.seq_count(), 1);
}

// The id of a new sequence.
fn dangling(f: &mut FunctionBuilder) -> Result<usize, BuildError> {
    Ok(f.dangling_instr_seq(NOTHING)?.id().index())
}

// The id of a new sequence. After a refusal there must be no new sequence, and the call is made
// again.
fn dangling_again(rt: &impl Abort, f: &mut FunctionBuilder) -> usize {
    let count = f.seq_count();
    if let Ok(id) = dangling(f) {
        return id;
    }
    assert_equal(rt, f.seq_count(), count);
    dangling(f).expect(rt, "memory")
}

#[test]
fn a_refused_dangling_sequence_is_not_there(rt: HostRuntime) {
    let mut f = FunctionBuilder::without_entry(rt.alloc(), Id::from_index(3));
    for next in 0..5usize {
        assert_equal(&rt, dangling_again(&rt, &mut f), next);
    }
    assert_equal(&rt, f.ty(), Id::from_index(3));
    let last: InstrSeqId = Id::from_index(4);
    assert!(rt; f.contains_seq(last));
    f.set_entry(last);
    assert_equal(&rt, f.func_body_id().index(), 4);
    let func = f.local_func(Vec::new(rt.alloc()));
    assert_equal(&rt, func.block_count(), 5);
    assert!(rt; func.contains_block(Id::from_index(4)));
}

// Calls that add an instruction with sequences inside.
#[derive(Clone, Copy)]
enum NestedCall {
    Block,
    Loop,
    IfElse,
    BlockAt,
    LoopAt,
    IfElseAt,
}

// Fills a new sequence with one instruction. It counts a step when it is called, and one when the
// instruction is added.
fn fill(body: &mut InstrSeqBuilder<'_>, steps: &Cell<usize>) -> Result<(), BuildError>
    requires { IsKnown body.old }
    ensures same { Stays body.old body.new }
    ensures known { StayKnown (function_of body.old) (function_of body.new) }
{
    steps.set(steps.get().wrapping_add(1));
    body.drop()?;
    steps.set(steps.get().wrapping_add(1));
    Ok(())
}

// Makes the call.
fn nest(
    body: &mut InstrSeqBuilder<'_>,
    call: NestedCall,
    steps: &Cell<usize>,
) -> Result<(), BuildError> {
    match call {
        NestedCall::Block => body.block(NOTHING, |b| fill(b, steps)),
        NestedCall::Loop => body.loop_(NOTHING, |b| fill(b, steps)),
        NestedCall::IfElse => body.if_else(NOTHING, |b| fill(b, steps), |b| fill(b, steps)),
        NestedCall::BlockAt => body.block_at(0, NOTHING, |b| fill(b, steps)),
        NestedCall::LoopAt => body.loop_at(0, NOTHING, |b| fill(b, steps)),
        NestedCall::IfElseAt => body.if_else_at(0, NOTHING, |b| fill(b, steps), |b| fill(b, steps)),
    }
}

// How many instructions the sequence has, if there is one with this id.
fn len_of(f: &FunctionBuilder, index: usize) -> Option<usize> {
    let id: InstrSeqId = Id::from_index(index);
    if f.contains_seq(id) {
        Some(f.seq(id).instrs.len())
    } else {
        None
    }
}

// What the steps of the closures must have left in the first or second new sequence.
fn left(steps: usize) -> Option<usize> {
    match steps {
        0 => None,
        1 => Some(0),
        _ => Some(1),
    }
}

// Whether the newest instruction of the entry, to which only this call has added, is the one of the
// call, over new sequences from this id on.
fn has_added(f: &FunctionBuilder, call: NestedCall, next: usize) -> bool {
    let entry: InstrSeqId = Id::from_index(0);
    if !f.contains_seq(entry) {
        return false;
    }
    let instrs = f.seq(entry).instrs.as_slice();
    let newest = match call {
        NestedCall::Block | NestedCall::Loop | NestedCall::IfElse => instrs.last(),
        _ => instrs.first(),
    };
    match newest {
        Some((Instr::Block(x), _)) => x.seq.index() == next,
        Some((Instr::Loop(x), _)) => x.seq.index() == next,
        Some((Instr::IfElse(x), _)) => x.consequent.index() == next,
        _ => false,
    }
}

// Makes the call for the entry. Whatever it returns, the new sequences must be the ones that the
// closures were called for, each with what they put into it.
fn nest_once(rt: &impl Abort, f: &mut FunctionBuilder, call: NestedCall) -> Result<(), BuildError> {
    let steps = Cell::new(0);
    let next = f.seq_count();
    assert!(rt; f.contains_seq(Id::from_index(0)) && next < 1000);
    let answer = nest(&mut f.instr_seq(Id::from_index(0)), call, &steps);
    assert_equal(rt, len_of(f, next), left(steps.get()));
    assert_equal(rt, len_of(f, next + 1), left(steps.get().saturating_sub(2)));
    assert_equal(rt, has_added(f, call, next), answer.is_ok());
    answer
}

// Makes the call for the entry. After a refusal the entry must have no more instructions than
// before, and the call is made again.
fn nest_again(
    rt: &impl Abort,
    f: &mut FunctionBuilder,
    call: NestedCall,
) -> Result<(), BuildError> {
    let before = len_of(f, 0);
    let answer = nest_once(rt, f, call);
    if answer.is_ok() {
        return answer;
    }
    assert_equal(rt, answer, Err(BuildError::Memory));
    assert_equal(rt, len_of(f, 0), before);
    nest_once(rt, f, call)
}

// Makes the call five times.
fn nests_five(rt: &impl Abort, alloc: Global, call: NestedCall) {
    let mut f = begin_again(alloc).expect(rt, "memory");
    for _ in 0..5 {
        nest_again(rt, &mut f, call).expect(rt, "memory");
    }
    assert_equal(rt, len_of(&f, 0), Some(5));
}

#[test]
fn a_refused_nested_call_keeps_its_sequences(rt: HostRuntime) {
    nests_five(&rt, rt.alloc(), NestedCall::Block);
    nests_five(&rt, rt.alloc(), NestedCall::Loop);
    nests_five(&rt, rt.alloc(), NestedCall::IfElse);
    nests_five(&rt, rt.alloc(), NestedCall::BlockAt);
    nests_five(&rt, rt.alloc(), NestedCall::LoopAt);
    nests_five(&rt, rt.alloc(), NestedCall::IfElseAt);
}

// One parameter. It is made again after a refusal.
fn args_again(alloc: Global) -> Result<Vec<LocalId>, AllocError> {
    let mut args = Vec::new(alloc);
    if args.reserve(1).is_err() {
        args.reserve(1)?;
    }
    args.push(Id::from_index(7))?;
    Ok(args)
}

// A function with a name and one instruction.
fn named_again(alloc: Global) -> Result<FunctionBuilder, BuildError> {
    let mut f = begin_again(alloc)?;
    let mut body = f.func_body();
    if body.drop().is_err() {
        body.drop()?;
    }
    let name = match String::from_str(alloc, "f") {
        Ok(name) => name,
        Err(_) => String::from_str(alloc, "f")?,
    };
    f.name(name);
    Ok(f)
}

// The function of `named_again` and `args_again` must be whole.
fn is_whole(rt: &impl Abort, alloc: Global, func: &LocalFunction) {
    assert_equal(rt, func.name(), Some("f"));
    assert_equal(rt, func.entry(), Some(Id::from_index(0)));
    assert_equal(rt, func.args.as_slice(), [Id::from_index(7)].as_slice());
    has(rt, alloc, func, "(drop)");
}

// Adds a function that was handed back. It must be whole, and `funcs` must have none of this id.
fn add_back(
    rt: &impl Abort,
    alloc: Global,
    funcs: &mut LocalFunctions,
    func: LocalFunction,
    next: usize,
) -> FunctionId {
    assert!(rt; !funcs.contains(Id::from_index(next)));
    is_whole(rt, alloc, &func);
    match funcs.add(func) {
        Ok(id) => id,
        Err(_) => panic!(rt; "refused again"),
    }
}

// The function of this number is whole, also if it was handed back.
fn is_added(
    rt: &impl Abort,
    alloc: Global,
    funcs: &mut LocalFunctions,
    answer: Result<FunctionId, LocalFunction>,
    next: usize,
) {
    let id = match answer {
        Ok(id) => id,
        Err(func) => add_back(rt, alloc, funcs, func, next),
    };
    assert_equal(rt, id.index(), next);
    assert!(rt; funcs.contains(id));
    is_whole(rt, alloc, funcs.get(id));
}

// The first function is finished, and the others are added, of which the fifth needs more room.
#[test]
fn a_refused_function_is_handed_back(rt: HostRuntime) {
    let alloc = rt.alloc();
    let mut funcs = LocalFunctions::new(alloc);
    for next in 0..5usize {
        let f = named_again(alloc).expect(&rt, "memory");
        let args = args_again(alloc).expect(&rt, "memory");
        let answer = if next == 0 {
            f.finish(args, &mut funcs)
        } else {
            funcs.add(f.local_func(args))
        };
        is_added(&rt, alloc, &mut funcs, answer, next);
    }
}

// After a refusal the function is whole. A copy is a function of its own.
#[test]
fn a_refused_clone_changes_nothing(rt: HostRuntime) {
    let alloc = rt.alloc();
    let f = named_again(alloc).expect(&rt, "memory");
    let args = args_again(alloc).expect(&rt, "memory");
    let mut func = f.local_func(args);
    let copy = match func.clone() {
        Ok(copy) => copy,
        Err(_) => {
            is_whole(&rt, alloc, &func);
            func.clone().expect(&rt, "memory")
        }
    };
    func.args.clear();
    is_whole(&rt, alloc, &copy);
}
