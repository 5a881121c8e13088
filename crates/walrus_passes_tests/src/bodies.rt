//! Functions whose body is replaced, for the tests of refusals.
ghost use Rattle.std.specs.Prelude.{IsSome};
ghost use Rattle.walrus_types.specs.Table.{signature_at};

use crate::assertions::assert_equal;
use std::alloc::{AllocError, Global};
use std::process::Abort;
use walrus_functions::{BuildError, FunctionBuilder, LocalFunction, LocalFunctions};
use walrus_ir::{Instr, InstrLocId, InstrSeqType, LocalId, Value};
use walrus_passes::{replace_with, snip};
use walrus_types::{FunctionId, Id, ModuleTypes, TypeId, ValType};

// The function is of one sequence, of instructions of this text, which is made again after a
// refusal.
pub(crate) fn has(rt: &impl Abort, alloc: Global, func: &LocalFunction, expected: &str) {
    let id = Id::from_index(0);
    assert!(rt; func.contains_block(id) && func.block_count() == 1);
    let instrs = func.block(id).instrs.as_slice();
    let text = match text_of(alloc, instrs) {
        Ok(text) => text,
        Err(_) => text_of(alloc, instrs).expect(rt, "memory"),
    };
    assert_equal(rt, text.as_str(), expected);
}

fn text_of(alloc: Global, instrs: &[(Instr, InstrLocId)]) -> Result<String, AllocError> {
    let mut text = String::new(alloc);
    let mut gap = "";
    for (instr, _) in instrs {
        text.push_str(gap)?;
        add_instr(&mut text, instr)?;
        gap = ", ";
    }
    Ok(text)
}

fn add_instr(text: &mut String, instr: &Instr) -> Result<(), AllocError> {
    let (word, number) = match instr {
        Instr::Call(x) => ("call", x.func.index()),
        Instr::RefFunc(x) => ("ref.func", x.func.index()),
        Instr::LocalGet(x) => ("local.get", x.local.index()),
        Instr::LocalSet(x) => ("local.set", x.local.index()),
        Instr::Const(x) => return add_value(text, x.value),
        Instr::Unreachable(_) => return text.push_str("unreachable"),
        _ => return text.push_str("another"),
    };
    Ok(write!(text, "{word} {number}")?)
}

fn add_value(text: &mut String, value: Value) -> Result<(), AllocError> {
    match value {
        Value::I32(n) => Ok(write!(text, "i32 {n}")?),
        _ => text.push_str("another"),
    }
}

// The id of this index, which has to be of a function type.
pub(crate) fn function_type(rt: &impl Abort, types: &ModuleTypes, index: usize) -> TypeId
    ensures { IsSome (signature_at types.now result) }
{
    let ty = TypeId::from_index(index);
    assert!(rt; types.contains(ty) && types.get(ty).is_function());
    ty
}

// A function `f` that takes an `i32` as the local 3 and leaves 7.
fn seven(alloc: Global) -> Result<LocalFunction, BuildError> {
    let mut types = ModuleTypes::new(alloc);
    let mut f = FunctionBuilder::new(alloc, &mut types, &[ValType::I32], &[ValType::I32])?;
    f.name(String::from_str(alloc, "f")?);
    let mut body = f.func_body();
    body.i32_const(7)?;
    Ok(f.local_func(third_local(alloc)?))
}

fn third_local(alloc: Global) -> Result<Vec<LocalId>, AllocError> {
    Ok(vec![in alloc; Id::from_index(3)]?)
}

fn one_seven(alloc: Global) -> Result<LocalFunctions, BuildError> {
    let mut funcs = LocalFunctions::new(alloc);
    if funcs.add(seven(alloc)?).is_err() {
        return Err(BuildError::Memory);
    }
    Ok(funcs)
}

// Such a function as the function 0. It is made again after a refusal.
pub(crate) fn sevens(alloc: Global) -> Result<LocalFunctions, BuildError> {
    match one_seven(alloc) {
        Ok(funcs) => Ok(funcs),
        Err(_) => one_seven(alloc),
    }
}

// A builder of a body that leaves 8.
pub(crate) fn eight(alloc: Global) -> Result<FunctionBuilder, BuildError> {
    let mut f = FunctionBuilder::without_entry(alloc, Id::from_index(0));
    let mut body = f.dangling_instr_seq(InstrSeqType::Simple(Some(ValType::I32)))?;
    body.i32_const(8)?;
    Ok(f)
}

pub(crate) fn replace_first(
    rt: &impl Abort,
    alloc: Global,
    funcs: &mut LocalFunctions,
    body: FunctionBuilder,
) -> Result<(), AllocError> {
    let id: FunctionId = Id::from_index(0);
    assert!(rt; funcs.contains(id));
    replace_with(alloc, funcs, id, body)
}

pub(crate) fn snip_first(
    rt: &impl Abort,
    alloc: Global,
    funcs: &mut LocalFunctions,
) -> Result<(), AllocError> {
    let id: FunctionId = Id::from_index(0);
    assert!(rt; funcs.contains(id));
    snip(alloc, funcs, id)
}

// The function 0 has the name and the argument that it had, and these instructions.
pub(crate) fn is(rt: &impl Abort, alloc: Global, funcs: &LocalFunctions, text: &str) {
    let id: FunctionId = Id::from_index(0);
    assert!(rt; funcs.contains(id));
    let func = funcs.get(id);
    assert_equal(rt, func.name(), Some("f"));
    assert_equal(rt, func.args.as_slice(), [Id::from_index(3)].as_slice());
    has(rt, alloc, func, text);
}
