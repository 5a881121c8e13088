//! The example of the front page of `walrus_functions`.
ghost use Rattle.walrus_functions.specs.Building.{function_of, IsKnown, Stays, StayKnown};

use super::*;
use walrus_ir::{InstrSeqId, LocalId};
use walrus_types::ValType;

// While the second number is not zero, the first becomes one more and the second one less.
fn sum_by_counting(
    alloc: Global,
    types: &mut ModuleTypes,
    first: LocalId,
    second: LocalId,
) -> Result<FunctionBuilder, BuildError> {
    let nothing = InstrSeqType::Simple(None);
    let numbers = [ValType::I32, ValType::I32];
    let mut builder = FunctionBuilder::new(alloc, types, &numbers, &[ValType::I32])?;
    let mut body = builder.func_body();
    body.block(nothing, |block| {
        let done = block.id();
        block.loop_(nothing, |again| count(again, done, first, second))
    })?;
    body.local_get(first)?;
    Ok(builder)
}

// Leaves the block where the second number is zero. Else counts once, and begins again.
fn count(
    again: &mut InstrSeqBuilder<'_>,
    done: InstrSeqId,
    first: LocalId,
    second: LocalId,
) -> Result<(), BuildError>
    requires { IsKnown again.old }
    ensures same { Stays again.old again.new }
    ensures known { StayKnown (function_of again.old) (function_of again.new) }
{
    again.local_get(second)?;
    again.unop(UnaryOp::I32Eqz)?;
    again.br_if(done)?;
    add_number(again, first, 1)?;
    add_number(again, second, -1)?;
    again.br(again.id())
}

// Adds a number to the local.
fn add_number(body: &mut InstrSeqBuilder<'_>, local: LocalId, number: i32) -> Result<(), BuildError>
    requires { IsKnown body.old }
    ensures same { Stays body.old body.new }
    ensures known { StayKnown (function_of body.old) (function_of body.new) }
{
    body.local_get(local)?;
    body.i32_const(number)?;
    body.binop(BinaryOp::I32Add)?;
    body.local_set(local)
}

#[test]
fn a_sum_by_counting(rt: HostRuntime) {
    let (first, second) = (Id::from_index(7), Id::from_index(8));
    let mut types = ModuleTypes::new(rt.alloc());
    let builder = sum_by_counting(rt.alloc(), &mut types, first, second).expect(&rt, "memory");
    let args = vec![in rt.alloc(); first, second].expect(&rt, "memory");
    let func = builder.local_func(args);
    let text = "(block 1, local.get 7)(loop 2)(local.get 8, i32.eqz, br_if 1, local.get 7, i32 1, \
                i32.add, local.set 7, local.get 8, i32 -1, i32.add, local.set 8, br 2)";
    has(&rt, rt.alloc(), &func, text);
}
