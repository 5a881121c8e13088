//! Worked bodies.
ghost use Rattle.std.specs.Prelude.{IfOk, IsSome};
ghost use Rattle.std.specs.Borrow.{MutBor};
ghost use Rattle.walrus_functions.specs.Building.{function_of, IsKnown};
ghost use Rattle.walrus_functions.specs.declared.function_builder.instr_seq_builder.InstrSeqBuilder.{InstrSeqBuilder as Builder};

mod calls;
mod examples;
mod front_page;
mod functions;
mod nested;
mod plain;
mod printed;
mod refusals;
mod texts;

use crate::assertions::assert_equal;
use std::alloc::{AllocError, Global};
use std::process::Abort;
use texts::has;
use walrus_functions::{
    BuildError, FunctionBuilder, InstrSeqBuilder, LocalFunction, LocalFunctions,
};
use walrus_ir::{BinaryOp, DropInstr, Instr, InstrSeqType, UnaryOp, Unreachable, Value};
use walrus_types::{Id, ModuleTypes};

const NOTHING: InstrSeqType = InstrSeqType::Simple(None);

// A function without parameters and results, over an empty table of types.
fn begin(alloc: Global) -> Result<FunctionBuilder, AllocError>
    ensures { IfOk result (λ f. IsSome f.entry) }
{
    let mut types = ModuleTypes::new(alloc);
    FunctionBuilder::new(alloc, &mut types, &[], &[])
}

// What the closure returns, called on the entry of a new function, and the text of the function as
// it is then.
fn builds<F: FnOnce(&mut InstrSeqBuilder<'_>) -> Result<(), BuildError>>(
    rt: &impl Abort,
    alloc: Global,
    text: &str,
    outcome: Result<(), BuildError>,
    fill: F,
)
    requires { (b : MutBor Builder) → IsKnown b.now → IsSome (function_of b.now).entry
        → F.pre fill b }
{
    let mut f = begin(alloc).expect(rt, "memory");
    let mut entry = f.func_body();
    let answer = fill(&mut entry);
    assert_equal(rt, answer, outcome);
    has(rt, alloc, &f.local_func(Vec::new(alloc)), text);
}
