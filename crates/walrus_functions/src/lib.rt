//! Function bodies of WebAssembly modules: functions and their builders.
//!
//! - [`FunctionBuilder`] builds a function: sequences of instructions by id, one of which runs
//!   first.
//! - [`InstrSeqBuilder`] adds instructions to one of the sequences, with a call for each common
//!   instruction. Calls such as [`InstrSeqBuilder::block`] make the sequence inside an instruction
//!   too.
//! - [`LocalFunction`] is a function that has a body, and [`LocalFunctions`] are the functions of a
//!   module that have one.
//!
//! Nothing here validates: any instruction may go anywhere, and a body may even contain itself.
//!
//! # A function that adds two numbers in a loop
//!
//! While the second number is not zero, the first becomes one more and the second one less.
//!
//! ```
//! fn sum_by_counting(
//!     alloc: Global,
//!     types: &mut ModuleTypes,
//!     first: LocalId,
//!     second: LocalId,
//! ) -> Result<FunctionBuilder, BuildError> {
//!     let nothing = InstrSeqType::Simple(None);
//!     let numbers = [ValType::I32, ValType::I32];
//!     let mut builder = FunctionBuilder::new(alloc, types, &numbers, &[ValType::I32])?;
//!     let mut body = builder.func_body();
//!     body.block(nothing, |block| {
//!         let done = block.id();
//!         block.loop_(nothing, |again| count(again, done, first, second))
//!     })?;
//!     body.local_get(first)?;
//!     Ok(builder)
//! }
//!
//! // Leaves the block where the second number is zero. Else counts once, and begins again.
//! fn count(
//!     again: &mut InstrSeqBuilder<'_>,
//!     done: InstrSeqId,
//!     first: LocalId,
//!     second: LocalId,
//! ) -> Result<(), BuildError>
//!     requires { IsKnown again.old }
//!     ensures same { Stays again.old again.new }
//!     ensures known { StayKnown (function_of again.old) (function_of again.new) }
//! {
//!     again.local_get(second)?;
//!     again.unop(UnaryOp::I32Eqz)?;
//!     again.br_if(done)?;
//!     add_number(again, first, 1)?;
//!     add_number(again, second, -1)?;
//!     again.br(again.id())
//! }
//!
//! // Adds a number to the local.
//! fn add_number(
//!     body: &mut InstrSeqBuilder<'_>,
//!     local: LocalId,
//!     number: i32,
//! ) -> Result<(), BuildError>
//!     requires { IsKnown body.old }
//!     ensures same { Stays body.old body.new }
//!     ensures known { StayKnown (function_of body.old) (function_of body.new) }
//! {
//!     body.local_get(local)?;
//!     body.i32_const(number)?;
//!     body.binop(BinaryOp::I32Add)?;
//!     body.local_set(local)
//! }
//! ```
#![tactic(auto)]

mod error;
mod function_builder;
mod local_function;
mod local_functions;

pub use error::BuildError;
pub use function_builder::{FunctionBuilder, InstrSeqBuilder};
pub use local_function::LocalFunction;
pub use local_functions::LocalFunctions;
