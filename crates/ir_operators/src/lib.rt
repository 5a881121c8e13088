//! The operators of WebAssembly's instructions, what memory accesses touch, and constants, as data.
//!
//! - [`UnaryOp`], [`BinaryOp`] and [`TernaryOp`] are the operators on values.
//! - [`LoadKind`], [`StoreKind`] and [`LoadSimdKind`] say what a memory access reads or writes, and
//!   [`AtomicOp`] and [`AtomicWidth`] what an atomic one does.
//! - [`Value`] is a constant.
//!
//! With `{:?}` a `Value` prints its variant, and all others print the name of their type alone.
//!
//! Nothing here names a type, a memory or anything else of a module. `ir_instr` has the instructions
//! that these are parts of, and `walrus_ir` exports both. Names are from walrus's `ir`.
//!
//! # How much of memory is read
//!
//! ```
//! fn is_whole_word(kind: &LoadKind) -> bool {
//!     kind.width() == 4 && !kind.atomic()
//! }
//! ```
#![tactic(auto)]

mod atomics;
mod binary_op;
mod kinds;
mod ternary_op;
mod unary_op;
mod value;

pub use atomics::{AtomicOp, AtomicWidth};
pub use binary_op::BinaryOp;
pub use kinds::{ExtendedLoad, LoadKind, LoadSimdKind, StoreKind};
pub use ternary_op::TernaryOp;
pub use unary_op::UnaryOp;
pub use value::Value;
