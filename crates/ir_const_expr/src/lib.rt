//! Constant expressions of WebAssembly modules as data.
//!
//! - [`ConstExpr`] is a constant expression, whose operations are [`ConstOp`]s, which name types,
//!   functions and globals by id.
//! - [`ConstOpAt`] is an operation of a module's binary, which names them by index.
//! - [`laws`] has the theorem that what is read is written again.
//!
//! Nothing here validates. `walrus_ir` exports all of this.
//!
//! # A constant, if it is one
//!
//! ```
//! fn constant(
//!     alloc: Global,
//!     ops: &[ConstOpAt],
//!     ids: &IndicesToIds,
//! ) -> Result<Option<Value>, FromRecordError> {
//!     match ConstExpr::eval(alloc, ops, ids)? {
//!         ConstExpr::Value(value) => Ok(Some(value)),
//!         _ => Ok(None),
//!     }
//! }
//! ```
#![tactic(auto)]

mod const_expr;
pub mod laws;

pub use const_expr::{ConstExpr, ConstOp, ConstOpAt};
