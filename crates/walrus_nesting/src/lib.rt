//! What walks over function bodies of WebAssembly modules ask for, and why they end early.
//!
//! - [`check_nesting`] tells whether a body is nested, and shows why.
//! - [`push_children`] pushes the sequences inside an instruction onto a stack.
//! - [`WalkError`] is why a walk ended before its end.
//! - [`laws`] has the theorems.
//!
//! How many sequences are reached from the first one on:
//!
//! ```
//! fn reached(alloc: Global, func: &LocalFunction) -> Result<Option<usize>, AllocError> {
//!     match check_nesting(alloc, func, Id::from_index(0))? {
//!         Nesting::Nested(seqs) => Ok(Some(seqs.len())),
//!         Nesting::Cycle { .. } | Nesting::Unknown(_) => Ok(None),
//!     }
//! }
//! ```
//!
//! `walrus_traversals` and `walrus_traversals_mut`, which have the walks, export both.
#![tactic(auto)]

mod children;
pub mod laws;
mod nesting;
mod walk_error;

pub use children::push_children;
pub use nesting::{Nesting, check_nesting};
pub use walk_error::WalkError;
