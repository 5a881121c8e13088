//! Walks over function bodies of WebAssembly modules that change nothing.
//!
//! - [`dfs_in_order`] calls the hooks of a [`Visitor`] over a nested body, in order, and
//!   [`report_fields`] those of one instruction.
//! - [`OnlyInstrs`] makes a visitor of an [`InstrVisitor`], which has one hook, and [`OnlyIds`] of
//!   an [`IdVisitor`], whose one hook takes an [`AnyId`].
//! - [`check_nesting`], of `walrus_nesting`, says whether a body is nested, and shows why.
//! - [`UsedIds`] is a visitor that collects the ids that a body names, and [`used_ids`] checks and
//!   walks in one.
//! - [`laws`] has the theorems.
//!
//! How many sequences are reached from the first one on, and how many locals are named there:
//!
//! ```
//! fn reached(alloc: Global, func: &LocalFunction) -> Result<Option<usize>, AllocError> {
//!     match check_nesting(alloc, func, Id::from_index(0))? {
//!         Nesting::Nested(seqs) => Ok(Some(seqs.len())),
//!         Nesting::Cycle { .. } | Nesting::Unknown(_) => Ok(None),
//!     }
//! }
//!
//! fn named_locals(alloc: Global, func: &LocalFunction) -> Result<Option<usize>, AllocError> {
//!     let ids = used_ids(alloc, func, Id::from_index(0))?;
//!     Ok(ids.map(|ids| ids.locals.len()))
//! }
//! ```
#![tactic(auto)]

mod fields;
mod id_visitor;
mod ids;
mod instr_visitor;
pub mod laws;
mod traversals;
mod visitor;

pub use fields::report_fields;
pub use id_visitor::{AnyId, IdVisitor, OnlyIds};
pub use ids::{UsedIds, used_ids};
pub use instr_visitor::{InstrVisitor, OnlyInstrs};
pub use traversals::dfs_in_order;
pub use visitor::Visitor;
pub use walrus_nesting::{Nesting, WalkError, check_nesting};
