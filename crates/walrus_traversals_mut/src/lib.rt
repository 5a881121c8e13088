//! Function bodies of WebAssembly modules: walks that change them.
//!
//! - [`dfs_pre_order_mut`] calls the hooks of a [`VisitorMut`] over a nested body.
//! - [`RenameTypes`] is a visitor that renames types.
//! - [`laws`] has the theorems, such as what a walk with [`RenameTypes`] leaves of a whole body.
//!
//! Renames the types of a body by the list of their new ids, and returns whether all was walked:
//!
//! ```
//! fn is_renamed(
//!     alloc: Global,
//!     func: &mut LocalFunction,
//!     names: Vec<TypeId>,
//! ) -> Result<bool, AllocError> {
//!     let start = id(0);
//!     let mut visitor = RenameTypes::new(names);
//!     match check_nesting(alloc, func, start)? {
//!         Nesting::Nested(_) => Ok(dfs_pre_order_mut(alloc, &mut visitor, func, start).is_ok()),
//!         Nesting::Cycle { .. } | Nesting::Unknown(_) => Ok(false),
//!     }
//! }
//! ```
#![tactic(auto)]

mod fields_mut;
pub mod laws;
mod rename_types;
mod traversals_mut;
mod visitor_mut;

pub use rename_types::RenameTypes;
pub use traversals_mut::dfs_pre_order_mut;
pub use visitor_mut::VisitorMut;
pub use walrus_nesting::{Nesting, WalkError, check_nesting};
