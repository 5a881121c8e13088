//! Function bodies of WebAssembly modules: all public names of `walrus_functions`,
//! `walrus_nesting`, `walrus_traversals` and `walrus_traversals_mut`.
//!
//! - [`FunctionBuilder`] builds a function, and [`LocalFunction`] is a function that has a body.
//! - [`check_nesting`] says whether a body is nested.
//! - [`dfs_in_order`] walks over a nested body in order, and calls the hooks of a [`Visitor`].
//! - [`dfs_pre_order_mut`] walks over a nested body and changes it by the hooks of a
//!   [`VisitorMut`].
//!
//! Contracts find the definitions of these crates in `Rattle.walrus_body.specs`.
#![tactic(auto)]

// Functions and builders.
pub use walrus_functions::{
    BuildError, FunctionBuilder, InstrSeqBuilder, LocalFunction, LocalFunctions,
};

// The nesting check, and why a walk ends early.
pub use walrus_nesting::{Nesting, WalkError, check_nesting, laws as nesting_laws, push_children};

// The in-order walk.
pub use walrus_traversals::{
    AnyId, IdVisitor, InstrVisitor, OnlyIds, OnlyInstrs, UsedIds, Visitor, dfs_in_order,
    laws as traversals_laws, report_fields, used_ids,
};

// The walk that changes bodies.
pub use walrus_traversals_mut::{
    RenameTypes, VisitorMut, dfs_pre_order_mut, laws as traversals_mut_laws,
};
