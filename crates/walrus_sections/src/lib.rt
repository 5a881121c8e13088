//! The mathematics of type sections, over records alone: nothing here knows an arena or a table.
//!
//! A type section numbers its types by their order, so two sections can define the same types and
//! look different. Each section that can be read has one normal form, and one map from its indices
//! to the indices of the normal form. A type outside a recursion group is called a lone type; its
//! record is a `Single`.
//!
//! - [`first_error`] says why a recursion group can't be read.
//! - [`laws`] has the theorems: there is one normal form, a second round changes nothing, and moves
//!   of three kinds lead to it.
//!
//! `walrus_normal_form_check` decides by the definition whether a section is the normal form of
//! another.
#![tactic(auto)]

mod error;
mod group_error;
pub mod laws;

pub use error::ReadError;
pub use group_error::first_error;
