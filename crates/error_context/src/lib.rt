//! What is known of the bytes of a module beside an error. A program prints it behind the error.
//!
//! - [`context_of_error`] and [`context_of`] return a [`Context`]: the section that the error is
//!   in, what the bytes look like if they are no module, or what a code would be in a proposal to
//!   WebAssembly.
//! - A [`NamedSection`] is a section with its name, and a [`ShownName`] the name of a custom section
//!   as messages show it.
#![tactic(auto)]

mod context;
mod lookalike;
mod proposal;
mod shown_name;

pub use context::{Context, NamedSection, context_of, context_of_error};
pub use lookalike::Lookalike;
pub use proposal::{Code, Part, Proposal, ProposedPart};
pub use shown_name::ShownName;
