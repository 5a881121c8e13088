//! WebAssembly modules whose type section is in canonical form.
//!
//! [`canonical_module`] replaces the type section of a module by its canonical form, and writes every
//! other index of a type again, so that it means an equal type. It puts together calls of the crates
//! below: [`module_types`](wasm_binary::module_types) reads the section,
//! [`canonicalise`](walrus_canonical::canonicalise) returns its canonical form and the new index of
//! each type, [`encode_types`](wasm_binary::encode_types) writes the canonical form, and
//! [`rename_module`](wasm_module::rename_module) writes the module. Where [`NormaliseOptions`] want
//! that, the types that nothing uses are deleted, and
//! [`strip_descriptions`](wasm_module::strip_descriptions) leaves out debug data and the like. Where
//! these are kept, [`find_outdated`](wasm_module::find_outdated) looks for a custom section that no
//! longer fits. [`find_hazard`] looks for what can be wrong in the result, and
//! [`strict_canonical_module`] returns only a module in which nothing can be wrong.
//!
//! # Which section no longer fits
//!
//! [`NormaliseModuleError::Outdated`] has the place of the section, at which
//! [`custom_section_name`](wasm_binary::custom_section_name) finds its name. For the place that
//! another error has, [`section_around`](wasm_binary::section_around) finds the section.
//!
//! ```
//! fn outdated_name(bytes: &[u8], error: NormaliseModuleError) -> Option<&[u8]> {
//!     match error {
//!         NormaliseModuleError::Outdated { offset } => custom_section_name(bytes.get(offset..)?),
//!         _ => None,
//!     }
//! }
//! ```
#![tactic(auto)]

mod canonical_modules;
mod canonical_types;
mod error;
mod faults;
mod hazards;
pub mod laws;
mod options;
mod refusal;
mod strict;

pub use canonical_modules::canonical_module;
pub use error::NormaliseModuleError;
pub use hazards::{Hazard, find_hazard};
pub use options::{Descriptions, NormaliseOptions, UnusedTypes};
pub use strict::{StrictError, strict_canonical_module};
pub use walrus_canonical::HashKeys;
pub use wasm_module::Widths;
