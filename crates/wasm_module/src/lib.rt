//! WebAssembly modules in the binary format.
//!
//! - [`sections`] returns the sections of a module, with their places.
//! - [`named_types`] returns the types that a module names outside its type section, and
//!   [`section_types`] those of one section.
//! - [`expression_types`] and [`body_types`] return the types that code names.
//! - [`rename_expression`] and [`rename_body`] return code with other indices of types, and
//!   [`rename_section`] and [`rename_custom_section`] the content of a section.
//! - [`rename_module`] returns a module with another type section, and with other indices of types
//!   everywhere else.
//! - [`check_module`] says whether the contents of a module's sections can be read, and otherwise
//!   where not.
//! - [`strip_descriptions`] returns a module without the custom sections that describe its other
//!   bytes, such as debug data.
//! - [`find_outdated`] returns the place of the first of these sections that no longer fits where
//!   the module is written again. [`description_kind`] says what a section describes.
//! - [`find_unknown_custom`] returns the place of the first custom section of an unknown kind, and
//!   [`find_unread_names`] that of the first section `name` that can't be read.
#![tactic(auto)]

mod append;
mod bodies;
mod code;
mod contents;
mod customs;
mod description_kinds;
mod framing;
mod head;
mod kind;
pub mod laws;
mod leb128;
mod lengths;
mod name_maps;
mod name_section;
mod named;
mod one_byte_immediates;
mod opcodes;
mod outdated;
mod renamed_code;
mod renamed_content;
mod renamed_module;
mod renaming;
mod scan;
mod sized;
mod stack;
mod texts;
mod typeless;
mod unknown_customs;
mod unread_names;

pub use bodies::{body_types, expression_types};
pub use customs::strip_descriptions;
pub use description_kinds::{DescriptionKind, description_kind};
pub use framing::{Section, SectionIter, sections};
pub use name_section::rename_custom_section;
pub use named::{named_types, section_types};
pub use outdated::find_outdated;
pub use renamed_content::rename_section;
pub use renamed_module::{check_module, rename_module};
pub use renaming::{RenameError, Widths, rename_body, rename_expression};
pub use scan::ScanError;
pub use unknown_customs::find_unknown_custom;
pub use unread_names::find_unread_names;
