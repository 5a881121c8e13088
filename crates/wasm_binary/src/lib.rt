//! The type section of a WebAssembly module in the binary format, as records of
//! [`walrus_ty`](walrus_ty::GroupAt).
//!
//! - [`type_section`] finds the type section of a module. [`section_around`] says which section a
//!   byte is in, and [`custom_section_name`] which name it has.
//! - [`decode_types`] reads the groups of a section, and says where bytes are no text of groups.
//!   [`module_types`] reads the groups of a module.
//! - [`encode_types`] writes the shortest text of groups.
//! - [`laws`] has the theorems: bytes are a text of at most one list of groups, and have at most
//!   one first bad byte. No text is the beginning of a longer one. Bytes are a module of at most
//!   one list of sections.
//!
//! Whether the bytes are read as groups that have this text for their shortest:
//!
//! ```
//! fn shortens(alloc: Global, bytes: &[u8], shortest: &[u8]) -> bool {
//!     let Ok(groups) = decode_types(alloc, bytes) else {
//!         return false;
//!     };
//!     match encode_types(alloc, &groups) {
//!         Ok(written) => written.as_slice() == shortest,
//!         Err(_) => false,
//!     }
//! }
//! ```
#![tactic(auto)]

mod decode;
mod encode;
mod error;
pub mod laws;
mod leb128;
mod module;

pub use decode::decode_types;
pub use encode::encode_types;
pub use error::{DecodeError, EncodeError, Expected, NotHeld};
pub use module::{SectionPlace, custom_section_name, module_types, section_around, type_section};
