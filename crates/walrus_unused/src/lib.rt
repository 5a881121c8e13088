//! Types that nothing uses.
//!
//! - [`delete_unused_types`] deletes the types of a table that no root needs.
//! - [`new_indices`] maps the type indices of a section to its indices once it is written again.
//!   The rest of the module still names the old ones.
//! - [`laws`] has the theorem on that map.
//!
//! The roots are the types that the rest of a module names. `walrus_passes` lists the ones that a
//! function brings.
//!
//! One of two types is used, and the written section has that one alone:
//!
//! ```
//! let mut types = ModuleTypes::new(rt.alloc());
//! types.add(&[ValType::F64], &[])?;
//! let used = types.add(&[ValType::I32], &[])?;
//! delete_unused_types(rt.alloc(), &mut types, &[used])?;
//! let (groups, _) = types.emit()?;
//! let section = encode_types(rt.alloc(), groups.as_slice())?;
//! assert_eq!(rt; section.as_slice(), [1, 0x60, 1, 0x7F, 0].as_slice());
//! ```
#![tactic(auto)]

mod index_maps;
pub mod laws;
mod unused_types;

pub use index_maps::new_indices;
pub use unused_types::delete_unused_types;
