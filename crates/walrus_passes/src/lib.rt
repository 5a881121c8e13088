//! Passes over WebAssembly modules.
//!
//! - [`delete_unused_types`] deletes the types that no root needs, and [`used_types`] lists the
//!   roots that a function brings.
//! - [`snip`] makes the body of a function a single `unreachable`, and [`replace_with`] gives it
//!   another one.
//! - [`unreachable_function`] makes a function of a type that traps. [`snip_calls`] has a function
//!   trap where it would call one of some functions.
//! - [`adapter`] makes a function that calls another one of its type, and [`adapter_between`] one
//!   that converts parameters and results. [`redirect_calls`] has a function call another one in
//!   place of one, such as an adapter in place of an import.
//! - [`map_instrs`] changes each instruction of a function by a closure.
//! - [`new_indices`] maps the type indices of a section to its indices once it is written again.
//!   The rest of the module still names the old ones.
//! - [`laws`] has the theorems, such as that no type which a function uses is deleted.
//!
//! [`delete_unused_types`] and [`new_indices`] are those of `walrus_unused`, which knows no function.
//!
//! One of two types is used, and the written section has that one alone:
//!
//! ```
//! let mut types = ModuleTypes::new(rt.alloc());
//! types.add(&[ValType::F64], &[])?;
//! let used = types.add(&[ValType::I32], &[])?;
//! delete_unused_types(rt.alloc(), &mut types, &[used])?;
//! let (groups, _) = types.emit()?;
//! let section = encode_types(rt.alloc(), groups.as_slice())?;
//! assert_eq!(rt; section.as_slice(), [1, 0x60, 1, 0x7F, 0].as_slice());
//! ```
#![tactic(auto)]

mod adapters;
mod bodies;
mod calls;
mod converting_adapters;
mod instrs;
pub mod laws;
mod roots;
mod unreachable;

pub use adapters::adapter;
pub use bodies::{replace_with, snip};
pub use calls::{redirect_calls, snip_calls};
pub use converting_adapters::adapter_between;
pub use instrs::map_instrs;
pub use roots::used_types;
pub use unreachable::unreachable_function;
pub use walrus_unused::{delete_unused_types, new_indices};
