//! The normal form of a type section, made of its records alone.
//!
//! A section is read record by record: each index gets a slot, and equal lone types share one. The
//! groups that are left are sorted as far as references allow, and each record is moved to its new
//! place, where its names are written again. No table of types is made on the way.
#![tactic(auto)]

mod free;
mod keyed_entry;
mod normal_form;
mod order;
mod read;
mod rename;
mod rename_group;
mod slot_group;
pub mod sort_key;
mod write;

pub use normal_form::{normalise, normalise_owned};
pub use walrus_id::HashKeys;
pub use walrus_sections::ReadError;
pub use walrus_ty::GroupAt;
