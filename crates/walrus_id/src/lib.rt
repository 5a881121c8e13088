//! Ids of the items of an arena, and what a type needs so that an arena holds it.
//!
//! - [`Id`] is the place of an item in its arena. Ids of different item types are different types.
//! - [`HashKeys`] are the keys of the hash of a set. Use random ones where the values are not
//!   trusted.
//! - [`Tombstone`] is what happens to an item when it is deleted.
//!
//! `walrus_arena` has the arenas and the sets, and exports all of these. This crate is for types
//! that hold ids, and need no arena.
#![tactic(auto)]

mod hash_keys;
mod id;
mod tombstone;

pub use hash_keys::HashKeys;
pub use id::{Id, Key};
pub use tombstone::Tombstone;
