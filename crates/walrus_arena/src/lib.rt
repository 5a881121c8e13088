//! Arenas whose items are named by ids, and sets of values over them: the lowest layer of walrus.
//!
//! - [`Id`] is the place of an item in its arena. Ids of different item types are different types.
//! - [`TombstoneArena`] hands out ids for items. A deleted item leaves a dead slot behind, so an id
//!   is never handed out again.
//! - [`ArenaSet`] is such an arena with a map from values to ids, so that equal values get one id.
//! - [`HashKeys`] are the keys of its hash. Use random ones where the values are not trusted.
//! - [`IdHashMap`] and [`IdHashSet`] are std's map and set with ids as keys.
//!
//! Each call that takes memory returns a `Result`. If memory is refused, nothing changes. Deletions
//! take no memory.
//!
//! # An interner of names
//!
//! A set gives each name one id, and the id gives the name back:
//!
//! ```
//! struct Names {
//!     names: ArenaSet<String>,
//! }
//!
//! impl Names {
//!     fn id_of(&mut self, name: String) -> Result<Id<String>, AllocError> {
//!         self.names.insert(name)
//!     }
//!
//!     fn name(&self, id: Id<String>) -> &str
//!         requires { IsLive self.now.names.slots id }
//!     {
//!         self.names[id].as_str()
//!     }
//! }
//! ```
//!
//! The tests of this crate, in `walrus_arena_tests`, have the whole example.
#![tactic(auto)]

mod arena_set;
mod iter;
pub mod laws;
mod map;
mod tombstone_arena;

pub use arena_set::ArenaSet;
pub use iter::Iter;
pub use map::{IdHashMap, IdHashSet};
pub use tombstone_arena::TombstoneArena;
pub use walrus_id::{HashKeys, Id, Key, Tombstone};
