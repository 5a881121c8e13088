//! What no contract says: that calls succeed with ample memory, that `on_delete` runs once, and
//! worked rows.
use std::alloc::{AllocError, Global};
use std::process::Abort;
use std::test::Fail;
use walrus_arena::{ArenaSet, HashKeys, Id, IdHashMap, Tombstone, TombstoneArena};

mod arena;
mod deletions;
mod ids;
mod interner;
mod keys;
mod refusals;
mod set;

// A value that is equal by its key alone.
#[derive(Clone, Copy)]
#[derive_where(PartialEq, Eq, Hash)]
struct Tagged {
    key: u32,
    #[derive_where(skip(EqHashOrd))]
    note: u32,
}

impl Tombstone for Tagged {}

fn make_tagged(key: u32, note: u32) -> Tagged {
    Tagged { key, note }
}

// The index of the id that `find` returns.
fn index_of(set: &ArenaSet<Tagged>, key: u32) -> Option<usize> {
    Some(set.find(&make_tagged(key, 0))?.index())
}
