//! The iterator of an arena.
ghost use Rattle.std.specs.Iterator.{YieldsFirstBy, YieldsLastBy, item_count};

use super::tombstone_arena::Slot;
use crate::Id;
use std::marker::Model;

/// The live items of an arena with their ids, in the order of the ids. A contract sees it as the
/// list of those that are left.
#[derive(Drop)]
pub struct Iter<'a, T> {
    pub(crate) slots: &'a [Slot<T>],
    // The id of the first of `slots`.
    pub(crate) first: usize,
}

impl<'a, T> Model for Iter<'a, T> {
    ghost use Rattle.std.specs.Prelude.{ℕ, List, map, ◌+◌, ◌<◌, ◌^◌, length};

    ghost Value = { List (ℕ × T) };

    ghost use Rattle.walrus_arena.specs.Arena.{items_from};
    ghost use Rattle.walrus_arena.specs.Slot.{value_of};

    ghost view = { λ it. items_from it.first (map value_of it.slots.now) };

    ghost invariant = { λ it. it.first + length it.slots.now < 2 ^ 64 };
}

impl<'a, T> Iterator for Iter<'a, T> {
    type Item = (Id<T>, &'a T);

    ghost next_gives = { YieldsFirstBy (λ item. (item.0, item.1.now)) (λ rest. rest) };

    ghost remaining = { item_count (λ rest. rest) };

    fn next(&mut self) -> Option<(Id<T>, &'a T)> {
        while let Some((slot, rest)) = self.slots.split_first() {
            let at = self.first;
            self.slots = rest;
            self.first += 1;
            if slot.is_live {
                return Some((Id::from_index(at), &slot.item));
            }
        }
        None
    }
}

impl<'a, T> DoubleEndedIterator for Iter<'a, T> {
    ghost next_back_gives = { YieldsLastBy (λ item. (item.0, item.1.now)) (λ rest. rest) };

    fn next_back(&mut self) -> Option<(Id<T>, &'a T)> {
        while let Some((slot, rest)) = self.slots.split_last() {
            self.slots = rest;
            if slot.is_live {
                return Some((Id::from_index(self.first + rest.len()), &slot.item));
            }
        }
        None
    }
}
