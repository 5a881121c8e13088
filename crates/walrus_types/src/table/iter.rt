//! The iterator of a table.
ghost use Rattle.std.specs.Iterator.{YieldsFirstBy, YieldsLastBy, item_count};

use crate::Type;
use std::marker::Model;
use walrus_arena::Iter;

/// The live types of a table in the order of their ids, seen as the list of those that are left.
#[derive(Drop)]
pub struct TypesIter<'a> {
    pub(super) items: Iter<'a, Type>,
}

impl<'a> Model for TypesIter<'a> {
    ghost use Rattle.std.specs.Prelude.{List, map};
    ghost use Rattle.walrus_ty.specs.Types.{ModuleType};

    ghost Value = { List ModuleType };

    ghost view = { λ it. map (λ item. item.1) it.items };
}

impl<'a> Iterator for TypesIter<'a> {
    type Item = &'a Type;

    ghost next_gives = { YieldsFirstBy (λ ty. ty.now) (λ rest. rest) };

    ghost remaining = { item_count (λ rest. rest) };

    fn next(&mut self) -> Option<&'a Type> {
        match self.items.next() {
            Some((_, ty)) => Some(ty),
            None => None,
        }
    }
}

impl<'a> DoubleEndedIterator for TypesIter<'a> {
    ghost next_back_gives = { YieldsLastBy (λ ty. ty.now) (λ rest. rest) };

    fn next_back(&mut self) -> Option<&'a Type> {
        match self.items.next_back() {
            Some((_, ty)) => Some(ty),
            None => None,
        }
    }
}
