//! The iterator of a module's locals.
ghost use Rattle.std.specs.Iterator.{YieldsFirstBy, YieldsLastBy, item_count};

use super::Local;
use std::marker::Model;

/// The locals of a module in the order of their ids, seen as the list of those that are left.
#[derive(Drop)]
pub struct LocalsIter<'a> {
    pub(super) left: &'a [Local],
}

impl<'a> Model for LocalsIter<'a> {
    ghost use Rattle.std.specs.Prelude.{List};
    ghost use Rattle.ir_instr.specs.Locals.{LocalVariable};

    ghost Value = { List LocalVariable };

    ghost view = { λ it. it.left.now };
}

impl<'a> Iterator for LocalsIter<'a> {
    type Item = &'a Local;

    ghost next_gives = { YieldsFirstBy (λ local. local.now) (λ rest. rest) };

    ghost remaining = { item_count (λ rest. rest) };

    fn next(&mut self) -> Option<&'a Local> {
        match self.left.split_first() {
            Some((local, rest)) => {
                self.left = rest;
                Some(local)
            }
            None => None,
        }
    }
}

impl<'a> DoubleEndedIterator for LocalsIter<'a> {
    ghost next_back_gives = { YieldsLastBy (λ local. local.now) (λ rest. rest) };

    fn next_back(&mut self) -> Option<&'a Local> {
        match self.left.split_last() {
            Some((local, rest)) => {
                self.left = rest;
                Some(local)
            }
            None => None,
        }
    }
}

impl<'a> ExactSizeIterator for LocalsIter<'a> {
    fn len(&self) -> usize {
        self.left.len()
    }
}
