//! The kinds that are still to come.
ghost use Rattle.std.specs.Prelude.{◌≡◌, [], ◌∷◌, ◌++◌, OnOk, IfOk};
ghost use Rattle.wasm_module.specs.Immediates.{times};
ghost use Rattle.wasm_module.specs.Steps.Heads.{kinds_or_none};
ghost use Rattle.wasm_module.specs.Steps.Stacks.{IsTaken};
ghost use Rattle.wasm_module.specs.Steps.Tables.{row_kinds};

use crate::kind::{Immediates, Kind};
use std::alloc::{AllocError, Global};
use std::marker::Model;

/// A kind that is still to come once, and this many times more.
#[derive(Clone, Copy)]
pub struct Entry {
    kind: Kind,
    more: u32,
}

/// Kinds that are still to come. A contract sees their list, the next one first.
#[derive(Drop)]
pub struct Stack {
    // The next kind, and how many times it comes.
    kind: Kind,
    count: u32,
    // What comes after it, the last first.
    below: Vec<Entry>,
}

impl Model for Stack {
    ghost use Rattle.std.specs.Prelude.{List, ◌++◌, reverse};
    ghost use Rattle.wasm_module.specs.declared.kind.Kind.{Kind};

    ghost Value = { List Kind };

    ghost use Rattle.wasm_module.specs.Immediates.{times};
    ghost use Rattle.wasm_module.specs.Steps.Stacks.{kinds_below};

    ghost view = { λ s. times s.count s.kind ++ kinds_below (reverse s.below.items) };
}

impl Stack {
    /// A stack of one kind.
    pub fn new(alloc: Global, kind: Kind) -> Stack
        ensures { result ≡ kind ∷ [] }
    {
        Stack {
            kind,
            count: 1,
            below: Vec::new(alloc),
        }
    }

    /// A stack of the kinds of a row.
    pub fn from_immediates(alloc: Global, row: Immediates) -> Result<Stack, AllocError>
        ensures { IfOk result (λ stack. stack ≡ kinds_or_none (row_kinds row)) }
    {
        let mut stack = Stack {
            kind: Kind::Zero,
            count: 0,
            below: Vec::new(alloc),
        };
        stack.push_immediates(row)?;
        Ok(stack)
    }

    /// Takes the next kind.
    pub fn next_kind(&mut self) -> Option<Kind>
        ensures { IsTaken result self.old self.new }
    {
        if self.count > 0 {
            self.count -= 1;
            return Some(self.kind);
        }
        match self.below.pop() {
            Some(entry) => {
                self.kind = entry.kind;
                self.count = entry.more;
                Some(entry.kind)
            }
            None => None,
        }
    }

    /// Puts a kind in front, this many times.
    pub fn push_times(&mut self, count: u32, kind: Kind) -> Result<(), AllocError>
        ensures { OnOk result (self.new ≡ times count kind ++ self.old) }
    {
        if count == 0 {
            return Ok(());
        }
        if self.count == 0 {
            self.kind = kind;
            self.count = count;
            return Ok(());
        }
        self.below.push(Entry {
            kind: self.kind,
            more: self.count - 1,
        })?;
        self.kind = kind;
        self.count = count;
        Ok(())
    }

    /// Puts a kind in front.
    pub fn push(&mut self, kind: Kind) -> Result<(), AllocError>
        ensures { OnOk result (self.new ≡ kind ∷ self.old) }
    {
        self.push_times(1, kind)
    }

    /// Puts the kinds of a row in front.
    pub fn push_immediates(&mut self, row: Immediates) -> Result<(), AllocError>
        ensures { OnOk result (self.new ≡ kinds_or_none (row_kinds row) ++ self.old) }
    {
        match row {
            Immediates::NoInstruction => Ok(()),
            Immediates::Zero => Ok(()),
            Immediates::One(first) => self.push(first),
            Immediates::Two(first, second) => {
                self.push(second)?;
                self.push(first)
            }
            Immediates::Three(first, second, third) => {
                self.push(third)?;
                self.push(second)?;
                self.push(first)
            }
            Immediates::Four(first, second, third, fourth) => {
                self.push(fourth)?;
                self.push(third)?;
                self.push(second)?;
                self.push(first)
            }
        }
    }
}
