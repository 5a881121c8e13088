//! The search in depth that the nesting check makes.
ghost use Rattle.std.specs.Prelude.{◌≡◌, ◌<◌, ◌++◌, [], ◌∷◌, length, slice_get, map, reverse, false, IfOk, OnOk, Some, MatchOption};
ghost use Rattle.walrus_functions.specs.Body.{Body, Knows};
ghost use Rattle.walrus_nesting.specs.Certificates.{Shows};
ghost use Rattle.walrus_nesting.specs.Steps.Searching.{children_in, with_work, after_enter, after_leave, IsSound, Finds, steps_left};
ghost use Rattle.walrus_nesting.specs.declared.nesting.search.Found.TheVariants.{Nothing};
ghost use Rattle.walrus_nesting.specs.declared.nesting.search.Work.TheVariants.{Enter};

use super::Nesting;
use crate::push_children;
use std::alloc::{AllocError, Global};
use std::marker::Model;
use walrus_functions::LocalFunction;
use walrus_ir::{Instr, InstrLocId, InstrSeqId};

// What is known of a sequence: nothing yet, its place on the path, or that it is done.
#[derive(Clone, Copy)]
enum Mark {
    New,
    Open(usize),
    Done,
}

#[derive(Clone, Copy)]
enum Work {
    Enter(InstrSeqId),
    Leave(InstrSeqId),
}

impl From<InstrSeqId> for Work {
    ghost from_gives = { λ id work. work ≡ Enter id };

    fn from(id: InstrSeqId) -> Work {
        Work::Enter(id)
    }
}

// What a step found: nothing wrong, a child on the path, or a child that isn't known.
#[derive(Clone, Copy)]
pub(super) enum Found {
    Nothing,
    Back(usize),
    Missing(InstrSeqId),
}

// A check under way.
#[derive(Drop)]
pub(super) struct Search {
    start: InstrSeqId,
    // A mark for each id.
    marks: Vec<Mark>,
    // The sequences that are open, each a child of the one before.
    path: Vec<InstrSeqId>,
    // What is to be done, the next at the end.
    work: Vec<Work>,
    // The sequences that are done, children first.
    done: Vec<InstrSeqId>,
}

impl Model for Search {
    ghost use Rattle.std.specs.Prelude.{reverse};
    ghost use Rattle.walrus_nesting.specs.Steps.Searching.{State};

    ghost Value = { State };

    ghost view = { λ s. record {
      start = s.start;
      marks = s.marks.items;
      path = s.path.items;
      work = reverse s.work.items;
      done = s.done.items;
    } };
}

impl Search {
    // The check that has `start` to enter.
    pub(super) fn new(
        alloc: Global,
        func: &LocalFunction,
        start: InstrSeqId,
    ) -> Result<Search, AllocError>
        ensures sound { IfOk result (IsSound func.now.body) }
        ensures start { IfOk result (λ s. s.start ≡ start) }
    {
        let marks = vec![in alloc; Mark::New; func.block_count()]?;
        let mut work = Vec::new(alloc);
        work.push(Work::Enter(start))?;
        Ok(Search {
            start,
            marks,
            path: Vec::new(alloc),
            work,
            done: Vec::new(alloc),
        })
    }

    // Does all work, or stops at the first fault.
    pub(super) fn run(&mut self, func: &LocalFunction) -> Result<Found, AllocError>
        requires { IsSound func.now.body self.old }
        ensures found { IfOk result (Finds func.now.body self.new) }
        ensures ended { IfOk result (λ found. found ≡ Nothing → self.new.work ≡ []) }
        ensures start { OnOk result (self.new.start ≡ self.old.start) }
    {
        while let Some(work) = self.next_work() {
            let found = self.take(func, work)?;
            if found.is_fault() {
                return Ok(found);
            }
        }
        Ok(Found::Nothing)
    }

    fn next_work(&mut self) -> Option<Work>
        ensures { MatchOption result
            ((self.old.work ≡ []) × (self.new ≡ self.old))
            (λ w. self.old ≡ with_work w self.new) }
    {
        self.work.pop()
    }

    // Does one piece of work.
    fn take(&mut self, func: &LocalFunction, work: Work) -> Result<Found, AllocError>
        requires { IsSound func.now.body (with_work work self.old) }
        ensures found { IfOk result (Finds func.now.body self.new) }
        ensures fewer { OnOk result
            (steps_left func.now.body self.new
            < steps_left func.now.body (with_work work self.old)) }
        ensures start { OnOk result (self.new.start ≡ self.old.start) }
    {
        match work {
            Work::Enter(id) => self.arrive(func, id),
            Work::Leave(id) => {
                self.leave(id)?;
                Ok(Found::Nothing)
            }
        }
    }

    // Comes to a child of the last sequence on the path, or to `start`.
    fn arrive(&mut self, func: &LocalFunction, id: InstrSeqId) -> Result<Found, AllocError>
        requires { IsSound func.now.body (with_work (Enter id) self.old) }
        ensures found { IfOk result (Finds func.now.body self.new) }
        ensures fewer { OnOk result
            (steps_left func.now.body self.new
            < steps_left func.now.body (with_work (Enter id) self.old)) }
        ensures start { OnOk result (self.new.start ≡ self.old.start) }
    {
        if !func.contains_block(id) {
            return Ok(Found::Missing(id));
        }
        match self.mark(id) {
            Mark::Done => Ok(Found::Nothing),
            Mark::Open(place) => Ok(Found::Back(place)),
            Mark::New => {
                self.enter(func, id)?;
                Ok(Found::Nothing)
            }
        }
    }

    // The mark of an id.
    fn mark(&self, id: InstrSeqId) -> Mark
        requires { id < length self.now.marks }
        ensures { slice_get self.now.marks id ≡ Some result }
    {
        self.marks[id.index()]
    }

    // Enters a known sequence: its children come next, and then it is left.
    fn enter(&mut self, func: &LocalFunction, id: InstrSeqId) -> Result<(), AllocError>
        requires known { Knows func.now.body id }
        requires marked { id < length self.old.marks }
        ensures { OnOk result (self.new ≡ after_enter func.now.body id self.old) }
    {
        self.marks[id.index()] = Mark::Open(self.path.len());
        self.path.push(id)?;
        self.work.push(Work::Leave(id))?;
        push_all(&mut self.work, func.block(id).instrs.as_slice())
    }

    // Leaves the last sequence on the path.
    fn leave(&mut self, id: InstrSeqId) -> Result<(), AllocError>
        requires { id < length self.old.marks }
        ensures { OnOk result (self.new ≡ after_leave id self.old) }
    {
        self.marks[id.index()] = Mark::Done;
        self.path.pop();
        self.done.push(id)?;
        Ok(())
    }

    // What a check that found this returns.
    pub(super) fn verdict(self, found: Found) -> Result<Nesting, AllocError>
        ensures { (f : Body) →
            Finds f self found → (found ≡ Nothing → self.work ≡ []) →
            IfOk result (Shows f self.start) }
    {
        let Search { mut path, done, .. } = self;
        match found {
            Found::Nothing => Ok(Nesting::Nested(done)),
            Found::Back(back_to) => Ok(Nesting::Cycle { path, back_to }),
            Found::Missing(id) => {
                path.push(id)?;
                Ok(Nesting::Unknown(path))
            }
        }
    }
}

impl Found {
    fn is_fault(&self) -> bool
        ensures nothing { result ≡ false → self.now ≡ Nothing }
        ensures fault { self.now ≡ Nothing → result ≡ false }
    {
        match self {
            Found::Nothing => false,
            Found::Back(_) | Found::Missing(_) => true,
        }
    }
}

// Pushes the children of these instructions onto the work, so that the first comes next.
#[tactic(auto, using(crate::proofs::Pushed::pushed_work))]
fn push_all(work: &mut Vec<Work>, instrs: &[(Instr, InstrLocId)]) -> Result<(), AllocError>
    ensures { OnOk result
        (reverse work.new.items ≡ map Enter (children_in instrs.now) ++ reverse work.old.items) }
{
    let mut i = instrs.len();
    while i > 0 {
        i -= 1;
        push_children(work, &instrs[i].0)?;
    }
    Ok(())
}
