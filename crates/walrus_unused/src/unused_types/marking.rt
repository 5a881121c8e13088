//! The marks of needed types.
ghost use Rattle.std.specs.Prelude.{◌≡◌, ◌<◌, ◌+◌, [], ◌∷◌, length, All, IfOk, OnOk, MatchOption, filter, not};
ghost use Rattle.walrus_types.specs.TypesById.{IsLive};
ghost use Rattle.walrus_types.specs.Table.{IsTable};
ghost use Rattle.walrus_unused.specs.Steps.Marking.{no_marks, with_work, is_marked, with_mark, with_marks, with_group_marks, with_all_group_marks, named_ids, Covers, IsUnmarked, MarksNeeded};

use std::alloc::{AllocError, Global};
use std::marker::Model;
use walrus_types::{ModuleTypes, TypeId};

// Which types are known to be needed, and which of them have names that are still to be followed.
#[derive(Drop)]
pub(super) struct Marking {
    // Whether each id is marked.
    marks: Vec<bool>,
    // What is to be done, the next at the end.
    work: Vec<TypeId>,
}

impl Model for Marking {
    ghost use Rattle.std.specs.Prelude.{reverse};
    ghost use Rattle.walrus_unused.specs.Steps.Marking.{State};

    ghost Value = { State };

    ghost view = { λ s. record { marks = s.marks.items; work = reverse s.work.items } };
}

impl Marking {
    // No marks, with a place for each id below this number, and room for `room` ids to follow.
    pub(super) fn new(alloc: Global, ids: usize, room: usize) -> Result<Marking, AllocError>
        ensures { IfOk result (λ s. s ≡ no_marks ids) }
    {
        Ok(Marking {
            marks: vec![in alloc; false; ids]?,
            work: Vec::with_capacity(alloc, room)?,
        })
    }

    // Marks the types that these roots need.
    pub(super) fn mark_needed(
        &mut self,
        alloc: Global,
        types: &ModuleTypes,
        roots: &[TypeId],
    ) -> Result<(), AllocError>
        requires live { All (IsLive types.now.types.slots) roots.now }
        requires covers { Covers types.now self.old }
        requires unmarked { IsUnmarked self.old }
        ensures { OnOk result (MarksNeeded types.now roots.now self.new) }
    {
        self.reach_all(types, roots)?;
        while let Some(id) = self.next() {
            self.visit(alloc, types, id)?;
        }
        Ok(())
    }

    fn next(&mut self) -> Option<TypeId>
        ensures { MatchOption result
            ((self.old.work ≡ []) × (self.new ≡ self.old))
            (λ id. self.old ≡ with_work id self.new) }
    {
        self.work.pop()
    }

    // Reaches the types that this one names.
    fn visit(&mut self, alloc: Global, types: &ModuleTypes, id: TypeId) -> Result<(), AllocError>
        requires live { IsLive types.now.types.slots id }
        requires covers { Covers types.now self.old }
        ensures { OnOk result
            (self.new ≡ with_all_group_marks types.now (named_ids types.now id) self.old) }
    {
        let mut names = Vec::new(alloc);
        types.get(id).referenced_types(&mut names)?;
        self.reach_all(types, names.as_slice())
    }

    // Reaches each of these in turn.
    pub(super) fn reach_all(
        &mut self,
        types: &ModuleTypes,
        ids: &[TypeId],
    ) -> Result<(), AllocError>
        requires { Covers types.now self.old }
        ensures { OnOk result (self.new ≡ with_all_group_marks types.now ids.now self.old) }
    {
        for id in ids {
            self.reach(types, *id)?;
        }
        Ok(())
    }

    // Marks the group of an id that has no mark yet. Where it isn't live there is none.
    fn reach(&mut self, types: &ModuleTypes, id: TypeId) -> Result<(), AllocError>
        requires { Covers types.now self.old }
        ensures { OnOk result (self.new ≡ with_group_marks types.now id self.old) }
    {
        if self.is_marked(id) {
            return Ok(());
        }
        match types.rec_group_for_type(id) {
            Some(group) => self.mark_all(group.types.as_slice()),
            None => Ok(()),
        }
    }

    fn is_marked(&self, id: TypeId) -> bool
        ensures { result ≡ is_marked self.now id }
    {
        id.index() < self.marks.len() && self.marks[id.index()]
    }

    // Marks each of these in turn.
    fn mark_all(&mut self, ids: &[TypeId]) -> Result<(), AllocError>
        requires { All (λ id. id < length self.old.marks) ids.now }
        ensures { OnOk result (self.new ≡ with_marks ids.now self.old) }
    {
        for id in ids {
            self.mark(*id)?;
        }
        Ok(())
    }

    // Marks an id that has no mark yet: its names are to be followed.
    fn mark(&mut self, id: TypeId) -> Result<(), AllocError>
        requires { id < length self.old.marks }
        ensures { OnOk result (self.new ≡ with_mark id self.old) }
    {
        if self.marks[id.index()] {
            return Ok(());
        }
        self.work.push(id)?;
        self.marks[id.index()] = true;
        Ok(())
    }

    // The ids of these that have no mark.
    pub(super) fn unmarked_ids(
        &self,
        alloc: Global,
        ids: &[TypeId],
    ) -> Result<Vec<TypeId>, AllocError>
        ensures { IfOk result (λ v. v.items ≡ filter (λ id. not (is_marked self.now id)) ids.now) }
    {
        let mut unmarked = Vec::new(alloc);
        for id in ids {
            if !self.is_marked(*id) {
                unmarked.push(*id)?;
            }
        }
        Ok(unmarked)
    }
}
