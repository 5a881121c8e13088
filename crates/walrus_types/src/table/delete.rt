//! Deleting types from a table.
ghost use Rattle.std.specs.Prelude.{◌≡◌, ◌↔◌, ◌-◌, All, IsOk, IsTrue, IfOk, OnOk, MatchBool, Some, filter, length, nat_eq, not, slice_get};
ghost use Rattle.std.specs.List.{IsDistinct};
ghost use Rattle.walrus_types.specs.TypesById.{IsLive};
ghost use Rattle.walrus_types.specs.Table.{Deletes, DeletesAll, DeletesGroup, IsNamedInGroup, IsOtherNamer};

use super::ModuleTypes;
use crate::{Listed, TypeId};
use std::alloc::AllocError;
use std::mem;

impl ModuleTypes {
    /// Deletes the type of a live id, which leaves its group. It takes no memory, and always
    /// returns `Ok`.
    ///
    /// The caller has to see to it that nothing names the id any more. The call looks the type up
    /// once by its value. Beyond that it takes constant time where the type is the last of its
    /// group, else time linear in the number of the group's types.
    pub fn delete(&mut self, id: TypeId) -> Result<(), AllocError>
        requires { IsLive self.old.types.slots id }
        ensures ok { OnOk result (Deletes self.old self.new id) }
        ensures succeeds { IsOk result }
    {
        let at = self.group_of[id.index()];
        let group = &mut self.groups[at];
        remove_id(&mut group.types, id);
        self.types.remove(id)
    }

    /// Deletes each of these distinct live ids, from the last to the first, as by
    /// [`delete`](ModuleTypes::delete). It takes no memory, and always returns `Ok`.
    ///
    /// The caller has to see to it that no type that stays names one of them. Each type is looked
    /// up once by its value. Beyond that it takes constant time where it is the last of its group
    /// when its turn comes, else time linear in the number of the group's types. So where groups
    /// are deleted whole and the ids ascend, no group is visited more than once.
    pub fn delete_all(&mut self, ids: &[TypeId]) -> Result<(), AllocError>
        requires live { All (IsLive self.old.types.slots) ids.now }
        requires distinct { IsDistinct nat_eq ids.now }
        ensures ok { OnOk result (DeletesAll self.old ids.now self.new) }
        ensures succeeds { IsOk result }
    {
        let mut i = ids.len();
        while i > 0 {
            i -= 1;
            self.delete(ids[i])?;
        }
        Ok(())
    }

    /// Deletes the type of a live id and returns `true`, unless another type of its group names it.
    /// Then it returns `false`, and nothing has changed. It takes no memory, and never returns an
    /// error.
    ///
    /// A type that names itself is deleted. Names from outside the group are not looked at.
    pub fn try_delete(&mut self, id: TypeId) -> Result<bool, AllocError>
        requires { IsLive self.old.types.slots id }
        ensures deleted { IfOk result
            (λ deleted. MatchBool deleted (IsNamedInGroup self.old id → ⊥)
            (IsNamedInGroup self.old id)) }
        ensures ok { IfOk result
            (λ deleted. MatchBool deleted (Deletes self.old self.new id) (self.new ≡ self.old)) }
        ensures succeeds { IsOk result }
    {
        if self.is_named_in_group(id) {
            return Ok(false);
        }
        self.delete(id)?;
        Ok(true)
    }

    /// Deletes all types of the group of a live id. The group stays, without types. It takes no
    /// memory, and always returns `Ok`.
    pub fn delete_entire_group(&mut self, id: TypeId) -> Result<(), AllocError>
        requires { IsLive self.old.types.slots id }
        ensures ok { OnOk result (DeletesGroup self.old self.new id) }
        ensures succeeds { IsOk result }
    {
        let at = self.group_of[id.index()];
        let none = Listed::from_vec(Vec::new(*self.groups.allocator()));
        let group = &mut self.groups[at];
        let members = mem::replace(&mut group.types, none);
        self.types.remove_all(members.as_slice())
    }

    fn is_named_in_group(&self, id: TypeId) -> bool
        requires { IsLive self.now.types.slots id }
        ensures { IsTrue result ↔ IsNamedInGroup self.now id }
    {
        let group = &self.groups[self.group_of[id.index()]];
        let members = group.types.as_slice();
        for other in members {
            if self.is_other_namer(*other, id) {
                return true;
            }
        }
        false
    }

    fn is_other_namer(&self, other: TypeId, id: TypeId) -> bool
        requires { IsLive self.now.types.slots other }
        ensures { IsTrue result ↔ IsOtherNamer self.now other id }
    {
        other != id && self.types[other].names(id)
    }
}

// Takes an id out of distinct ones, in constant time where it is the last.
fn remove_id(ids: &mut Listed<TypeId>, id: TypeId)
    requires { IsDistinct nat_eq ids.old }
    ensures { ids.new ≡ filter (λ i. not (nat_eq i id)) ids.old }
{
    if is_last(ids.as_slice(), id) {
        ids.pop();
        return;
    }
    ids.remove_id(id);
}

fn is_last(ids: &[TypeId], id: TypeId) -> bool
    ensures { IsTrue result ↔ (slice_get ids.now (length ids.now - 1) ≡ Some id) }
{
    match ids.last() {
        Some(last) => *last == id,
        None => false,
    }
}
