//! Recursion groups, and adding explicit ones to a table.
ghost use Rattle.std.specs.Prelude.{◌≡◌, ◌≢◌, ◌+◌, ◌<◌, ◌≤◌, ◌^◌, ℕ, ◌++◌, length, replicate, vec_len, vec_capacity, IfOk, OnOk, OnErr, Ok, Err};
ghost use Rattle.std.specs.Fn.{FnOnceReturnsAt, FnOnceTakesAt};
ghost use Rattle.std.specs.List.{range_with_len};
ghost use Rattle.walrus_types.specs.Table.{member_types, AddsGroup, next_id, Builds};
ghost use Rattle.walrus_types.specs.declared.table.rec_group.AddRecGroupError.TheVariants.{Count};

use super::ModuleTypes;
use crate::{CompositeType, Listed, Type, TypeId};
use std::alloc::{AllocError, AllocFailed};
use thiserror::Error;
use walrus_arena::Id;

/// A recursion group: `rectype` in the WebAssembly core specification.
#[derive(Clone, Debug, Drop)]
pub struct RecGroup {
    /// The ids of its types in order.
    pub types: Listed<TypeId>,
    /// Whether it was given as a group. A type that was given alone has a group without this mark.
    pub is_explicit: bool,
}

/// The id of a recursion group: its place among the groups of its module.
pub type RecGroupId = Id<RecGroup>;

/// Why a recursion group was not added.
#[derive(Clone, Copy, PartialEq, Eq, Debug, Error)]
pub enum AddRecGroupError {
    /// Another number of types was built than was asked for.
    #[error("wanted {wanted}, got {got}")]
    Count { wanted: usize, got: usize },
    /// Memory was refused, here or in the closure that builds the types.
    #[error("out of memory")]
    Memory,
}

impl From<AllocError> for AddRecGroupError {
    ghost use Rattle.std.specs.Prelude.{◌≡◌};
    ghost use Rattle.walrus_types.specs.declared.table.rec_group.AddRecGroupError.TheVariants.{Memory};

    ghost from_gives = { λ _ e. e ≡ Memory };

    fn from(_: AllocError) -> AddRecGroupError {
        AddRecGroupError::Memory
    }
}

impl<T: Drop> From<AllocFailed<T>> for AddRecGroupError {
    ghost use Rattle.std.specs.Prelude.{◌≡◌};
    ghost use Rattle.walrus_types.specs.declared.table.rec_group.AddRecGroupError.TheVariants.{Memory};

    ghost from_gives = { λ _ e. e ≡ Memory };

    fn from(_: AllocFailed<T>) -> AddRecGroupError {
        AddRecGroupError::Memory
    }
}

impl ModuleTypes {
    /// Adds an explicit recursion group of `count` types at the end, and returns their ids
    /// (WebAssembly core specification, "Types", recursive types).
    ///
    /// The types are made by `build`, which runs at most once, on a slice of exactly `count` ids.
    /// These are the ids that the types will have, in order. So the types can name each other, and
    /// `build` may index the slice at each place below `count`. The only condition on `build` is
    /// that it can be called with these ids. It returns the composite type, finality and supertype
    /// of each type. The types have no name. They are not shared: later additions of equal types
    /// never return one of their ids.
    ///
    /// # Errors
    ///
    /// `Count` comes where `build` made another number of types than `count`. `Memory` comes where
    /// memory was refused, or `build` returned an error. After an error the table is as it was, and
    /// no id is used up.
    pub fn add_rec_group<
        F: FnOnce(&[TypeId]) -> Result<Vec<(CompositeType, bool, Option<TypeId>)>, AllocError>
            + Drop,
    >(&mut self, count: usize, build: F) -> Result<Vec<TypeId>, AddRecGroupError>
        requires { FnOnceTakesAt F.FnOnce build (range_with_len (next_id self.old) count) }
        ensures ids { IfOk result (λ ids. ids.items ≡ range_with_len (next_id self.old) count) }
        ensures ok { OnOk result
            (Builds (FnOnceReturnsAt F.FnOnce build) (range_with_len (next_id self.old) count)
            (λ members. (length members ≡ count) × AddsGroup self.old self.new members)) }
        ensures err { OnErr result (self.new ≡ self.old) }
        ensures count { (wanted : ℕ) (got : ℕ) → result ≡ Err (Count wanted got) →
            (wanted ≡ count) × (got ≢ count) ×
            Builds (FnOnceReturnsAt F.FnOnce build) (range_with_len (next_id self.old) count)
            (λ members. length members ≡ got) }
    {
        let ids = self.next_ids(count)?;
        let members = build(ids.as_slice())?;
        if members.len() != count {
            return Err(AddRecGroupError::Count {
                wanted: count,
                got: members.len(),
            });
        }
        self.place_group(members)?;
        Ok(ids)
    }

    // The ids that this many new types will have.
    fn next_ids(&self, count: usize) -> Result<Vec<TypeId>, AllocError>
        ensures { IfOk result (λ ids. ids.items ≡ range_with_len (next_id self.now) count) }
    {
        let first = self.group_of.len();
        let mut ids = Vec::with_capacity(*self.groups.allocator(), count)?;
        for k in 0..count {
            ids.push_reserved(TypeId::from_index(first + k));
        }
        Ok(ids)
    }

    // Gives each of these types a new slot, and all of them one explicit group at the end. None of
    // them is found by value.
    pub(crate) fn place_group(
        &mut self,
        members: Vec<(CompositeType, bool, Option<TypeId>)>,
    ) -> Result<(), AllocError>
        ensures ok { OnOk result (AddsGroup self.old self.new members.items) }
        ensures err { OnErr result (self.new ≡ self.old) }
    {
        let count = members.len();
        let types = types_with_ids(self.group_of.len(), members)?;
        self.groups.reserve(1)?;
        self.group_of.reserve(count)?;
        let ids = self.types.alloc_all(types)?;
        push_all(&mut self.group_of, self.groups.len(), count);
        self.groups.push_reserved(RecGroup {
            types: Listed::from_vec(ids),
            is_explicit: true,
        });
        Ok(())
    }
}

// The types with these definitions, under ids from the first on.
fn types_with_ids(
    first: usize,
    members: Vec<(CompositeType, bool, Option<TypeId>)>,
) -> Result<Vec<Type>, AllocError>
    requires { first + vec_len members < 2 ^ 64 }
    ensures { IfOk result (λ types. types.items ≡ member_types first members.items) }
{
    let alloc = *members.allocator();
    let mut types = Vec::with_capacity(alloc, members.len())?;
    for (kind, is_final, supertype) in members {
        let id = TypeId::from_index(first + types.len());
        types.push_reserved(Type::new(alloc, id, kind, is_final, supertype));
    }
    Ok(types)
}

// Pushes the number `count` times, for which there is room.
fn push_all(numbers: &mut Vec<usize>, number: usize, count: usize)
    requires { vec_len numbers.old + count ≤ vec_capacity numbers.old }
    ensures { numbers.new.items ≡ numbers.old.items ++ replicate count number }
{
    for _ in 0..count {
        numbers.push_reserved(number);
    }
}
