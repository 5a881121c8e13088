//! The indices that things get in a binary module.
ghost use Rattle.std.specs.Prelude.{◌≡◌, ◌+◌, ◌^◌, ◌<◌, ◌≤◌, length, None, All, IsOk, OnOk, OnErr, nat_eq};
ghost use Rattle.std.specs.HashMap.{spare};
ghost use Rattle.std.specs.List.{IsDistinct};
ghost use Rattle.std.specs.Option.{ok_or};
ghost use Rattle.walrus_ty.specs.declared.error.NoIndex.TheVariants.{OfType, OfFunc, OfGlobal};
ghost use Rattle.walrus_ty.specs.Indices.{GivesNext, GivesAll, IsEmpty, IsSame, index_map, type_indices, func_indices, global_indices};

use crate::{Function, FunctionId, Global, GlobalId, NoIndex, Type, TypeId};
use std::alloc::AllocError;
use std::collections::HashMap;
use walrus_id::Id;

/// The indices of types, functions and globals in a binary module, for each kind in the order in
/// which its ids were pushed, from 0.
/// WebAssembly core specification, "Modules", indices.
#[derive(Drop)]
pub struct IdsToIndices {
    types: Indices<Type>,
    funcs: Indices<Function>,
    globals: Indices<Global>,
}

// The indices of one kind.
#[derive(Drop)]
struct Indices<T> {
    by_id: HashMap<Id<T>, u32>,
    count: u64,
}

impl<T> Indices<T> {
    fn new(alloc: std::alloc::Global) -> Indices<T>
        ensures { IsEmpty (index_map result) }
    {
        Indices {
            by_id: HashMap::new(alloc),
            count: 0,
        }
    }

    fn push(&mut self, id: Id<T>) -> Result<(), AllocError>
        requires room { self.old.count < 2 ^ 32 }
        ensures ok { OnOk result (GivesNext (index_map self.old) (index_map self.new) id) }
        ensures err { OnErr result (IsSame (index_map self.old) (index_map self.new)) }
        ensures succeeds { 0 < spare self.old.by_id → IsOk result }
        ensures spare { spare self.old.by_id ≤ spare self.new.by_id + 1 }
    {
        self.by_id.insert(id, self.count as u32)?;
        self.count += 1;
        Ok(())
    }

    fn push_all(&mut self, ids: &[Id<T>]) -> Result<(), AllocError>
        requires fresh { All (λ id. (index_map self.old).index id ≡ None) ids.now }
        requires distinct { IsDistinct nat_eq ids.now }
        requires room { self.old.count + length ids.now ≤ 2 ^ 32 }
        ensures ok { OnOk result (GivesAll (index_map self.old) (index_map self.new) ids.now) }
        ensures err { OnErr result (IsSame (index_map self.old) (index_map self.new)) }
    {
        self.by_id.reserve(ids.len())?;
        for id in ids {
            // There is room for it.
            self.push(Id::from_index(id.index()))?;
        }
        Ok(())
    }

    fn get(&self, id: Id<T>) -> Option<u32>
        ensures { result ≡ (index_map self.now).index id }
    {
        self.by_id.get(&id).copied()
    }
}

impl IdsToIndices {
    /// A map in which no id has an index. It takes no memory.
    pub fn new(alloc: std::alloc::Global) -> IdsToIndices
        ensures types { IsEmpty (type_indices result) }
        ensures funcs { IsEmpty (func_indices result) }
        ensures globals { IsEmpty (global_indices result) }
    {
        IdsToIndices {
            types: Indices::new(alloc),
            funcs: Indices::new(alloc),
            globals: Indices::new(alloc),
        }
    }

    /// Gives the next type index, which must be below 2^32, to this type, which has none. A refusal
    /// changes nothing.
    pub fn push_type(&mut self, id: TypeId) -> Result<(), AllocError>
        requires fresh { (type_indices self.old).index id ≡ None }
        requires room { (type_indices self.old).count < 2 ^ 32 }
        ensures ok { OnOk result (GivesNext (type_indices self.old) (type_indices self.new) id) }
        ensures err { OnErr result (IsSame (type_indices self.old) (type_indices self.new)) }
        ensures funcs { IsSame (func_indices self.old) (func_indices self.new) }
        ensures globals { IsSame (global_indices self.old) (global_indices self.new) }
    {
        self.types.push(id)
    }

    /// Gives the next function index, which must be below 2^32, to this function, which has none. A
    /// refusal changes nothing.
    pub fn push_func(&mut self, id: FunctionId) -> Result<(), AllocError>
        requires fresh { (func_indices self.old).index id ≡ None }
        requires room { (func_indices self.old).count < 2 ^ 32 }
        ensures ok { OnOk result (GivesNext (func_indices self.old) (func_indices self.new) id) }
        ensures err { OnErr result (IsSame (func_indices self.old) (func_indices self.new)) }
        ensures types { IsSame (type_indices self.old) (type_indices self.new) }
        ensures globals { IsSame (global_indices self.old) (global_indices self.new) }
    {
        self.funcs.push(id)
    }

    /// Gives the next global index, which must be below 2^32, to this global, which has none. A
    /// refusal changes nothing.
    pub fn push_global(&mut self, id: GlobalId) -> Result<(), AllocError>
        requires fresh { (global_indices self.old).index id ≡ None }
        requires room { (global_indices self.old).count < 2 ^ 32 }
        ensures ok { OnOk result
            (GivesNext (global_indices self.old) (global_indices self.new) id) }
        ensures err { OnErr result (IsSame (global_indices self.old) (global_indices self.new)) }
        ensures types { IsSame (type_indices self.old) (type_indices self.new) }
        ensures funcs { IsSame (func_indices self.old) (func_indices self.new) }
    {
        self.globals.push(id)
    }

    /// Gives the next type indices, which must be below 2^32, to these types in order: distinct
    /// ones that have none. All or none: a refusal changes nothing.
    pub fn push_all_types(&mut self, ids: &[TypeId]) -> Result<(), AllocError>
        requires fresh { All (λ id. (type_indices self.old).index id ≡ None) ids.now }
        requires distinct { IsDistinct nat_eq ids.now }
        requires room { (type_indices self.old).count + length ids.now ≤ 2 ^ 32 }
        ensures ok { OnOk result
            (GivesAll (type_indices self.old) (type_indices self.new) ids.now) }
        ensures err { OnErr result (IsSame (type_indices self.old) (type_indices self.new)) }
        ensures funcs { IsSame (func_indices self.old) (func_indices self.new) }
        ensures globals { IsSame (global_indices self.old) (global_indices self.new) }
    {
        self.types.push_all(ids)
    }

    /// The index of this type, or `NoIndex` where it has none.
    pub fn get_type_index(&self, id: TypeId) -> Result<u32, NoIndex>
        ensures { result ≡ ok_or ((type_indices self.now).index id) (OfType id) }
    {
        self.types.get(id).ok_or(NoIndex::OfType(id))
    }

    /// The index of this function, or `NoIndex` where it has none.
    pub fn get_func_index(&self, id: FunctionId) -> Result<u32, NoIndex>
        ensures { result ≡ ok_or ((func_indices self.now).index id) (OfFunc id) }
    {
        self.funcs.get(id).ok_or(NoIndex::OfFunc(id))
    }

    /// The index of this global, or `NoIndex` where it has none.
    pub fn get_global_index(&self, id: GlobalId) -> Result<u32, NoIndex>
        ensures { result ≡ ok_or ((global_indices self.now).index id) (OfGlobal id) }
    {
        self.globals.get(id).ok_or(NoIndex::OfGlobal(id))
    }
}
