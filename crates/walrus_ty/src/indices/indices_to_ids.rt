//! The ids for the indices of a binary module.
ghost use Rattle.std.specs.Prelude.{◌≡◌, ◌+◌, ◌^◌, ◌<◌, ◌≤◌, take, vec_len, vec_capacity, [], ◌∷◌, ◌++◌, length, OnOk, OnErr, slice_get, slice_set};
ghost use Rattle.std.specs.List.{range_with_len};
ghost use Rattle.std.specs.Option.{ok_or};

use crate::{FunctionId, GlobalId, TypeId, UnknownIndex};
use std::alloc::{AllocError, Global};
use std::marker::Model;

/// The ids for the indices of a binary module. Types, functions and globals are numbered apart,
/// each from 0. WebAssembly core specification, "Modules", indices.
#[derive(Drop)]
pub struct IndicesToIds {
    types: Vec<TypeId>,
    funcs: Vec<FunctionId>,
    globals: Vec<GlobalId>,
}

impl Model for IndicesToIds {
    ghost use Rattle.walrus_ty.specs.IdLists.{IdLists};

    ghost Value = { IdLists };

    ghost view = { λ m. record {
      types = m.types.items;
      funcs = m.funcs.items;
      globals = m.globals.items;
    } };
}

impl IndicesToIds {
    /// A map without indices. It takes no memory.
    pub fn new(alloc: Global) -> IndicesToIds
        ensures { result ≡ record { types = []; funcs = []; globals = [] } }
    {
        IndicesToIds {
            types: Vec::new(alloc),
            funcs: Vec::new(alloc),
            globals: Vec::new(alloc),
        }
    }

    /// Gives this type the next type index. A refusal changes nothing.
    pub fn push_type(&mut self, id: TypeId) -> Result<(), AllocError>
        ensures ok { OnOk result
            (self.new ≡ record self.old { types = self.old.types ++ id ∷ [] }) }
        ensures err { OnErr result (self.new ≡ self.old) }
    {
        self.types.push(id)?;
        Ok(())
    }

    /// Gives this function the next function index. A refusal changes nothing.
    pub fn push_func(&mut self, id: FunctionId) -> Result<(), AllocError>
        ensures ok { OnOk result
            (self.new ≡ record self.old { funcs = self.old.funcs ++ id ∷ [] }) }
        ensures err { OnErr result (self.new ≡ self.old) }
    {
        self.funcs.push(id)?;
        Ok(())
    }

    /// Gives this global the next global index. A refusal changes nothing.
    pub fn push_global(&mut self, id: GlobalId) -> Result<(), AllocError>
        ensures ok { OnOk result
            (self.new ≡ record self.old { globals = self.old.globals ++ id ∷ [] }) }
        ensures err { OnErr result (self.new ≡ self.old) }
    {
        self.globals.push(id)?;
        Ok(())
    }

    /// The type with this index, or `UnknownIndex` where there is none.
    pub fn get_type(&self, index: u32) -> Result<TypeId, UnknownIndex>
        ensures { result ≡ ok_or (slice_get self.now.types index) (record { 0 = index }) }
    {
        match self.types.get(index as usize) {
            Some(id) => Ok(*id),
            None => Err(UnknownIndex(index)),
        }
    }

    /// The function with this index, or `UnknownIndex` where there is none.
    pub fn get_func(&self, index: u32) -> Result<FunctionId, UnknownIndex>
        ensures { result ≡ ok_or (slice_get self.now.funcs index) (record { 0 = index }) }
    {
        match self.funcs.get(index as usize) {
            Some(id) => Ok(*id),
            None => Err(UnknownIndex(index)),
        }
    }

    /// The global with this index, or `UnknownIndex` where there is none.
    pub fn get_global(&self, index: u32) -> Result<GlobalId, UnknownIndex>
        ensures { result ≡ ok_or (slice_get self.now.globals index) (record { 0 = index }) }
    {
        match self.globals.get(index as usize) {
            Some(id) => Ok(*id),
            None => Err(UnknownIndex(index)),
        }
    }

    /// Gives a type index that is in the map to this type instead.
    pub fn remap_type(&mut self, index: u32, id: TypeId)
        requires { index < length self.old.types }
        ensures { self.new ≡ record self.old { types = slice_set self.old.types index id } }
    {
        self.types[index as usize] = id;
    }

    /// The number of type indices in the map.
    pub fn type_count(&self) -> usize
        ensures { result ≡ length self.now.types }
    {
        self.types.len()
    }

    /// Gives the next `count` type indices to the types with consecutive ids from the place `first`
    /// on. All or none: a refusal changes nothing.
    pub fn push_types(&mut self, first: usize, count: usize) -> Result<(), AllocError>
        requires { first + count < 2 ^ 64 }
        ensures ok { OnOk result
            (self.new ≡ record self.old { types = self.old.types ++ range_with_len first count }) }
        ensures err { OnErr result (self.new ≡ self.old) }
    {
        self.types.reserve(count)?;
        push_ids(&mut self.types, first, count);
        Ok(())
    }

    /// Takes the type indices from `count` on out of the map, such as to undo `push_type` or
    /// `push_types`. The first `count` keep their types. It takes no memory.
    pub fn truncate_types(&mut self, count: usize)
        ensures { self.new ≡ record self.old { types = take count self.old.types } }
    {
        self.types.truncate(count);
    }

    /// The types of the indices, in order. It takes no memory.
    pub fn into_types(self) -> Vec<TypeId>
        ensures { result.items ≡ self.types }
    {
        self.types
    }
}

// Pushes `count` ids, from the first on, for which there is room.
fn push_ids(ids: &mut Vec<TypeId>, first: usize, count: usize)
    requires fits { first + count < 2 ^ 64 }
    requires room { vec_len ids.old + count ≤ vec_capacity ids.old }
    ensures { ids.new.items ≡ ids.old.items ++ range_with_len first count }
{
    for k in 0..count {
        ids.push_reserved(TypeId::from_index(first + k));
    }
}
