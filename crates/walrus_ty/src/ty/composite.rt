//! Function, struct and array types.
//! WebAssembly core specification, "Types", composite types.
ghost use Rattle.std.specs.Prelude.{◌≡◌, ◌↔◌, IsTrue};
ghost use Rattle.walrus_ty.specs.Types.{function};

use crate::{FieldType, Listed, ValType};
use std::alloc::Global;
use std::marker::Model;

/// A function type.
#[derive(Clone, PartialEq, Eq, PartialOrd, Ord, Hash, Debug, Drop)]
pub struct FunctionType {
    params: Listed<ValType>,
    results: Listed<ValType>,
}

/// A struct type.
#[derive(Clone, PartialEq, Eq, PartialOrd, Ord, Hash, Debug, Drop)]
pub struct StructType {
    /// Its fields in order.
    pub fields: Listed<FieldType>,
}

/// An array type.
#[derive(Clone, Copy, PartialEq, Eq, PartialOrd, Ord, Hash, Debug)]
pub struct ArrayType {
    /// What each of its elements is.
    pub field: FieldType,
}

/// A composite type: what a type is made of.
#[derive(Clone, PartialEq, Eq, PartialOrd, Ord, Hash, Debug, Drop)]
pub enum CompositeType {
    Function(FunctionType),
    Struct(StructType),
    Array(ArrayType),
}

impl Model for FunctionType {
    ghost use Rattle.walrus_ty.specs.Signature.{Signature};

    ghost Value = { Signature };

    ghost view = { λ f. record { params = f.params; results = f.results } };

    ghost inverse = { λ s. record { params = s.params; results = s.results } };
}

impl FunctionType {
    /// The function type with these parameters and results. It takes no memory.
    pub fn new(params: Vec<ValType>, results: Vec<ValType>) -> FunctionType
        ensures { result ≡ record { params = params.items; results = results.items } }
    {
        FunctionType {
            params: Listed::from_vec(params),
            results: Listed::from_vec(results),
        }
    }

    /// The types of its parameters in order.
    pub fn params(&self) -> &[ValType]
        ensures { result.now ≡ self.now.params }
    {
        self.params.as_slice()
    }

    /// The types of its results in order.
    pub fn results(&self) -> &[ValType]
        ensures { result.now ≡ self.now.results }
    {
        self.results.as_slice()
    }

    pub(crate) fn allocator(&self) -> Global {
        self.params.allocator()
    }
}

impl CompositeType {
    /// Whether it is the function type with these parameters and results.
    pub fn is_function_of(&self, params: &[ValType], results: &[ValType]) -> bool
        ensures { IsTrue result ↔ (self.now ≡ function params.now results.now) }
    {
        match self {
            CompositeType::Function(f) => f.params() == params && f.results() == results,
            CompositeType::Struct(_) => false,
            CompositeType::Array(_) => false,
        }
    }
}
