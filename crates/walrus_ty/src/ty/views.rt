//! Types seen by their kind.
ghost use Rattle.std.specs.Prelude.{◌≡◌, IsSome, Some, is_some, option_copied};
ghost use Rattle.std.specs.Option.{option_copied_mut};
ghost use Rattle.std.specs.Borrow.{LendsIf, sem};
ghost use Rattle.walrus_ty.specs.Types.{signature_of};
ghost use Rattle.walrus_ty.specs.Views.{struct_of, array_of};
ghost use Rattle.walrus_ty.specs.contracts.ty.composite.CompositeType.{the_row};
ghost use Rattle.walrus_ty.specs.contracts.ty.composite.FunctionType.{the_row as function_row};
ghost use Rattle.walrus_ty.specs.declared.ty.composite.CompositeType.TheVariants as kind;

use super::{ArrayType, CompositeType, FunctionType, StructType, Type};

impl CompositeType {
    /// The function type, if it is one.
    pub fn as_function(&self) -> Option<&FunctionType>
        ensures { option_copied result ≡ signature_of self.now }
    {
        match self {
            CompositeType::Function(f) => Some(f),
            CompositeType::Struct(_) => None,
            CompositeType::Array(_) => None,
        }
    }

    /// The function type for writing, if it is one.
    pub fn as_function_mut(&mut self) -> Option<&mut FunctionType>
        ensures* writes_back { sem 𝓛
            (LendsIf the_row function_row self.entry result kind.Function self.old) }
        ensures value { option_copied_mut result ≡ signature_of self.old }
    {
        match self {
            CompositeType::Function(own) => Some(own),
            CompositeType::Struct(_) => None,
            CompositeType::Array(_) => None,
        }
    }

    /// The struct type, if it is one.
    pub fn as_struct(&self) -> Option<&StructType>
        ensures { option_copied result ≡ struct_of self.now }
    {
        match self {
            CompositeType::Function(_) => None,
            CompositeType::Struct(s) => Some(s),
            CompositeType::Array(_) => None,
        }
    }

    /// The array type, if it is one.
    pub fn as_array(&self) -> Option<&ArrayType>
        ensures { option_copied result ≡ array_of self.now }
    {
        match self {
            CompositeType::Function(_) => None,
            CompositeType::Struct(_) => None,
            CompositeType::Array(a) => Some(a),
        }
    }

    /// Whether it is a function type.
    pub fn is_function(&self) -> bool
        ensures { result ≡ is_some (signature_of self.now) }
    {
        self.as_function().is_some()
    }

    /// Whether it is a struct type.
    pub fn is_struct(&self) -> bool
        ensures { result ≡ is_some (struct_of self.now) }
    {
        self.as_struct().is_some()
    }

    /// Whether it is an array type.
    pub fn is_array(&self) -> bool
        ensures { result ≡ is_some (array_of self.now) }
    {
        self.as_array().is_some()
    }

    /// The function type that it is.
    pub fn unwrap_function(&self) -> &FunctionType
        requires { IsSome (signature_of self.now) }
        ensures { signature_of self.now ≡ Some result.now }
    {
        self.as_function().unwrap()
    }

    /// The struct type that it is.
    pub fn unwrap_struct(&self) -> &StructType
        requires { IsSome (struct_of self.now) }
        ensures { struct_of self.now ≡ Some result.now }
    {
        self.as_struct().unwrap()
    }

    /// The array type that it is.
    pub fn unwrap_array(&self) -> &ArrayType
        requires { IsSome (array_of self.now) }
        ensures { array_of self.now ≡ Some result.now }
    {
        self.as_array().unwrap()
    }
}

impl Type {
    /// The function type, if it is made of one.
    pub fn as_function(&self) -> Option<&FunctionType>
        ensures { option_copied result ≡ signature_of self.now.kind }
    {
        self.kind().as_function()
    }

    /// The struct type, if it is made of one.
    pub fn as_struct(&self) -> Option<&StructType>
        ensures { option_copied result ≡ struct_of self.now.kind }
    {
        self.kind().as_struct()
    }

    /// The array type, if it is made of one.
    pub fn as_array(&self) -> Option<&ArrayType>
        ensures { option_copied result ≡ array_of self.now.kind }
    {
        self.kind().as_array()
    }

    /// Whether it is made of a function type.
    pub fn is_function(&self) -> bool
        ensures { result ≡ is_some (signature_of self.now.kind) }
    {
        self.kind().is_function()
    }

    /// Whether it is made of a struct type.
    pub fn is_struct(&self) -> bool
        ensures { result ≡ is_some (struct_of self.now.kind) }
    {
        self.kind().is_struct()
    }

    /// Whether it is made of an array type.
    pub fn is_array(&self) -> bool
        ensures { result ≡ is_some (array_of self.now.kind) }
    {
        self.kind().is_array()
    }
}
