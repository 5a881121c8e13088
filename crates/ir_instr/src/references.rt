//! References of any kind.
//! WebAssembly core specification, "Reference Instructions".

use walrus_ty::{FunctionId, HeapType, RefType};

/// `ref.null`: the null reference.
#[derive(Clone, Copy, PartialEq, Eq, Debug)]
pub struct RefNull {
    /// The type of the reference.
    pub ty: RefType,
}

/// `ref.func`: a reference to a function.
#[derive(Clone, Copy, PartialEq, Eq, Debug)]
pub struct RefFunc {
    /// The function.
    pub func: FunctionId,
}

/// `ref.is_null`: whether a reference is null.
#[derive(Clone, Copy, PartialEq, Eq, Debug)]
pub struct RefIsNull {}

/// `ref.as_non_null`: traps where a reference is null.
#[derive(Clone, Copy, PartialEq, Eq, Debug)]
pub struct RefAsNonNull {}

/// `ref.eq`: whether two references are the same.
#[derive(Clone, Copy, PartialEq, Eq, Debug)]
pub struct RefEq {}

/// `ref.test`: whether a reference is of a type.
#[derive(Clone, Copy, PartialEq, Eq, Debug)]
pub struct RefTest {
    /// Whether the type has the null reference.
    pub nullable: bool,
    /// What the type points at.
    pub heap_type: HeapType,
}

/// `ref.cast`: traps where a reference is not of a type.
#[derive(Clone, Copy, PartialEq, Eq, Debug)]
pub struct RefCast {
    /// Whether the type has the null reference.
    pub nullable: bool,
    /// What the type points at.
    pub heap_type: HeapType,
}

/// `ref.i31`: a reference that holds 31 bits of an `i32`.
#[derive(Clone, Copy, PartialEq, Eq, Debug)]
pub struct RefI31 {}

/// `i31.get_s`: the 31 bits of such a reference as a signed number.
#[derive(Clone, Copy, PartialEq, Eq, Debug)]
pub struct I31GetS {}

/// `i31.get_u`: the 31 bits of such a reference as an unsigned number.
#[derive(Clone, Copy, PartialEq, Eq, Debug)]
pub struct I31GetU {}

/// `any.convert_extern`: an external reference as an internal one.
#[derive(Clone, Copy, PartialEq, Eq, Debug)]
pub struct AnyConvertExtern {}

/// `extern.convert_any`: an internal reference as an external one.
#[derive(Clone, Copy, PartialEq, Eq, Debug)]
pub struct ExternConvertAny {}
