//! Calls, and calls in place of a return.
//! WebAssembly core specification, "Control Instructions".

use walrus_ty::{FunctionId, TableId, TypeId};

/// `call`: calls a function.
#[derive(Clone, Copy, PartialEq, Eq, Debug)]
pub struct Call {
    /// The function.
    pub func: FunctionId,
}

/// `call_indirect`: takes an `i32` and calls the function at that place of a table.
#[derive(Clone, Copy, PartialEq, Eq, Debug)]
pub struct CallIndirect {
    /// The type that the function must have.
    pub ty: TypeId,
    /// The table that holds the function.
    pub table: TableId,
}

/// `call_ref`: takes a reference and calls the function that it points at.
#[derive(Clone, Copy, PartialEq, Eq, Debug)]
pub struct CallRef {
    /// The type that the function must have.
    pub ty: TypeId,
}

/// `return_call`: calls a function in place of this one.
#[derive(Clone, Copy, PartialEq, Eq, Debug)]
pub struct ReturnCall {
    /// The function.
    pub func: FunctionId,
}

/// `return_call_indirect`: as `call_indirect`, in place of this function.
#[derive(Clone, Copy, PartialEq, Eq, Debug)]
pub struct ReturnCallIndirect {
    /// The type that the function must have.
    pub ty: TypeId,
    /// The table that holds the function.
    pub table: TableId,
}

/// `return_call_ref`: as `call_ref`, in place of this function.
#[derive(Clone, Copy, PartialEq, Eq, Debug)]
pub struct ReturnCallRef {
    /// The type that the function must have.
    pub ty: TypeId,
}
