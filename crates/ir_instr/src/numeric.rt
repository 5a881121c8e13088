//! Constants, operators, and what works on values of any type. WebAssembly core specification,
//! "Numeric Instructions" and "Parametric Instructions"; the instructions on 128 bits are from the
//! wide arithmetic proposal.

use ir_operators::{BinaryOp, TernaryOp, UnaryOp, Value};
use walrus_ty::ValType;

/// `i32.const`, `i64.const`, `f32.const`, `f64.const` or `v128.const`: gives a value.
#[derive(Clone, Copy, PartialEq, Eq, Debug)]
pub struct Const {
    /// The value.
    pub value: Value,
}

/// An operator on one value.
#[derive(Clone, Copy, PartialEq, Eq, Debug)]
pub struct Unop {
    /// The operator.
    pub op: UnaryOp,
}

/// An operator on two values.
#[derive(Clone, Copy, PartialEq, Eq, Debug)]
pub struct Binop {
    /// The operator.
    pub op: BinaryOp,
}

/// An operator on three values.
#[derive(Clone, Copy, PartialEq, Eq, Debug)]
pub struct TernOp {
    /// The operator.
    pub op: TernaryOp,
}

/// `select`: takes two values and an `i32`, and gives the first value where the number is not zero,
/// else the second.
#[derive(Clone, Copy, PartialEq, Eq, Debug)]
pub struct Select {
    /// The type of both values, where it is written.
    pub ty: Option<ValType>,
}

/// `drop`: takes a value away.
#[derive(Clone, Copy, PartialEq, Eq, Debug)]
pub struct DropInstr {}

/// `i64.add128`: the sum of two numbers of 128 bits, each in two halves.
#[derive(Clone, Copy, PartialEq, Eq, Debug)]
pub struct I64Add128 {}

/// `i64.sub128`: the difference of two numbers of 128 bits, each in two halves.
#[derive(Clone, Copy, PartialEq, Eq, Debug)]
pub struct I64Sub128 {}

/// `i64.mul_wide_s`: the product of two signed `i64`, of 128 bits in two halves.
#[derive(Clone, Copy, PartialEq, Eq, Debug)]
pub struct I64MulWideS {}

/// `i64.mul_wide_u`: the product of two unsigned `i64`, of 128 bits in two halves.
#[derive(Clone, Copy, PartialEq, Eq, Debug)]
pub struct I64MulWideU {}
