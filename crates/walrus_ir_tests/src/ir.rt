//! Instructions, locals and constant expressions: worked values, what no contract says, such as how
//! many operators there are, tests that fail where an edit makes a call wrong, and calls that are
//! made again where memory was refused.
mod binary_ops;
mod const_exprs;
mod conversions;
mod examples;
mod instr_seq_type;
mod locals;
mod locations;
mod printed;
mod reachability;
mod refusals;
mod ternary_ops;
mod unary_ops;
mod value;
mod widths;

/// Whether no two of these operators are equal.
fn all_differ<T: PartialEq>(ops: &[T]) -> bool {
    ops.iter()
        .enumerate()
        .all(|(at, op)| ops.iter().take(at).all(|before| before != op))
}
