//! Laws of the nesting check. Each function does nothing; its clauses are theorems, which a caller
//! gets by calling it.
ghost use Rattle.std.specs.Prelude.{◌↔◌, ℕ};
ghost use Rattle.walrus_functions.specs.Body.{Body, Knows};
ghost use Rattle.walrus_functions.specs.Nesting.{IsNested, IsChild, IsReachable};
ghost use Rattle.walrus_nesting.specs.Certificates.{Shows, SaysNested};

use crate::Nesting;
use walrus_functions::LocalFunction;
use walrus_ir::InstrSeqId;

/// A verdict that shows what it says is `Nested` exactly where the body is nested: places in the
/// list are a rank, and a body with a cycle or an unknown id has none.
pub fn nested_exactly(func: &LocalFunction, start: InstrSeqId, verdict: &Nesting)
    requires { Shows func.now.body start verdict.now }
    ensures { SaysNested verdict.now ↔ IsNested func.now.body start }
{}

/// A body that is nested from a sequence knows each that is reached from there, and is nested from
/// it.
pub fn nested_throughout()
    ensures known { (f : Body) (start id : ℕ) →
        IsNested f start → IsReachable f start id → Knows f id }
    ensures nested { (f : Body) (start id : ℕ) →
        IsNested f start → IsReachable f start id → IsNested f id }
{}

/// A child of a nested sequence is nested.
pub fn children_are_nested(func: &LocalFunction, start: InstrSeqId, child: InstrSeqId)
    requires nested { IsNested func.now.body start }
    requires child { IsChild func.now.body start child }
    ensures { IsNested func.now.body child }
{}
