//! Laws of walks, and those of the nesting check. Each function does nothing; its clauses are
//! theorems, which a caller gets by calling it.
ghost use Rattle.std.specs.Prelude.{◌≡◌, ◌++◌, ℕ, List};
ghost use Rattle.std.specs.List.{flat_map, FoldsTo};
ghost use Rattle.ir_instr.specs.declared.instr.Instr.{Instr};
ghost use Rattle.walrus_functions.specs.Body.{sequence};
ghost use Rattle.walrus_functions.specs.Nesting.{children, IsNested};
ghost use Rattle.walrus_ir.specs.Calls.{Event, reported};
ghost use Rattle.walrus_ir.specs.Fields.{fields, instr_calls};
ghost use Rattle.walrus_traversals.specs.Events.{own_events, events, events_of};
ghost use Rattle.walrus_traversals.specs.Ids.{instr_seqs_in};
ghost use Rattle.walrus_traversals.specs.AnyIds.{id_in};
ghost use Rattle.walrus_traversals.specs.Instrs.{instr_in};
ghost use Rattle.walrus_traversals.specs.OneHook.{step_at, all_given};
ghost use Rattle.walrus_traversals.specs.Sequences.{handlers_of, labels_visited};

use crate::{IdVisitor, InstrVisitor};
use walrus_functions::LocalFunction;
use walrus_ir::InstrSeqId;
pub use walrus_nesting::laws::{children_are_nested, nested_exactly, nested_throughout};

/// The events of a nested sequence are its own, with those of the sequences inside it at their
/// places: the bound on the levels that stands in the definition is never met.
pub fn events_unfold(func: &LocalFunction, start: InstrSeqId)
    requires { IsNested func.now.body start }
    ensures { events func.now.body start ≡
        events_of (events func.now.body) (sequence func.now.body start) }
{}

/// What walks visit as sequences of an instruction are its children, with two differences. The
/// label of a branch on a reference is visited, and is no child. The handlers of a `try` are
/// children that are not visited at the instruction.
pub fn sequences_visited_are_children()
    ensures { (i : Instr) → flat_map instr_seqs_in (reported (fields i)) ++ handlers_of i
        ≡ labels_visited i ++ children i }
{}

/// The events of an instruction are the hook calls of a walk that may change what it visits, where
/// no hook changes anything.
pub fn both_walks_visit_the_same()
    ensures { (x : Instr × ℕ) → own_events x ≡ reported (instr_calls x) }
{}

/// Where a walk with [`OnlyInstrs`](crate::OnlyInstrs) visits these events, the visitor in it was
/// given just the instructions among them, in their order.
pub fn only_instrs_pass_on_the_instructions<V: InstrVisitor>(old: &V, new: &V)
    ensures { (es : List Event) → FoldsTo (step_at instr_in V.step) old.now es new.now →
        FoldsTo V.step old.now (all_given instr_in es) new.now }
{}

/// Where a walk with [`OnlyIds`](crate::OnlyIds) visits these events, the visitor in it was given
/// just the ids that they give, in their order.
pub fn only_ids_pass_on_the_ids<V: IdVisitor>(old: &V, new: &V)
    ensures { (es : List Event) → FoldsTo (step_at id_in V.step) old.now es new.now →
        FoldsTo V.step old.now (all_given id_in es) new.now }
{}
