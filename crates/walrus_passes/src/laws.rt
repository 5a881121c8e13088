//! Laws of the passes. Each function does nothing; its clauses are theorems, which a caller gets by
//! calling it.
ghost use Rattle.std.specs.Prelude.{◌≡◌, ℕ, List, [], ◌++◌, Option, Some, Contains, map, reverse};
ghost use Rattle.walrus_types.specs.Table.{Table};
ghost use Rattle.walrus_types.specs.TypesById.{live_type};
ghost use Rattle.walrus_functions.specs.FunctionWithArgs.{FunctionWithArgs};
ghost use Rattle.ir_const_expr.specs.ConstExpr.{referenced_ids};
ghost use Rattle.ir_instr.specs.Locals.{LocalVariable};
ghost use Rattle.ir_instr.specs.declared.instr.Instr.{Instr};
ghost use Rattle.ir_instr.specs.Sequence.{Sequence};
ghost use Rattle.ir_const_expr.specs.declared.const_expr.ConstExpr.{ConstExpr};
ghost use Rattle.walrus_passes.specs.Adapters.{get_of, call_with};
ghost use Rattle.walrus_passes.specs.ConvertingAdapters.{set_of, read_of, converted_call};
ghost use Rattle.walrus_passes.specs.ChangedCalls.{named_function, SnipsCalls, RedirectsCalls};
ghost use Rattle.walrus_passes.specs.UsedTypes.{UsesType};
ghost use Rattle.walrus_unused.specs.NeededTypes.{IsNeeded, Keeps};

/// What a function uses stays where it is among the roots. A table that keeps the types which the
/// roots need, as [`delete_unused_types`](crate::delete_unused_types) leaves it, has each type that
/// the function uses as it was.
pub fn used_types_are_kept()
    ensures { (old new : Table) (roots : List ℕ) → Keeps (IsNeeded old roots) old new →
        (locals : List LocalVariable) (f : FunctionWithArgs) →
        ((id : ℕ) → UsesType locals f id → Contains roots id) →
        (id : ℕ) → UsesType locals f id →
        live_type new.types.slots id ≡ live_type old.types.slots id }
{}

/// What a constant expression names stays where it is among the roots, as
/// [`referenced_types`](walrus_ir::ConstExpr::referenced_types) puts it there.
pub fn referenced_types_are_kept()
    ensures { (old new : Table) (roots : List ℕ) → Keeps (IsNeeded old roots) old new →
        (init : ConstExpr) →
        ((id : ℕ) → Contains (referenced_ids init) id → Contains roots id) →
        (id : ℕ) → Contains (referenced_ids init) id →
        live_type new.types.slots id ≡ live_type old.types.slots id }
{}

/// Where calls of functions were snipped, as [`snip_calls`](crate::snip_calls) does it, no
/// instruction names one of these functions any more.
pub fn snipped_functions_are_not_named()
    ensures { (funcs : List ℕ) (old new : FunctionWithArgs) → SnipsCalls funcs old new →
        (seq : Sequence) (item : Instr × ℕ) (func : ℕ) →
        Contains new.body.seqs seq → Contains seq.instrs item →
        named_function item.0 ≡ Some func → Contains funcs func → ⊥ }
{}

/// The second time, [`snip_calls`](crate::snip_calls) with the same functions changes nothing
/// (`snipped`), nor does [`redirect_calls`](crate::redirect_calls) from and to the same functions
/// (`redirected`).
pub fn changed_calls_stay()
    ensures snipped { (funcs : List ℕ) (old between new : FunctionWithArgs) →
        SnipsCalls funcs old between → SnipsCalls funcs between new → new ≡ between }
    ensures redirected { (from to : ℕ) (old between new : FunctionWithArgs) →
        RedirectsCalls from to old between → RedirectsCalls from to between new →
        new ≡ between }
{}

/// With conversions that read their locals, [`adapter_between`](crate::adapter_between) makes the
/// body of [`adapter`](crate::adapter), behind which the results are stored and read again. Where
/// there are no results it is the same body.
pub fn plain_conversions_make_the_plain_adapter()
    ensures results { (func : ℕ) (params results : List ℕ) →
        converted_call read_of read_of
        (record { func = func; params = params; results = results }) ≡
        call_with params func ++ (map set_of (reverse results) ++ map get_of results) }
    ensures no_results { (func : ℕ) (params : List ℕ) →
        converted_call read_of read_of (record { func = func; params = params; results = [] }) ≡
        call_with params func }
{}
