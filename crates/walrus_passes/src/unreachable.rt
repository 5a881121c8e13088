//! Functions that must not be run.
ghost use Rattle.std.specs.Prelude.{◌≡◌, ◌++◌, length, IfOk, OnOk, OnErr, IsSome, IsSomeAnd};
ghost use Rattle.std.specs.List.{range_with_len};
ghost use Rattle.walrus_types.specs.Table.{signature_at};
ghost use Rattle.ir_instr.specs.Locals.{unnamed_locals};
ghost use Rattle.walrus_passes.specs.Adapters.{AddsEntryOrNone, AddsLocalsOrNone};
ghost use Rattle.walrus_passes.specs.UnreachableFunctions.{IsUnreachable};

use crate::bodies::unreachable_body;
use std::alloc::{AllocError, Global};
use walrus_functions::LocalFunction;
use walrus_ir::{InstrSeqType, LocalId, ModuleLocals};
use walrus_types::{ModuleTypes, TypeId};

/// Returns a new function of the type `ty` whose body is a single `unreachable` (WebAssembly core
/// specification, "Control Instructions"). `ty` has to be a live function type.
///
/// This is the function that wasm-snip puts into tables in place of one that it snips. It is also
/// what [`redirect_calls`](crate::redirect_calls) can redirect references to. Of wasm-snip this
/// leaves out making one such function for each type, writing it into the tables, and exports.
///
/// Its parameters are new locals, one for each parameter of the type; there are no further locals.
/// It has the very type `ty`, and its entry has the type that `ModuleTypes::add_entry_ty` returns
/// for the results.
///
/// # Errors
///
/// `AllocError` comes where memory was refused. Then the table may have the entry type, and there
/// may be all of the new locals or none. What was there before is as it was.
///
/// # A function that takes the place of one that must not be run
///
/// ```
/// let trap = unreachable_function(alloc, &mut types, &mut locals, ty)?;
/// let Ok(stand_in) = funcs.add(trap) else {
///     return Err(Fail::new("out of memory"));
/// };
/// redirect_calls(&mut func, snipped, stand_in);
/// ```
pub fn unreachable_function(
    alloc: Global,
    types: &mut ModuleTypes,
    locals: &mut ModuleLocals,
    ty: TypeId,
) -> Result<LocalFunction, AllocError>
    requires { IsSome (signature_at types.old ty) }
    ensures function { IfOk result (λ function. IsSomeAnd (signature_at types.old ty)
        (λ f. IsUnreachable types.old types.new ty f.results function)) }
    ensures args { IfOk result (λ function. IsSomeAnd (signature_at types.old ty)
        (λ f. function.args ≡ range_with_len (length locals.old) (length f.params))) }
    ensures locals { OnOk result (IsSomeAnd (signature_at types.old ty)
        (λ f. locals.new ≡ locals.old ++ unnamed_locals (length locals.old) f.params)) }
    ensures types_err { OnErr result (IsSomeAnd (signature_at types.old ty)
        (λ f. AddsEntryOrNone types.old types.new f.results)) }
    ensures locals_err { OnErr result (IsSomeAnd (signature_at types.old ty)
        (λ f. AddsLocalsOrNone locals.old locals.new f.params)) }
{
    let args = locals.add_all(types.params(ty))?;
    unreachable_with(alloc, types, ty, args)
}

// The function that has these locals as its parameters.
fn unreachable_with(
    alloc: Global,
    types: &mut ModuleTypes,
    ty: TypeId,
    args: Vec<LocalId>,
) -> Result<LocalFunction, AllocError>
    requires { IsSome (signature_at types.old ty) }
    ensures args { IfOk result (λ function. function.args ≡ args.items) }
    ensures function { IfOk result (λ function. IsSomeAnd (signature_at types.old ty)
        (λ f. IsUnreachable types.old types.new ty f.results function)) }
    ensures err { OnErr result (IsSomeAnd (signature_at types.old ty)
        (λ f. AddsEntryOrNone types.old types.new f.results)) }
{
    let results = types.results(ty).to_vec(alloc)?;
    let entry_ty = types.add_entry_ty(results.as_slice())?;
    let body = unreachable_body(alloc, ty, InstrSeqType::MultiValue(entry_ty))?;
    Ok(body.local_func(args))
}
