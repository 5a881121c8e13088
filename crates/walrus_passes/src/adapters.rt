//! Functions that call another one of their type.
ghost use Rattle.std.specs.Prelude.{◌≡◌, ◌++◌, length, IfOk, OnOk, OnErr, IsSome, IsSomeAnd};
ghost use Rattle.std.specs.List.{range_with_len};
ghost use Rattle.walrus_types.specs.Table.{signature_at};
ghost use Rattle.ir_instr.specs.Locals.{unnamed_locals};
ghost use Rattle.walrus_functions.specs.Body.{with_instrs, instrs_of};
ghost use Rattle.walrus_functions.specs.Building.{function_of, seq_id, IsKnown, Stays, StayKnown};
ghost use Rattle.walrus_passes.specs.Adapters.{call_with, adapter_body, Calls, AddsEntryOrNone, AddsLocalsOrNone};

use std::alloc::{AllocError, Global};
use walrus_functions::{BuildError, FunctionBuilder, InstrSeqBuilder, LocalFunction};
use walrus_ir::{InstrSeqType, LocalId, ModuleLocals};
use walrus_types::{FunctionId, ModuleTypes, TypeId};

/// Returns a new function of the type `ty` that calls `func`, such as an import of that type, with
/// its own parameters, and returns its results. `ty` has to be a live function type. It is not
/// checked whether there is such a `func`, and of which type it is.
///
/// Its parameters are new locals, one for each parameter of the type. Its body reads them in order,
/// and calls `func`. It returns at its end all that `func` left. It has the very type `ty`, and its
/// entry has the type that `ModuleTypes::add_entry_ty` returns for the results.
///
/// wasm-bindgen puts adapters around imports and exports. Most of them convert parameters and
/// results, as [`adapter_between`](crate::adapter_between) does. This one passes them on as they
/// are. It is not added to the functions, and no call, export or table is changed:
/// [`redirect_calls`](crate::redirect_calls) has functions call it.
///
/// # Errors
///
/// `AllocError` comes where memory was refused. Then the table may have the entry type, and there
/// may be all of the new locals or none. What was there before is as it was.
///
/// # A wrapper of an import
///
/// ```
/// let func = adapter(alloc, &mut types, &mut locals, import, ty)?;
/// let Ok(wrapper) = funcs.add(func) else {
///     return Err(Fail::new("out of memory"));
/// };
/// ```
pub fn adapter(
    alloc: Global,
    types: &mut ModuleTypes,
    locals: &mut ModuleLocals,
    func: FunctionId,
    ty: TypeId,
) -> Result<LocalFunction, AllocError>
    requires { IsSome (signature_at types.old ty) }
    ensures adapter { IfOk result (λ adapter. IsSomeAnd (signature_at types.old ty)
        (λ f. Calls types.old types.new func ty f.results adapter)) }
    ensures args { IfOk result (λ adapter. IsSomeAnd (signature_at types.old ty)
        (λ f. adapter.args ≡ range_with_len (length locals.old) (length f.params))) }
    ensures locals { OnOk result (IsSomeAnd (signature_at types.old ty)
        (λ f. locals.new ≡ locals.old ++ unnamed_locals (length locals.old) f.params)) }
    ensures types_err { OnErr result (IsSomeAnd (signature_at types.old ty)
        (λ f. AddsEntryOrNone types.old types.new f.results)) }
    ensures locals_err { OnErr result (IsSomeAnd (signature_at types.old ty)
        (λ f. AddsLocalsOrNone locals.old locals.new f.params)) }
{
    let args = locals.add_all(types.params(ty))?;
    adapter_with(alloc, types, func, ty, args)
}

// The adapter that has these locals as its parameters.
fn adapter_with(
    alloc: Global,
    types: &mut ModuleTypes,
    func: FunctionId,
    ty: TypeId,
    args: Vec<LocalId>,
) -> Result<LocalFunction, AllocError>
    requires { IsSome (signature_at types.old ty) }
    ensures args { IfOk result (λ adapter. adapter.args ≡ args.items) }
    ensures adapter { IfOk result (λ adapter. IsSomeAnd (signature_at types.old ty)
        (λ f. Calls types.old types.new func ty f.results adapter)) }
    ensures err { OnErr result (IsSomeAnd (signature_at types.old ty)
        (λ f. AddsEntryOrNone types.old types.new f.results)) }
{
    let results = types.results(ty).to_vec(alloc)?;
    let entry_ty = types.add_entry_ty(results.as_slice())?;
    let body = adapter_body(alloc, ty, entry_ty, args.as_slice(), func)?;
    Ok(body.local_func(args))
}

// The builder of a function that reads these locals and calls the function.
fn adapter_body(
    alloc: Global,
    ty: TypeId,
    entry_ty: TypeId,
    args: &[LocalId],
    func: FunctionId,
) -> Result<FunctionBuilder, AllocError>
    ensures { IfOk result (λ f. f ≡ adapter_body ty entry_ty args.now func) }
{
    let mut builder = FunctionBuilder::without_entry(alloc, ty);
    let Ok(mut body) = builder.dangling_instr_seq(InstrSeqType::MultiValue(entry_ty)) else {
        return Err(AllocError);
    };
    let Ok(()) = add_call(&mut body, args, func) else {
        return Err(AllocError);
    };
    let id = body.id();
    builder.set_entry(id);
    Ok(builder)
}

// Reads these locals in order, and calls the function.
fn add_call(
    body: &mut InstrSeqBuilder<'_>,
    args: &[LocalId],
    func: FunctionId,
) -> Result<(), BuildError>
    requires { IsKnown body.old }
    ensures same { Stays body.old body.new }
    ensures known { StayKnown (function_of body.old) (function_of body.new) }
    ensures ok { OnOk result (function_of body.new ≡
        with_instrs (function_of body.old) (seq_id body.old)
        (instrs_of (function_of body.old) (seq_id body.old) ++ call_with args.now func)) }
{
    for arg in args {
        body.local_get(*arg)?;
    }
    body.call(func)
}
