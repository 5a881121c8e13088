//! Functions that call another one, and convert what they pass on and what they return.
ghost use Rattle.std.specs.Prelude.{◌≡◌, ℕ, ◌∷◌, ◌++◌, List, length, IfOk, IfErr, OnOk, OnErr, IsSome};
ghost use Rattle.ir_instr.specs.Locals.{unnamed_locals};
ghost use Rattle.ir_instr.specs.declared.instr.Instr.{Instr};
ghost use Rattle.walrus_types.specs.Table.{signature_at, FindsOrAdds};
ghost use Rattle.walrus_functions.specs.Beginning.{begun, new_entry_type};
ghost use Rattle.walrus_functions.specs.declared.error.BuildError.TheVariants.{Memory};
ghost use Rattle.walrus_functions.specs.Building.{function_of, seq_id, IsKnown, Stays, StayKnown};
ghost use Rattle.walrus_passes.specs.Adapters.{AddsEntryOrNone};
ghost use Rattle.walrus_passes.specs.Conversions.{TakesEach, KeepsBuilder, AddsEach, ConvertsEach, FailsToConvert, with_more};
ghost use Rattle.walrus_passes.specs.ConvertingAdapters.{params_of, results_of, new_params, new_results, both, call_between, call_and_store, converted_call, ConvertsCall, FailsToConvertCall, ConvertsAndCalls, HasInstrs, FailsToAdapt, AddsLocalsInPart};

use std::alloc::{AllocError, Global};
use walrus_functions::{BuildError, FunctionBuilder, InstrSeqBuilder, LocalFunction};
use walrus_ir::{InstrSeqType, LocalId, ModuleLocals};
use walrus_types::{FunctionId, ModuleTypes, TypeId, ValType};

/// Returns a new function of the type `ty` that calls `func`, whose type is `func_ty`. It converts
/// what it is given before the call, and what `func` returned after it.
///
/// This is an adapter as wasm-bindgen puts it around an import or an export. For instance, it turns
/// a handle, which is a number, into the reference of the host that the handle is for. Both types
/// have to be live function types. It is not checked whether there is such a `func`, and of which
/// type it is. [`adapter`](crate::adapter) passes everything on as it is, to a function of the same
/// type. Both return a function that is not yet added to the functions, and change no call:
/// [`redirect_calls`](crate::redirect_calls) has a function call it.
///
/// # What it does
///
/// The parameters are new locals, one for each parameter of `ty`. Behind them come further new
/// locals, one for each result of `func_ty`. The body is one sequence:
///
/// 1. `convert_param` is called for each parameter in order, with the body, with the number of the
///    parameter, counted from 0, and with its local. It adds the instructions that leave the
///    parameter as `func` takes it, often beginning with `local.get` of the local.
/// 2. `func` is called, and its results are stored into their locals. The last result is on top of
///    the stack, so it is stored first.
/// 3. `convert_result` is called for each result in order, in the same way.
///
/// What is on the stack at the end of the body is returned. A conversion may leave no value or
/// several ones, so the two types need not have as many parameters and results as each other. It
/// may also make further sequences, as by [`InstrSeqBuilder::block`]. Nothing is validated.
///
/// A conversion has to accept a builder whose sequence is known. It may not put another builder in
/// its place, and has to leave the sequence known unless it returns an error.
///
/// # Errors
///
/// An error of a conversion is returned at once, and no further one is called. `Memory` also comes
/// where memory was refused. After an error the table may have the type of the entry. There may be
/// no new locals, the ones of the parameters, or all of them. What was there before is as it was.
///
/// # An import that takes and returns a reference
///
/// The adapter takes a handle and returns one. The reference of a handle is in `table`, and the
/// function `add_handle` puts a reference into it and returns its handle.
///
/// ```
/// let func = adapter_between(
///     alloc,
///     &mut types,
///     &mut locals,
///     import,
///     import_ty,
///     ty,
///     |body, _, handle| {
///         body.local_get(handle)?;
///         body.instr(Instr::TableGet(TableGet { table }))
///     },
///     |body, _, reference| {
///         body.local_get(reference)?;
///         body.call(add_handle)
///     },
/// )?;
/// ```
pub fn adapter_between<
    P: FnMut(&mut InstrSeqBuilder<'_>, usize, LocalId) -> Result<(), BuildError>,
    R: FnMut(&mut InstrSeqBuilder<'_>, usize, LocalId) -> Result<(), BuildError>,
>(
    alloc: Global,
    types: &mut ModuleTypes,
    locals: &mut ModuleLocals,
    func: FunctionId,
    func_ty: TypeId,
    ty: TypeId,
    convert_param: P,
    convert_result: R,
) -> Result<LocalFunction, BuildError>
    requires ty { IsSome (signature_at types.old ty) }
    requires func_ty { IsSome (signature_at types.old func_ty) }
    requires takes_params { TakesEach P.pre P.step (length (params_of types.old ty)) convert_param }
    requires keeps_params { KeepsBuilder P.step (length (params_of types.old ty)) convert_param }
    requires takes_results { TakesEach R.pre R.step
        (length (results_of types.old func_ty)) convert_result }
    requires keeps_results { KeepsBuilder R.step
        (length (results_of types.old func_ty)) convert_result }
    ensures adapter { IfOk result (λ adapter.
        ConvertsAndCalls (both P.step convert_param R.step convert_result)
        (call_between types.old locals.old func func_ty ty) types.old types.new ty adapter) }
    ensures instrs { IfOk result (λ adapter. (for_param for_result : ℕ → ℕ → List (Instr × ℕ)) →
        AddsEach P.step (length (params_of types.old ty)) convert_param for_param →
        AddsEach R.step (length (results_of types.old func_ty)) convert_result for_result →
        HasInstrs types.old types.new ty (results_of types.old ty)
        (converted_call for_param for_result
        (call_between types.old locals.old func func_ty ty)) adapter) }
    ensures args { IfOk result (λ adapter.
        adapter.args ≡ new_params locals.old (params_of types.old ty)) }
    ensures locals { OnOk result
        (locals.new ≡ locals.old ++ unnamed_locals (length locals.old)
        (params_of types.old ty ++ results_of types.old func_ty)) }
    ensures err { IfErr result (λ e.
        FailsToAdapt (both P.step convert_param R.step convert_result)
        (call_between types.old locals.old func func_ty ty) types.old types.new ty e) }
    ensures types_err { OnErr result
        (AddsEntryOrNone types.old types.new (results_of types.old ty)) }
    ensures locals_err { OnErr result
        (AddsLocalsInPart locals.old locals.new
        (params_of types.old ty) (results_of types.old func_ty)) }
{
    let (args, results) = add_locals(locals, types.params(ty), types.results(func_ty))?;
    let mut builder = begin(alloc, types, ty)?;
    let mut body = builder.func_body();
    convert_call(
        &mut body,
        func,
        args.as_slice(),
        results.as_slice(),
        convert_param,
        convert_result,
    )?;
    Ok(builder.local_func(args))
}

// New locals of these types: the ones of the parameters, and behind them the ones of the results.
fn add_locals(
    locals: &mut ModuleLocals,
    params: &[ValType],
    results: &[ValType],
) -> Result<(Vec<LocalId>, Vec<LocalId>), AllocError>
    ensures params { IfOk result (λ ids. ids.0.items ≡ new_params locals.old params.now) }
    ensures results { IfOk result
        (λ ids. ids.1.items ≡ new_results locals.old params.now results.now) }
    ensures ok { OnOk result
        (locals.new ≡ locals.old ++ unnamed_locals (length locals.old)
        (params.now ++ results.now)) }
    ensures err { OnErr result (AddsLocalsInPart locals.old locals.new params.now results.now) }
{
    let args = locals.add_all(params)?;
    let results = locals.add_all(results)?;
    Ok((args, results))
}

// A function of this type with an entry for its results, which has no instructions.
fn begin(alloc: Global, types: &mut ModuleTypes, ty: TypeId) -> Result<FunctionBuilder, AllocError>
    requires { IsSome (signature_at types.old ty) }
    ensures ok { IfOk result (λ f. (entry_ty : ℕ)
        × FindsOrAdds types.old types.new
        (new_entry_type types.old (results_of types.old ty)) entry_ty
        × (f ≡ begun ty entry_ty)) }
    ensures err { OnErr result
        (AddsEntryOrNone types.old types.new (results_of types.old ty)) }
{
    let results = types.results(ty).to_vec(alloc)?;
    let entry_ty = types.add_entry_ty(results.as_slice())?;
    begin_with(alloc, ty, entry_ty)
}

// A function of this type with an entry of that type, which has no instructions.
fn begin_with(alloc: Global, ty: TypeId, entry_ty: TypeId) -> Result<FunctionBuilder, AllocError>
    ensures { IfOk result (λ f. f ≡ begun ty entry_ty) }
{
    let mut builder = FunctionBuilder::without_entry(alloc, ty);
    let Ok(body) = builder.dangling_instr_seq(InstrSeqType::MultiValue(entry_ty)) else {
        return Err(AllocError);
    };
    let id = body.id();
    builder.set_entry(id);
    Ok(builder)
}

// Converts each of the parameters, calls the function, and converts each of the results, which are
// stored in these locals.
fn convert_call<
    P: FnMut(&mut InstrSeqBuilder<'_>, usize, LocalId) -> Result<(), BuildError>,
    R: FnMut(&mut InstrSeqBuilder<'_>, usize, LocalId) -> Result<(), BuildError>,
>(
    body: &mut InstrSeqBuilder<'_>,
    func: FunctionId,
    params: &[LocalId],
    results: &[LocalId],
    convert_param: P,
    convert_result: R,
) -> Result<(), BuildError>
    requires known { IsKnown body.old }
    requires takes_params { TakesEach P.pre P.step (length params.now) convert_param }
    requires keeps_params { KeepsBuilder P.step (length params.now) convert_param }
    requires takes_results { TakesEach R.pre R.step (length results.now) convert_result }
    requires keeps_results { KeepsBuilder R.step (length results.now) convert_result }
    ensures same { Stays body.old body.new }
    ensures ok { OnOk result
        (ConvertsCall (both P.step convert_param R.step convert_result) (seq_id body.old)
        (record { func = func; params = params.now; results = results.now })
        (function_of body.old) (function_of body.new)) }
    ensures err { IfErr result (λ e.
        FailsToConvertCall (both P.step convert_param R.step convert_result) (seq_id body.old)
        (record { func = func; params = params.now; results = results.now })
        (function_of body.old) e) }
{
    convert_each(body, params, convert_param)?;
    call_and_store(body, func, results)?;
    convert_each(body, results, convert_result)
}

// Calls the closure for each of these locals in order.
fn convert_each<F: FnMut(&mut InstrSeqBuilder<'_>, usize, LocalId) -> Result<(), BuildError>>(
    body: &mut InstrSeqBuilder<'_>,
    locals: &[LocalId],
    mut convert: F,
) -> Result<(), BuildError>
    requires known { IsKnown body.old }
    requires takes { TakesEach F.pre F.step (length locals.now) convert }
    requires keeps { KeepsBuilder F.step (length locals.now) convert }
    ensures same { Stays body.old body.new }
    ensures known { OnOk result (IsKnown body.new) }
    ensures ok { OnOk result ((last : F) × ConvertsEach F.step (seq_id body.old) locals.now
        (convert, function_of body.old) (last, function_of body.new)) }
    ensures err { IfErr result (λ e. FailsToConvert F.step (seq_id body.old) locals.now
        (convert, function_of body.old) e) }
{
    for (i, local) in locals.iter().enumerate() {
        convert(body, i, *local)?;
    }
    Ok(())
}

// Calls the function, and stores its results into these locals, from the last one to the first.
fn call_and_store(
    body: &mut InstrSeqBuilder<'_>,
    func: FunctionId,
    results: &[LocalId],
) -> Result<(), BuildError>
    requires { IsKnown body.old }
    ensures same { Stays body.old body.new }
    ensures known { StayKnown (function_of body.old) (function_of body.new) }
    ensures ok { OnOk result (function_of body.new ≡
        with_more (function_of body.old) (seq_id body.old)
        (call_and_store func results.now)) }
    ensures err { IfErr result (λ e. e ≡ Memory) }
{
    body.call(func)?;
    for local in results.iter().rev() {
        body.local_set(*local)?;
    }
    Ok(())
}
