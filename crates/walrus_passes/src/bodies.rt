//! Passes that replace the bodies of functions.
ghost use Rattle.std.specs.Prelude.{◌≡◌, IfOk, OnOk, OnErr};
ghost use Rattle.walrus_functions.specs.Functions.{IsLocal};
ghost use Rattle.walrus_passes.specs.SnippedFunctions.{with_body, unreachable_body, unreachable_function, type_of_entry, name_or, Changes};

use std::alloc::{AllocError, Global};
use std::mem;
use walrus_functions::{FunctionBuilder, LocalFunction, LocalFunctions};
use walrus_ir::InstrSeqType;
use walrus_types::{FunctionId, TypeId};

/// Makes the body of a function a single `unreachable` (WebAssembly core specification, "Control
/// Instructions"). `id` has to be one of `funcs`.
///
/// This is what wasm-snip is known for. The function keeps its type, its parameters and its name,
/// and its entry keeps the type that it had. Where there was no entry, the new one takes and leaves
/// nothing. The old sequences are gone, so the function has no locals but its parameters. All other
/// functions are as they were: [`snip_calls`](crate::snip_calls) has them trap where they call it.
///
/// Of wasm-snip this leaves out finding functions by their names, exports and tables that name the
/// function, and deleting what nothing names any more.
///
/// # Errors
///
/// `AllocError` comes where memory was refused. Then no function has changed.
///
/// # A function that must not be run
///
/// ```
/// let Ok(id) = builder.finish(args, &mut funcs) else {
///     return Err(Fail::new("out of memory"));
/// };
/// snip(alloc, &mut funcs, id)?;
/// ```
pub fn snip(alloc: Global, funcs: &mut LocalFunctions, id: FunctionId) -> Result<(), AllocError>
    requires { IsLocal funcs.old id }
    ensures ok { OnOk result (Changes funcs.old funcs.new id unreachable_function) }
    ensures err { OnErr result (funcs.new ≡ funcs.old) }
{
    let func = funcs.get(id);
    let body = unreachable_body(alloc, func.ty(), type_of_entry(func))?;
    replace_with(alloc, funcs, id, body)
}

/// Replaces the body of a function by the one in the builder. `id` has to be one of `funcs`.
///
/// This is the step of walrus's `replace_exported_func` that gives a function another body. There a
/// closure builds the body, it becomes a new function, and the export is changed to name that. Here
/// the function keeps its id, and exports are left to the caller, which need no change for it.
///
/// The function keeps its parameters, and its name if it has one. Otherwise it gets the name of the
/// builder. Its sequences, its entry and its type come from the builder: to keep the type, begin
/// the builder with [`LocalFunction::ty`]. It is not checked whether the parameters fit the type.
/// All other functions are as they were.
///
/// # Errors
///
/// Where memory is refused. Then no function has changed.
///
/// # A body that leaves a constant
///
/// ```
/// let mut builder = FunctionBuilder::without_entry(alloc, funcs.get(id).ty());
/// let mut body = builder.dangling_instr_seq(InstrSeqType::Simple(Some(ValType::I32)))?;
/// body.i32_const(8)?;
/// let entry = body.id();
/// builder.set_entry(entry);
/// replace_with(alloc, &mut funcs, id, builder)?;
/// ```
pub fn replace_with(
    alloc: Global,
    funcs: &mut LocalFunctions,
    id: FunctionId,
    body: FunctionBuilder,
) -> Result<(), AllocError>
    requires { IsLocal funcs.old id }
    ensures ok { OnOk result (Changes funcs.old funcs.new id (with_body body)) }
    ensures err { OnErr result (funcs.new ≡ funcs.old) }
{
    let mut body = body;
    if let Some(name) = funcs.get(id).name() {
        body.name(String::from_str(alloc, name)?);
    }
    let func = funcs.get_mut(id);
    let args = mem::replace(&mut func.args, Vec::new(alloc));
    *func = body.local_func(args);
    Ok(())
}

// The builder of a body that is a single `unreachable`, in a sequence of the type `entry_ty`.
pub(crate) fn unreachable_body(
    alloc: Global,
    ty: TypeId,
    entry_ty: InstrSeqType,
) -> Result<FunctionBuilder, AllocError>
    ensures { IfOk result (λ f. f ≡ unreachable_body ty entry_ty) }
{
    let mut builder = FunctionBuilder::without_entry(alloc, ty);
    let Ok(mut body) = builder.dangling_instr_seq(entry_ty) else {
        return Err(AllocError);
    };
    let Ok(()) = body.unreachable() else {
        return Err(AllocError);
    };
    let id = body.id();
    builder.set_entry(id);
    Ok(builder)
}

fn type_of_entry(func: &LocalFunction) -> InstrSeqType
    ensures { result ≡ type_of_entry func.now.body func.now.body.entry }
{
    match func.entry() {
        Some(id) => func.block(id).ty,
        None => InstrSeqType::Simple(None),
    }
}
