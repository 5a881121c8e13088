//! Passes that change which functions a function calls.
//! WebAssembly core specification, "Control Instructions", and "Reference Instructions",
//! `ref.func`.
ghost use Rattle.std.specs.Prelude.{◌≡◌};
ghost use Rattle.walrus_passes.specs.ChangedCalls.{named_function, snipped, redirected, redirected_id, SnipsCalls, RedirectsCalls};

use crate::map_instrs;
use walrus_functions::LocalFunction;
use walrus_ir::{Instr, Unreachable};
use walrus_types::FunctionId;

/// Puts `unreachable` in place of each `call`, `return_call` and `ref.func` of a listed function.
///
/// This is what wasm-snip does with calls of the functions that it snips. Afterwards no instruction
/// of `func` names one of them
/// ([`snipped_functions_are_not_named`](crate::laws::snipped_functions_are_not_named)), and a
/// second run changes nothing ([`changed_calls_stay`](crate::laws::changed_calls_stay)). Nothing
/// else of `func` changes, and a valid body stays valid: what follows an `unreachable` may take any
/// values.
///
/// A `ref.func` traps where the reference is made, even if it is never called. To have such a
/// reference trap only where it is called, redirect the function to an
/// [`unreachable_function`](crate::unreachable_function) by [`redirect_calls`].
///
/// All sequences are gone through, also those that are not reached from the entry. It takes no
/// memory. The ids are searched from the first on for each instruction that names a function; for a
/// long list, [`map_instrs`] with a look-up of your own is faster.
///
/// Of wasm-snip this leaves out what is not in a function's body: exports, imports and tables that
/// name the functions, and deleting them.
///
/// # Calls of a function that is to be deleted
///
/// ```
/// snip_calls(&mut func, &[panic]);
/// ```
pub fn snip_calls(func: &mut LocalFunction, ids: &[FunctionId])
    ensures { SnipsCalls ids.now func.old func.new }
{
    map_instrs(func, |instr| snip_instr(instr, ids));
}

/// Has each `call`, `return_call` and `ref.func` of the function `from` name `to` instead.
///
/// It is the step by which wasm-bindgen has a module call an adapter in place of an import, which
/// [`adapter`](crate::adapter) and [`adapter_between`](crate::adapter_between) make. Nothing else
/// of `func` changes, and a second run changes nothing
/// ([`changed_calls_stay`](crate::laws::changed_calls_stay)). It is not checked whether there is
/// such a `to`. If it has the type of `from`, a valid body stays valid.
///
/// An adapter calls the function that it wraps, so don't redirect the calls of the adapter itself:
/// it would call itself.
///
/// All sequences are gone through, also those that are not reached from the entry. It takes no
/// memory. Exports and tables that name `from` are not in a function's body, and stay.
///
/// # Calling a wrapper in place of an import
///
/// ```
/// redirect_calls(&mut func, import, wrapper);
/// ```
pub fn redirect_calls(func: &mut LocalFunction, from: FunctionId, to: FunctionId)
    ensures { RedirectsCalls from to func.old func.new }
{
    map_instrs(func, |instr| redirect_instr(instr, from, to));
}

fn snip_instr(instr: &mut Instr, ids: &[FunctionId])
    ensures { instr.new ≡ snipped ids.now instr.old }
{
    let Some(func) = named_function(instr) else {
        return;
    };
    if ids.contains(&func) {
        *instr = Instr::Unreachable(Unreachable {});
    }
}

// The function that an instruction calls, or makes a reference to.
fn named_function(instr: &Instr) -> Option<FunctionId>
    ensures { result ≡ named_function instr.now }
{
    match instr {
        Instr::Call(x) => Some(x.func),
        Instr::ReturnCall(x) => Some(x.func),
        Instr::RefFunc(x) => Some(x.func),
        _ => None,
    }
}

fn redirect_instr(instr: &mut Instr, from: FunctionId, to: FunctionId)
    ensures { instr.new ≡ redirected from to instr.old }
{
    match instr {
        Instr::Call(x) => redirect_id(&mut x.func, from, to),
        Instr::ReturnCall(x) => redirect_id(&mut x.func, from, to),
        Instr::RefFunc(x) => redirect_id(&mut x.func, from, to),
        _ => {}
    }
}

fn redirect_id(id: &mut FunctionId, from: FunctionId, to: FunctionId)
    ensures { id.new ≡ redirected_id from to id.old }
{
    if *id == from {
        *id = to;
    }
}
