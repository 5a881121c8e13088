//! A function that converts what it passes to another one, and what that returns.
ghost use Rattle.walrus_functions.specs.Building.{function_of, IsKnown, Stays, StayKnown};

use crate::bodies::function_type;
use std::alloc::Global;
use std::process::Abort;
use walrus_functions::{BuildError, InstrSeqBuilder, LocalFunction};
use walrus_ir::{LocalId, ModuleLocals};
use walrus_passes::adapter_between;
use walrus_types::{Id, ModuleTypes};

// The adapter of the type 0 of the function 9, which has that type too. Each result goes through
// the function 3.
pub(crate) fn adapt_results(
    rt: &impl Abort,
    alloc: Global,
    types: &mut ModuleTypes,
    locals: &mut ModuleLocals,
) -> Result<LocalFunction, BuildError> {
    let ty = function_type(rt, types, 0);
    adapter_between(
        alloc,
        types,
        locals,
        Id::from_index(9),
        ty,
        ty,
        |body, _, local| body.local_get(local),
        |body, _, local| convert(body, local),
    )
}

// Passes this local to the function 3.
fn convert(body: &mut InstrSeqBuilder<'_>, local: LocalId) -> Result<(), BuildError>
    requires { IsKnown body.old }
    ensures same { Stays body.old body.new }
    ensures known { StayKnown (function_of body.old) (function_of body.new) }
{
    body.local_get(local)?;
    body.call(Id::from_index(3))
}

// What the adapter does, of which the first parameter is this local.
pub(crate) fn with_results(first: usize) -> &'static str {
    match first {
        0 => {
            "local.get 0, local.get 1, call 9, local.set 3, local.set 2, local.get 2, call 3, local.get 3, call 3"
        }
        2 => {
            "local.get 2, local.get 3, call 9, local.set 5, local.set 4, local.get 4, call 3, local.get 5, call 3"
        }
        _ => {
            "local.get 4, local.get 5, call 9, local.set 7, local.set 6, local.get 6, call 3, local.get 7, call 3"
        }
    }
}
