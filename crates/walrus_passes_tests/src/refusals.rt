//! Refused memory: a call that was refused goes through when it is made again.
//! Each request for memory of these tests may be refused, one in a run, and they still pass.
use crate::assertions::assert_equal;
use crate::bodies::{eight, function_type, has, is, replace_first, sevens, snip_first};
use crate::conversions::{adapt_results, with_results};
use crate::examples::maker;
use crate::index_maps::read;
use crate::unused_types::{delete_all_but, table};
use std::alloc::{AllocError, Global};
use std::process::Abort;
use walrus_functions::{BuildError, LocalFunction, LocalFunctions};
use walrus_ir::ModuleLocals;
use walrus_passes::{adapter, new_indices, unreachable_function, used_types};
use walrus_types::{Id, ModuleTypes, TypeId, ValType};

#[test]
fn a_refused_deletion_is_made_again(rt: HostRuntime) {
    let mut types = match table(rt.alloc()) {
        Ok(types) => types,
        Err(_) => table(rt.alloc()).expect(&rt, "memory"),
    };
    let deleted = match delete_all_but(&rt, rt.alloc(), &mut types, 1) {
        Ok(deleted) => deleted,
        Err(_) => delete_all_but(&rt, rt.alloc(), &mut types, 1).expect(&rt, "memory"),
    };
    let dead = [2, 3, 4, 5].map(|index| TypeId::from_index(index));
    assert_equal(&rt, deleted.as_slice(), dead.as_slice());
}

#[test]
fn a_refused_map_of_indices_is_made_again(rt: HostRuntime) {
    let (types, ids) = match read(rt.alloc()) {
        Ok(made) => made,
        Err(_) => read(rt.alloc()).expect(&rt, "memory"),
    };
    let (_, indices) = match types.emit() {
        Ok(written) => written,
        Err(_) => types.emit().expect(&rt, "memory"),
    };
    let new = match new_indices(rt.alloc(), ids.as_slice(), &indices) {
        Ok(new) => new,
        Err(_) => new_indices(rt.alloc(), ids.as_slice(), &indices).expect(&rt, "memory"),
    };
    assert_equal(&rt, new.as_slice(), [Some(1), Some(0), Some(1)].as_slice());
}

#[test]
fn a_refused_snip_is_made_again(rt: HostRuntime) {
    let alloc = rt.alloc();
    let mut funcs = sevens(alloc).expect(&rt, "memory");
    if snip_first(&rt, alloc, &mut funcs).is_err() {
        snip_first(&rt, alloc, &mut funcs).expect(&rt, "memory");
    }
    is(&rt, alloc, &funcs, "unreachable");
}

// Replaces the body of the function 0 by one that leaves 8, if there is memory for one.
fn replace(rt: &impl Abort, alloc: Global, funcs: &mut LocalFunctions) -> Result<(), BuildError> {
    let body = eight(alloc)?;
    Ok(replace_first(rt, alloc, funcs, body)?)
}

#[test]
fn a_refused_replacement_is_made_again(rt: HostRuntime) {
    let alloc = rt.alloc();
    let mut funcs = sevens(alloc).expect(&rt, "memory");
    if replace(&rt, alloc, &mut funcs).is_err() {
        replace(&rt, alloc, &mut funcs).expect(&rt, "memory");
    }
    is(&rt, alloc, &funcs, "i32 8");
}

fn add_type(alloc: Global) -> Result<ModuleTypes, AllocError> {
    let mut types = ModuleTypes::new(alloc);
    types.add(&[ValType::I32, ValType::F64], &[ValType::I64, ValType::F32])?;
    Ok(types)
}

// A table with the type 0, of a function that takes two values and returns two. It is made again
// after a refusal.
fn one_type(alloc: Global) -> Result<ModuleTypes, AllocError> {
    match add_type(alloc) {
        Ok(types) => Ok(types),
        Err(_) => add_type(alloc),
    }
}

// The first parameter is this local or a later one.
fn first_arg(rt: &impl Abort, func: &LocalFunction) -> usize {
    match func.args.as_slice() {
        [first, _] => first.index(),
        _ => panic!(rt; "not two parameters"),
    }
}

// The adapter of the function 9 of the type 0.
fn adapt(
    rt: &impl Abort,
    alloc: Global,
    types: &mut ModuleTypes,
    locals: &mut ModuleLocals,
) -> Result<LocalFunction, AllocError> {
    let ty = function_type(rt, types, 0);
    adapter(alloc, types, locals, Id::from_index(9), ty)
}

#[test]
fn a_refused_adapter_is_made_again(rt: HostRuntime) {
    let alloc = rt.alloc();
    let mut types = one_type(alloc).expect(&rt, "memory");
    let mut locals = ModuleLocals::new(alloc);
    let func = match adapt(&rt, alloc, &mut types, &mut locals) {
        Ok(func) => func,
        Err(_) => adapt(&rt, alloc, &mut types, &mut locals).expect(&rt, "memory"),
    };
    let text = match first_arg(&rt, &func) {
        0 => "local.get 0, local.get 1, call 9",
        _ => "local.get 2, local.get 3, call 9",
    };
    has(&rt, alloc, &func, text);
}

#[test]
fn a_refused_adapter_between_is_made_again(rt: HostRuntime) {
    let alloc = rt.alloc();
    let mut types = one_type(alloc).expect(&rt, "memory");
    let mut locals = ModuleLocals::new(alloc);
    let func = match adapt_results(&rt, alloc, &mut types, &mut locals) {
        Ok(func) => func,
        Err(_) => adapt_results(&rt, alloc, &mut types, &mut locals).expect(&rt, "memory"),
    };
    let text = with_results(first_arg(&rt, &func));
    has(&rt, alloc, &func, text);
}

#[test]
fn a_refused_list_of_used_types_is_made_again(rt: HostRuntime) {
    let alloc = rt.alloc();
    let func = match maker(alloc) {
        Ok(func) => func,
        Err(_) => maker(alloc).expect(&rt, "memory"),
    };
    let locals = ModuleLocals::new(alloc);
    let used = match used_types(alloc, &func, &locals) {
        Ok(used) => used,
        Err(_) => used_types(alloc, &func, &locals).expect(&rt, "memory"),
    };
    assert!(rt; used.is_some_and(|ids| ids.contains(&TypeId::from_index(0))));
}

// The function of the type 0 that must not be run.
fn unreachable(
    rt: &impl Abort,
    alloc: Global,
    types: &mut ModuleTypes,
    locals: &mut ModuleLocals,
) -> Result<LocalFunction, AllocError> {
    let ty = function_type(rt, types, 0);
    unreachable_function(alloc, types, locals, ty)
}

#[test]
fn a_refused_unreachable_function_is_made_again(rt: HostRuntime) {
    let alloc = rt.alloc();
    let mut types = one_type(alloc).expect(&rt, "memory");
    let mut locals = ModuleLocals::new(alloc);
    let func = match unreachable(&rt, alloc, &mut types, &mut locals) {
        Ok(func) => func,
        Err(_) => unreachable(&rt, alloc, &mut types, &mut locals).expect(&rt, "memory"),
    };
    has(&rt, alloc, &func, "unreachable");
    assert_equal(&rt, func.args.len(), 2);
}
