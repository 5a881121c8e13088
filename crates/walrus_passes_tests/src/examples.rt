//! Examples in the documentation of `walrus_unused` and `walrus_passes`: their lines are the same as in
//! the tests here. Where an example hands an error on, the tests stop instead, which is proved sooner.
//! Where it compares by `assert_eq!`, they call `assert_equal`.
use crate::assertions::assert_equal;
use crate::index_maps::TWICE;
use crate::sections::section;
use crate::unused_types::table;
use std::alloc::Global;
use walrus_functions::{BuildError, FunctionBuilder, LocalFunction};
use walrus_ir::{ConstExpr, InstrSeqType, ModuleLocals};
use walrus_passes::{delete_unused_types, new_indices, used_types};
use walrus_types::{
    HashKeys, Heap, ModuleTypes, Reference, TypeId, ValType, normalise, parse_types,
};

#[test]
fn a_struct_that_nothing_names_is_deleted(rt: HostRuntime) {
    let alloc = rt.alloc();
    let mut types = ModuleTypes::new(alloc);
    let fields = Vec::new(alloc);
    let pair = types.add_struct(fields).expect(&rt, "memory");
    let used = types.add(&[ValType::I32], &[]).expect(&rt, "memory");
    let deleted = delete_unused_types(alloc, &mut types, &[used]).expect(&rt, "memory");
    assert_equal(&rt, deleted.as_slice(), [pair].as_slice());
}

// A function of the type 2 of the table, which makes a struct of type 0.
pub(crate) fn maker(alloc: Global) -> Result<LocalFunction, BuildError> {
    let mut f = FunctionBuilder::without_entry(alloc, TypeId::from_index(2));
    let mut body = f.dangling_instr_seq(InstrSeqType::MultiValue(TypeId::from_index(5)))?;
    body.struct_new(TypeId::from_index(0))?;
    let entry = body.id();
    f.set_entry(entry);
    Ok(f.local_func(Vec::new(alloc)))
}

#[test]
fn what_a_function_and_a_global_use_is_kept(rt: HostRuntime) {
    let alloc = rt.alloc();
    let mut types = table(alloc).expect(&rt, "memory");
    let locals = ModuleLocals::new(alloc);
    let func = maker(alloc).expect(&rt, "memory");
    let init = ConstExpr::RefNull(Reference {
        nullable: true,
        heap_type: Heap::Exact(TypeId::from_index(3)),
    });
    let Some(mut roots) = used_types(alloc, &func, &locals).expect(&rt, "memory") else {
        panic!(rt; "not nested");
    };
    init.referenced_types(&mut roots).expect(&rt, "memory");
    assert!(rt; types.contains_all(roots.as_slice()));
    let deleted = delete_unused_types(alloc, &mut types, roots.as_slice()).expect(&rt, "memory");
    assert_equal(&rt, deleted.as_slice(), [TypeId::from_index(1)].as_slice());
}

#[test]
fn new_indices_are_those_of_the_normal_form(rt: HostRuntime) {
    let alloc = rt.alloc();
    let keys = HashKeys::fixed();
    let section = section(alloc, &TWICE).expect(&rt, "memory");
    let groups = section.as_slice();
    let (types, ids) = parse_types(alloc, keys, groups).expect(&rt, "memory");
    let (written, indices) = types.emit().expect(&rt, "memory");
    let new = new_indices(alloc, ids.as_slice(), &indices).expect(&rt, "memory");
    let (normal, places) = normalise(alloc, keys, groups).expect(&rt, "memory");
    assert!(rt; written == normal);
    assert_equal(&rt, new.len(), places.len());
    assert!(rt;
        new.iter()
            .zip(&places)
            .all(|(index, place)| *index == Some(*place))
    );
}
