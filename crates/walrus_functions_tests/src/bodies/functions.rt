//! Functions that have a body: their types, numbers and names.
use super::*;
use crate::assertions::assert_equal;
use walrus_types::{CompAt, EntryAt, GroupAt, Listed};

// The table has the function type, the type of the body, and no third type.
#[test]
fn the_type_of_a_body_is_not_written(rt: HostRuntime) {
    let alloc = rt.alloc();
    let mut types = ModuleTypes::new(alloc);
    let f = FunctionBuilder::new(alloc, &mut types, &[], &[]).expect(&rt, "memory");
    let (ty, entry_ty) = (Id::from_index(0), Id::from_index(1));
    assert!(rt; types.contains(ty) && types.contains(entry_ty));
    assert!(rt; types.get(entry_ty).is_for_function_entry());
    assert!(rt; !types.contains(Id::from_index(2)));
    let (groups, _) = types.emit().expect(&rt, "memory");
    let function = GroupAt::Single(EntryAt {
        comp: CompAt::Function {
            params: Listed::from_vec(Vec::new(alloc)),
            results: Listed::from_vec(Vec::new(alloc)),
        },
        is_final: true,
        supertype: None,
    });
    assert!(rt; groups.as_slice() == [function].as_slice());
    assert_equal(&rt, f.local_func(Vec::new(alloc)).ty(), ty);
}

#[test]
fn functions_are_numbered_from_zero(rt: HostRuntime) {
    let mut funcs = LocalFunctions::new(rt.alloc());
    let f = begin(rt.alloc()).expect(&rt, "memory");
    let first = f.finish(Vec::new(rt.alloc()), &mut funcs);
    assert_equal(&rt, first.ok(), Some(Id::from_index(0)));
    let f = begin(rt.alloc()).expect(&rt, "memory");
    let second = f.finish(Vec::new(rt.alloc()), &mut funcs);
    assert_equal(&rt, second.ok(), Some(Id::from_index(1)));
}

#[test]
fn a_function_has_the_name_that_it_was_given(rt: HostRuntime) {
    let mut f = begin(rt.alloc()).expect(&rt, "memory");
    f.name(String::from_str(rt.alloc(), "f").expect(&rt, "memory"));
    assert_equal(&rt, f.local_func(Vec::new(rt.alloc())).name(), Some("f"));
    let f = begin(rt.alloc()).expect(&rt, "memory");
    let unnamed = f.local_func(Vec::new(rt.alloc()));
    assert_equal(&rt, unnamed.name(), None);
}
