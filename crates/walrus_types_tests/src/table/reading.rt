//! What is read of types.
use super::*;
use crate::assertions::assert_equal;

// Two parameters and one result.
#[test]
fn a_function_type_lends_its_lists(rt: HostRuntime) {
    let mut types = ModuleTypes::new(rt.alloc());
    let id = types
        .add(&[Val::I32, Val::I64], &[Val::F32])
        .expect(&rt, "memory");
    assert!(rt; types.contains(id));
    if let CompositeType::Function(_) = types.get(id).kind() {
        assert!(rt; types.params(id) == [Val::I32, Val::I64].as_slice());
        assert!(rt; types.results(id) == [Val::F32].as_slice());
        let (params, results) = types.params_results(id);
        assert_equal(&rt, params.len(), 2);
        assert_equal(&rt, results.len(), 1);
        return;
    }
    unreachable!()
}

#[test]
fn a_new_type_has_no_name(rt: HostRuntime) {
    let alloc = rt.alloc();
    let mut types = ModuleTypes::new(alloc);
    let id = types
        .add_composite(function(alloc), false, Some(TypeId::from_index(7)))
        .expect(&rt, "memory");
    assert!(rt; types.contains(id));
    let ty = types.get(id);
    assert_equal(&rt, ty.id(), id);
    assert!(rt; !ty.is_final);
    assert_equal(&rt, ty.supertype, Some(TypeId::from_index(7)));
    assert!(rt; ty.name.is_none());
    assert!(rt; !ty.is_for_function_entry());
}
