//! Which ids a type is made with, and in which order.
use crate::assertions::assert_equal;
use crate::fixtures::reference;
use std::alloc::Global;
use std::process::Abort;
use walrus_ty::{CompositeType, FunctionType, Heap, Id, Reference, Type, TypeId, Val};

fn ty(alloc: Global, kind: CompositeType, supertype: Option<TypeId>) -> Type {
    Type::new(alloc, Id::from_index(9), kind, true, supertype)
}

// The type is made with the ids of these places, in this order. They come after a 7 that is there
// before.
fn makes(rt: &impl Abort, alloc: Global, ty: &Type, wanted: &[usize]) {
    let mut list = vec![in alloc; Id::from_index(7)].expect(rt, "memory");
    ty.referenced_types(&mut list).expect(rt, "memory");
    let mut places = Vec::new(alloc);
    for id in &list {
        places.push(id.index()).expect(rt, "memory");
    }
    assert_equal(rt, places.as_slice(), wanted);
}

#[test]
fn the_supertype_comes_first_and_repeats_are_kept(rt: HostRuntime) {
    let alloc = rt.alloc();
    let params = vec![in alloc; reference(1), reference(1)].expect(&rt, "memory");
    let exact = Val::Ref(Reference {
        nullable: true,
        heap_type: Heap::Exact(Id::from_index(0)),
    });
    let results = vec![in alloc; exact].expect(&rt, "memory");
    let kind = CompositeType::Function(FunctionType::new(params, results));
    let made = ty(alloc, kind, Some(Id::from_index(2)));
    makes(&rt, alloc, &made, &[7, 2, 1, 1, 0]);
}
