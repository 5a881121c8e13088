//! Types that are written in place.
use super::calls::make_all;
use super::*;
use walrus_arena::Tombstone;

const TABLES: &str = "\
a type is rewritten in its place
    add func = 0
    kind_mut 0 struct i
    kind 0 = (struct (field i32))
    iter = 0
    find func = none
a whole type brings its id
    add entry = 0
    add array i = 1
    copy_over 0 1
    iter = 0 0
    kind 1 = entry (func)
    rec_groups = 0 1
";

#[test]
fn types_are_written(rt: HostRuntime) {
    make_all(&rt, rt.alloc(), TABLES);
}

// The type of the first id.
fn first(rt: &impl Abort, types: &ModuleTypes) -> Result<Type, AllocError> {
    let id = TypeId::from_index(0);
    assert!(rt; types.contains(id));
    types.get(id).clone()
}

#[test]
fn a_dead_type_gives_back_its_lists(rt: HostRuntime) {
    let alloc = rt.alloc();
    let mut types = ModuleTypes::new(alloc);
    let fields = Listed::from_vec(vec![in alloc; field(Val::I32)].expect(&rt, "memory"));
    let kind = CompositeType::Struct(StructType { fields });
    types.add_composite(kind, false, None).expect(&rt, "memory");
    let mut ty = first(&rt, &types).expect(&rt, "memory");
    ty.on_delete();
    assert!(rt; *ty.kind() == function(alloc));
    assert!(rt; !ty.is_final);
}
