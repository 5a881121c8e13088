//! Groups that are added or cloned where memory is refused.
ghost use Rattle.std.specs.Prelude.{◌<◌, ◌≤◌};

use super::*;
use walrus_types::RecGroup;

// Whether the table has this type, it names this other one, and it is found.
fn is_namer(types: &ModuleTypes, index: usize, other: usize) -> bool {
    let id = TypeId::from_index(index);
    if !types.contains(id) {
        return false;
    }
    let ty = types.get(id);
    ty.is_final && ty.supertype.is_none() && types.find(&[reference(other)], &[]) == Some(id)
}

// Whether the group at this place has two types that name each other.
fn has_pair(types: &ModuleTypes, at: usize) -> bool
    requires { at < 1000 }
{
    let (first, second) = (2 * at, 2 * at + 1);
    let is_there = match types.rec_groups().get(at) {
        Some(group) => group.is_explicit && are(group.types.as_slice(), &[first, second]),
        None => false,
    };
    is_there && is_namer(types, first, second) && is_namer(types, second, first)
}

// Whether the table has this many such groups, and nothing else.
fn has_pairs(types: &ModuleTypes, count: usize) -> bool
    requires { count ≤ 1000 }
{
    for at in 0..count {
        if !has_pair(types, at) {
            return false;
        }
    }
    let next = 2 * count;
    !types.contains(TypeId::from_index(next))
        && types.find(&[reference(next)], &[]).is_none()
        && types.rec_groups().len() == count
}

// Adds a group where this many types are wanted. After a refusal the table must have what it had,
// and the call is made again.
fn add_again(
    rt: &impl Abort,
    alloc: Global,
    types: &mut ModuleTypes,
    before: usize,
    count: usize,
) -> Result<Vec<TypeId>, AddRecGroupError>
    requires { before ≤ 1000 }
{
    match add_pair(alloc, types, count) {
        Err(AddRecGroupError::Memory) => {
            assert!(rt; has_pairs(types, before));
            add_pair(alloc, types, count)
        }
        answer => answer,
    }
}

#[test]
fn a_refused_group_is_not_added(rt: HostRuntime) {
    let mut types = ModuleTypes::new(rt.alloc());
    for at in 0..5usize {
        let ids = add_again(&rt, rt.alloc(), &mut types, at, 2).expect(&rt, "memory");
        assert!(rt; are(ids.as_slice(), &[2 * at, 2 * at + 1]));
        assert!(rt; has_pairs(&types, at + 1));
    }
}

#[test]
fn a_refused_group_of_another_number_is_not_added(rt: HostRuntime) {
    let mut types = ModuleTypes::new(rt.alloc());
    add_again(&rt, rt.alloc(), &mut types, 0, 2).expect(&rt, "memory");
    let answer = add_again(&rt, rt.alloc(), &mut types, 1, 3);
    let refused = Err(AddRecGroupError::Count { wanted: 3, got: 2 });
    assert_equal(&rt, answer, refused);
    assert!(rt; has_pairs(&types, 1));
}

#[test]
fn a_refused_clone_of_a_group_comes_when_it_is_asked_for_again(rt: HostRuntime) {
    let mut types = ModuleTypes::new(rt.alloc());
    add_again(&rt, rt.alloc(), &mut types, 0, 2).expect(&rt, "memory");
    let [group] = types.rec_groups() else {
        panic!(rt; "other groups");
    };
    let copy: RecGroup = group
        .clone()
        .or_else(|_| group.clone())
        .expect(&rt, "memory");
    assert!(rt; copy.is_explicit);
    assert!(rt; are(copy.types.as_slice(), &[0, 1]));
}
