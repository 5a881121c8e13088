//! Walks that rename, under refused memory.
use crate::assertions::assert_equal;
use crate::bodies::{body_again, check_again};
use crate::lists::list;
use std::alloc::{AllocError, Global};
use std::process::Abort;
use walrus_arena::Id;
use walrus_body::{BuildError, LocalFunction, Nesting, RenameTypes, dfs_pre_order_mut};
use walrus_ir::InstrSeqType;

// The function type of the sequence, where there is one.
fn type_of(func: &LocalFunction, index: usize) -> Option<usize> {
    let id = Id::from_index(index);
    if !func.contains_block(id) {
        return None;
    }
    match func.block(id).ty {
        InstrSeqType::MultiValue(ty) => Some(ty.index()),
        InstrSeqType::Simple(_) => None,
    }
}

// The types of the sequences 0, 2, 1 and 3, which is the order of the changing walk.
fn walked_types(func: &LocalFunction) -> [Option<usize>; 4] {
    [0, 2, 1, 3].map(|index| type_of(func, index))
}

// Sequence 0 has blocks of 1 and 2, and 1 has a block of 3.
fn tree(alloc: Global) -> Result<LocalFunction, BuildError> {
    body_again(alloc, "block 1, block 2; block 3; ;")
}

// A visitor that sends the types 0 to 3 to these.
fn renaming(alloc: Global, names: [usize; 4]) -> Result<RenameTypes, AllocError> {
    let names = names.map(|index| Id::from_index(index));
    Ok(RenameTypes::new(list(alloc, &names)?))
}

// Whether the types of the first sequences of the walk are these, and those of the others as they
// were.
fn are_begun(func: &LocalFunction, rename: [usize; 4]) -> bool {
    let types = walked_types(func);
    let [a, b, c, d] = rename;
    types == [Some(0), Some(2), Some(1), Some(3)]
        || types == [Some(a), Some(2), Some(1), Some(3)]
        || types == [Some(a), Some(b), Some(1), Some(3)]
        || types == [Some(a), Some(b), Some(c), Some(3)]
        || types == [Some(a), Some(b), Some(c), Some(d)]
}

// Renames the types of a tree. It fails on a body that is not nested.
fn rename(
    rt: &impl Abort,
    alloc: Global,
    visitor: &mut RenameTypes,
    func: &mut LocalFunction,
) -> bool {
    match check_again(alloc, func).expect(rt, "memory") {
        Nesting::Nested(_) => { dfs_pre_order_mut(alloc, visitor, func, Id::from_index(0)).is_ok() }
        _ => panic!(rt; "not nested"),
    }
}

// A tree whose types are renamed. After a refusal those of the first sequences of the walk must be
// renamed, and another tree is walked.
fn rename_another(rt: &impl Abort, alloc: Global, visitor: &mut RenameTypes) -> LocalFunction {
    let mut func = tree(alloc).expect(rt, "memory");
    if rename(rt, alloc, visitor, &mut func) {
        return func;
    }
    assert!(rt; are_begun(&func, [3, 1, 2, 0]));
    let mut func = tree(alloc).expect(rt, "memory");
    assert!(rt; rename(rt, alloc, visitor, &mut func));
    func
}

#[test]
fn a_refused_changing_walk_leaves_what_came_before(rt: HostRuntime) {
    let mut visitor = renaming(rt.alloc(), [3, 2, 1, 0]).expect(&rt, "memory");
    let func = rename_another(&rt, rt.alloc(), &mut visitor);
    assert_equal(
        &rt,
        walked_types(&func),
        [Some(3), Some(1), Some(2), Some(0)],
    );
}

// A tree whose types are all made 7. After a refusal those of the first sequences of the walk must
// be 7, and the tree is walked again.
fn join_again(rt: &impl Abort, alloc: Global, visitor: &mut RenameTypes) -> LocalFunction {
    let mut func = tree(alloc).expect(rt, "memory");
    if rename(rt, alloc, visitor, &mut func) {
        return func;
    }
    assert!(rt; are_begun(&func, [7; 4]));
    assert!(rt; rename(rt, alloc, visitor, &mut func));
    func
}

#[test]
fn a_refused_changing_walk_goes_through_when_it_is_made_again(rt: HostRuntime) {
    let mut visitor = renaming(rt.alloc(), [7; 4]).expect(&rt, "memory");
    let func = join_again(&rt, rt.alloc(), &mut visitor);
    assert_equal(&rt, walked_types(&func), [Some(7); 4]);
}
