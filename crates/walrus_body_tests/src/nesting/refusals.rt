//! Answers of the check, nested and not, and stacks of children.
use super::said;
use crate::assertions::assert_equal;
use crate::bodies::{body_again, check_again};
use crate::lists::{are, list};
use std::alloc::{AllocError, Global};
use std::process::Abort;
use walrus_body::{Nesting, push_children};
use walrus_ir::{Instr, InstrSeqId, LegacyCatch, Try};
use walrus_types::{Id, Listed};

// The answer for a function with these sequences.
fn answer(rt: &impl Abort, alloc: Global, text: &str) -> Nesting {
    let func = body_again(alloc, text).expect(rt, "memory");
    check_again(alloc, &func).expect(rt, "memory")
}

// The answer has this text, which is made again after a refusal.
fn says(rt: &impl Abort, alloc: Global, answer: &Nesting, wanted: &str) {
    let text = said(alloc, answer).or_else(|_| said(alloc, answer));
    assert_equal(rt, text.expect(rt, "memory").as_str(), wanted);
}

#[test]
fn a_refused_check_of_a_nested_body_is_made_again(rt: HostRuntime) {
    let text = "block 1; block 2, block 2; block 3; block 4, block 5; block 5;";
    says(
        &rt,
        rt.alloc(),
        &answer(&rt, rt.alloc(), text),
        "nested 5 4 3 2 1 0",
    );
}

#[test]
fn a_refused_check_of_a_cycle_is_made_again(rt: HostRuntime) {
    let text = "block 1; block 3, block 2; block 3, block 1;";
    says(
        &rt,
        rt.alloc(),
        &answer(&rt, rt.alloc(), text),
        "cycle 0 1 2 back to 1",
    );
}

#[test]
fn a_refused_check_of_an_unknown_sequence_is_made_again(rt: HostRuntime) {
    let text = "block 3, block 1; block 2; block 3, block 9;";
    says(
        &rt,
        rt.alloc(),
        &answer(&rt, rt.alloc(), text),
        "unknown 0 1 2 9",
    );
}

// A clone of the answer. It is cloned again after a refusal.
fn clone_again(source: &Nesting) -> Result<Nesting, AllocError> {
    match source.clone() {
        Ok(copy) => Ok(copy),
        Err(_) => source.clone(),
    }
}

#[test]
fn a_refused_clone_of_an_answer_comes_when_it_is_asked_for_again(rt: HostRuntime) {
    let source = answer(&rt, rt.alloc(), "block 1; block 2; block 1");
    let copy = clone_again(&source).expect(&rt, "memory");
    says(&rt, rt.alloc(), &copy, "cycle 0 1 2 back to 1");
}

// A `try` of the sequence 1, with the handlers 2 and 3.
fn attempt(alloc: Global) -> Result<Instr, AllocError> {
    let [first, second] = [2, 3].map(|index| LegacyCatch::CatchAll {
        handler: Id::from_index(index),
    });
    Ok(Instr::Try(Try {
        seq: Id::from_index(1),
        catches: Listed::from_vec(list(alloc, &[first, second])?),
    }))
}

// A stack of the sequence 9, with room for one more.
fn stack_again(alloc: Global) -> Result<Vec<InstrSeqId>, AllocError> {
    let mut stack = match Vec::with_capacity(alloc, 2) {
        Ok(stack) => stack,
        Err(_) => Vec::with_capacity(alloc, 2)?,
    };
    stack.push(Id::from_index(9))?;
    Ok(stack)
}

// After a refusal what stood on the stack is below the child that had room, and the others are
// pushed by another call.
#[test]
fn a_refused_push_of_children_leaves_what_stands_below(rt: HostRuntime) {
    let instr = attempt(rt.alloc()).expect(&rt, "memory");
    let mut stack = stack_again(rt.alloc()).expect(&rt, "memory");
    if let Err(_) = push_children(&mut stack, &instr) {
        assert!(rt; are(stack.as_slice(), &[9, 3]));
        stack.truncate(1);
        push_children(&mut stack, &instr).expect(&rt, "memory");
    }
    assert!(rt; are(stack.as_slice(), &[9, 3, 2, 1]));
}
