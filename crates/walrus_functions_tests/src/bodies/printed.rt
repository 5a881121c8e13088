//! Texts of errors, and what `Debug` of a function prints.
use super::*;
use crate::assertions::assert_equal;

// The error has this text.
fn says(rt: &impl Abort, alloc: Global, error: BuildError, text: &str) {
    let said = error.to_string(alloc).expect(rt, "memory");
    assert_equal(rt, said.as_str(), text);
}

#[test]
fn texts_of_errors(rt: HostRuntime) {
    says(&rt, rt.alloc(), BuildError::NoParent, "unknown parent");
    says(
        &rt,
        rt.alloc(),
        BuildError::Position,
        "position past the end",
    );
    says(&rt, rt.alloc(), BuildError::Memory, "out of memory");
}

#[test]
fn a_function_can_be_printed(rt: HostRuntime) {
    let alloc = rt.alloc();
    let f = FunctionBuilder::without_entry(alloc, Id::from_index(3));
    let func = f.local_func(Vec::new(alloc));
    let printed = format!(in alloc; "{func:?}").expect(&rt, "memory");
    assert!(rt; printed.as_str().starts_with("LocalFunction {"));
}
