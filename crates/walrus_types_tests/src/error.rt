//! The texts of the errors.
use crate::assertions::assert_equal;
use std::alloc::Global;
use std::fmt::Display;
use std::process::Abort;
use walrus_types::{AddRecGroupError, EmitError, Id};

// The error has this text.
pub(crate) fn says<E: Display>(rt: &impl Abort, alloc: Global, error: &E, text: &str) {
    let said = format!(in alloc; "{error}").expect(rt, "memory");
    assert_equal(rt, said.as_str(), text);
}

#[test]
fn errors_of_tables_print_what_is_wrong(rt: HostRuntime) {
    let none = EmitError::NoIndex {
        from: Id::from_index(1),
        to: Id::from_index(0),
    };
    says(&rt, rt.alloc(), &none, "type 1 names 0, which has no index");
    says(&rt, rt.alloc(), &EmitError::TooMany, "too many entries");
    says(&rt, rt.alloc(), &EmitError::Memory, "out of memory");
}

#[test]
fn errors_of_groups_print_what_is_wrong(rt: HostRuntime) {
    let count = AddRecGroupError::Count { wanted: 2, got: 1 };
    says(&rt, rt.alloc(), &count, "wanted 2, got 1");
    says(&rt, rt.alloc(), &AddRecGroupError::Memory, "out of memory");
}
