//! A module with other indices of types. It is put together by hand from the specification's
//! grammar, and so is the result.
use std::test::*;
use wasm_module::{Widths, rename_module};

// types of a function with an i32 and of one without parameters
const TYPES: [u8; 8] = [2, 0x60, 1, 0x7F, 0, 0x60, 0, 0];

#[test]
fn a_kept_width_grows_where_an_index_needs_more_room(rt: HostRuntime) {
    let bytes = [0, 0x61, 0x73, 0x6D, 1, 0, 0, 0, 3, 2, 1, 0];
    let new = rename_module(rt.alloc(), &bytes, &TYPES, &[Some(128)], Widths::Kept).expect(
        &rt, "a module",
    );
    let expected = [0, 0x61, 0x73, 0x6D, 1, 0, 0, 0, 3, 3, 1, 0x80, 1];
    assert!(rt; new.as_slice() == expected.as_slice());
}
