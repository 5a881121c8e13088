//! Types that are equal by WebAssembly's rule. The module is put together by hand from the
//! specification's grammar, and so is the result.
use std::process::Abort;
use std::test::*;
use wasm_normalise::{HashKeys, NormaliseOptions, canonical_module};

// two groups of a function and a struct, and a function of the type of the second group
const TWO_GROUPS: [u8; 29] = [
    0, 0x61, 0x73, 0x6D, 1, 0, 0, 0, 1, 15, 2, 0x4E, 2, 0x60, 0, 0, 0x5F, 0, 0x4E, 2, 0x60, 0, 0,
    0x5F, 0, 3, 2, 1, 2,
];

// the first of the groups, and a function of the type in it
const ONE_GROUP: [u8; 22] = [
    0, 0x61, 0x73, 0x6D, 1, 0, 0, 0, 1, 8, 1, 0x4E, 2, 0x60, 0, 0, 0x5F, 0, 3, 2, 1, 0,
];

/// The bytes become these.
fn becomes(rt: &(impl Abort + AllocGlobal), bytes: &[u8], expected: &[u8]) {
    let options = NormaliseOptions::default();
    let new = canonical_module(rt.alloc(), HashKeys::fixed(), bytes, options);
    assert!(rt; new.expect(rt, "a module").as_slice() == expected);
}

#[test]
fn equal_groups_become_one(rt: HostRuntime) {
    becomes(&rt, &TWO_GROUPS, &ONE_GROUP);
}
