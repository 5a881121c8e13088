//! What is no module, and what is no type section of one. The bytes are put together by hand from the
//! specification's grammar of modules.
use super::*;
use crate::assertions::assert_equal;
use std::test::*;
use wasm_binary::{module_types, type_section};

#[test]
fn errors_have_their_place_in_the_module(rt: HostRuntime) {
    let other_id = [0, 0x61, 0x73, 0x6D, 1, 0, 0, 0, 14, 1, 0];
    let error = type_section(&other_id).err();
    assert_equal(&rt, error, malformed(8, Expected::SectionId));
    let types = [0, 0x61, 0x73, 0x6D, 1, 0, 0, 0, 1, 5, 1, 0x5F, 1, 0x7F, 2];
    let error = module_types(rt.alloc(), &types).err();
    assert_equal(&rt, error, malformed(14, Expected::Mutability));
}
