//! Custom sections of an unknown kind. The module is put together by hand from the specification's
//! grammar.
use std::test::*;
use wasm_module::find_unknown_custom;

#[test]
fn the_first_unknown_one_of_several_is_found(rt: HostRuntime) {
    // `x`, functions, `y`
    let bytes = [
        0, 0x61, 0x73, 0x6D, 1, 0, 0, 0, 0, 2, 1, 0x78, 3, 2, 1, 0, 0, 2, 1, 0x79,
    ];
    assert!(rt; find_unknown_custom(&bytes, &[]) == Ok(Some(8)));
}
