//! Sections `name` that can be read. The bytes are put together by hand from the specification's
//! grammar of custom sections and of the name section.
use std::test::*;
use wasm_module::find_unread_names;

#[test]
fn names_of_types_that_are_there_are_read(rt: HostRuntime) {
    // a name of type 0, in a module of one type
    let bytes = [
        0, 0x61, 0x73, 0x6D, 1, 0, 0, 0, 0, 11, 4, 0x6E, 0x61, 0x6D, 0x65, 4, 4, 1, 0, 1, 0x61,
    ];
    assert!(rt; find_unread_names(&bytes, 1) == Ok(None));
}
