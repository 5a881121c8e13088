//! The name of a custom section. The bytes are put together by hand from the specification's
//! grammar of sections.
use std::test::*;
use wasm_binary::custom_section_name;

#[test]
fn names_of_sections(rt: HostRuntime) {
    assert!(rt; custom_section_name(&[0, 3, 2, 0x68, 0x69]) == Some(b"hi".as_slice()));
}
