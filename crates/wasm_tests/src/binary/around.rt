//! Which section of a module a byte is in. The bytes are put together by hand from the
//! specification's grammar of modules.
use std::test::*;
use wasm_binary::{SectionPlace, section_around};

#[test]
fn sections_of_bytes(rt: HostRuntime) {
    let bytes = [0, 0x61, 0x73, 0x6D, 1, 0, 0, 0, 0, 2, 1, 0x61];
    let custom = SectionPlace {
        id: 0,
        offset: 8,
        size: Some(2),
    };
    assert!(rt; section_around(&bytes, 11) == Some(custom));
}
