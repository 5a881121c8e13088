//! The sections of modules that are put together by hand from the specification's grammar.
mod refusals;
mod renamed_modules;
mod renaming;
mod unknown_customs;
mod unread_names;

use std::test::*;
use wasm_module::{Section, sections};

#[test]
fn sections_have_their_places(rt: HostRuntime) {
    let bytes = [0, 0x61, 0x73, 0x6D, 1, 0, 0, 0, 0, 2, 1, 0x61, 3, 1, 0];
    let mut found = sections(&bytes).expect(&rt, "a module");
    assert!(rt; found.next().is_some());
    let functions = Section {
        id: 3,
        offset: 12,
        content_offset: 14,
        content: &[0],
    };
    assert!(rt; found.next().is_some_and(|next| next == functions));
}
