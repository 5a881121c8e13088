//! What is printed of what can be wrong in a module with its types in canonical form.
use std::test::*;
use wasm_normalise::Hazard;

#[test]
fn hazards_are_shown(rt: HostRuntime) {
    let alloc = rt.alloc();
    let unknown = Hazard::UnknownSection { offset: 21 }
        .to_string(alloc)
        .expect(&rt, "memory");
    let unread = Hazard::UnreadNames { offset: 14 }
        .to_string(alloc)
        .expect(&rt, "memory");
    assert!(rt; unknown.as_str() == "the custom section at byte 21 is of an unknown kind");
    assert!(rt; unread.as_str() == "the custom section at byte 14 can't be read");
}
