//! What errors print.
use super::*;
use crate::assertions::assert_equal;
use std::test::*;
use wasm_binary::NotHeld;

#[test]
fn errors_say_where(rt: HostRuntime) {
    let malformed = DecodeError::Malformed {
        offset: 3,
        expected: Expected::HeapType,
    };
    let text = format!(in rt.alloc(); "{malformed}").expect(&rt, "memory");
    assert_equal(&rt, text.as_str(), "byte 3: expected a heap type");
    let unsupported = DecodeError::NotHeld {
        offset: 2,
        what: NotHeld::Supertypes,
    };
    let text = format!(in rt.alloc(); "{unsupported}").expect(&rt, "memory");
    assert_equal(
        &rt,
        text.as_str(),
        "byte 2: no record for several supertypes",
    );
}
