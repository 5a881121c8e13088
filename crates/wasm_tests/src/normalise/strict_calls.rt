//! Modules that are written again only if nothing can be wrong in the result. The modules are
//! put together by hand from the specification's grammar.
use std::test::*;
use wasm_normalise::{
    HashKeys, Hazard, NormaliseModuleError, NormaliseOptions, StrictError, strict_canonical_module,
};

// a custom section with the name "x"
const UNKNOWN: [u8; 12] = [0, 0x61, 0x73, 0x6D, 1, 0, 0, 0, 0, 2, 1, b'x'];

#[test]
fn a_hazard_is_an_error(rt: HostRuntime) {
    let options = NormaliseOptions::default();
    let new = strict_canonical_module(rt.alloc(), HashKeys::fixed(), &UNKNOWN, options, &[]);
    let unknown = StrictError::Hazard(Hazard::UnknownSection { offset: 8 });
    assert!(rt; new.err() == Some(unknown));
}

#[test]
fn an_allowed_name_is_no_hazard(rt: HostRuntime) {
    let options = NormaliseOptions::default();
    let new = strict_canonical_module(rt.alloc(), HashKeys::fixed(), &UNKNOWN, options, &[b"x"]);
    assert!(rt; new.expect(&rt, "a module").as_slice() == UNKNOWN.as_slice());
}

#[test]
fn errors_are_shown_as_what_is_in_them(rt: HostRuntime) {
    let alloc = rt.alloc();
    let refused = StrictError::Refused(NormaliseModuleError::TooMany)
        .to_string(alloc)
        .expect(&rt, "memory");
    let unknown = StrictError::Hazard(Hazard::UnknownSection { offset: 8 })
        .to_string(alloc)
        .expect(&rt, "memory");
    assert!(rt; refused.as_str() == "too many entries");
    assert!(rt; unknown.as_str() == "the custom section at byte 8 is of an unknown kind");
}
