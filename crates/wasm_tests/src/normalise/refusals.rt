//! Refused memory: a call that was refused goes through when it is made again.
//! Each request for memory of these tests may be refused, one in a run, and they still pass.
use std::alloc::Global;
use std::test::*;
use wasm_normalise::{
    Descriptions, HashKeys, Hazard, NormaliseModuleError, NormaliseOptions, UnusedTypes, Widths,
    canonical_module, find_hazard,
};

// (type (struct)) (type (func)), and a body with a code that no instruction has
const MALFORMED: [u8; 22] = [
    0, 0x61, 0x73, 0x6D, 1, 0, 0, 0, 1, 6, 2, 0x5F, 0, 0x60, 0, 0, 10, 4, 1, 2, 0, 0xFF,
];

// (type (func)), and a name of type 1
const UNREAD: [u8; 26] = [
    0, 0x61, 0x73, 0x6D, 1, 0, 0, 0, 1, 4, 1, 0x60, 0, 0, 0, 10, 4, b'n', b'a', b'm', b'e', 4, 3,
    1, 1, 0,
];

// What the call returns when it is made again after a refusal.
fn refused_again(alloc: Global, unused: UnusedTypes) -> Option<NormaliseModuleError> {
    let options = NormaliseOptions {
        widths: Widths::Shortest,
        descriptions: Descriptions::Kept,
        unused,
    };
    match canonical_module(alloc, HashKeys::fixed(), &MALFORMED, options) {
        Err(NormaliseModuleError::Memory) => {
            canonical_module(alloc, HashKeys::fixed(), &MALFORMED, options).err()
        }
        other => other.err(),
    }
}

#[test]
fn a_refused_place_is_found_when_it_is_asked_for_again(rt: HostRuntime) {
    let malformed = Some(NormaliseModuleError::Malformed { offset: 21 });
    assert!(rt; refused_again(rt.alloc(), UnusedTypes::Kept) == malformed);
    assert!(rt; refused_again(rt.alloc(), UnusedTypes::Deleted) == malformed);
}

#[test]
fn a_refused_hazard_is_found_when_it_is_asked_for_again(rt: HostRuntime) {
    let found = match find_hazard(rt.alloc(), &UNREAD, &[]) {
        Err(NormaliseModuleError::Memory) => find_hazard(rt.alloc(), &UNREAD, &[]),
        other => other,
    };
    assert!(rt; found == Ok(Some(Hazard::UnreadNames { offset: 14 })));
}
