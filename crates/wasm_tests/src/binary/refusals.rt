//! Refused memory: a call that was refused goes through when it is made again.
//! Each request for memory of these tests may be refused, one in a run, and they still pass.
use super::*;
use crate::assertions::assert_equal;
use std::process::Abort;
use std::test::*;
use wasm_binary::{EncodeError, encode_types, module_types};

// The groups of the bytes. After a refusal the call is made again.
fn decode_again(alloc: Global, bytes: &[u8]) -> Result<Vec<GroupAt>, DecodeError> {
    match decode_types(alloc, bytes) {
        Err(DecodeError::Memory) => decode_types(alloc, bytes),
        other => other,
    }
}

// The groups of the module. After a refusal the call is made again.
fn module_types_again(alloc: Global, bytes: &[u8]) -> Result<Vec<GroupAt>, DecodeError> {
    match module_types(alloc, bytes) {
        Err(DecodeError::Memory) => module_types(alloc, bytes),
        other => other,
    }
}

// The text of the groups. After a refusal the call is made again.
fn encode_again(alloc: Global, groups: &[GroupAt]) -> Result<Vec<u8>, EncodeError> {
    match encode_types(alloc, groups) {
        Err(EncodeError::Memory) => encode_types(alloc, groups),
        other => other,
    }
}

// The groups have this text.
fn have_text(rt: &impl Abort, alloc: Global, groups: &[GroupAt], text: &[u8]) {
    let written = encode_again(alloc, groups).expect(rt, "memory");
    assert_equal(rt, written.as_slice(), text);
}

#[test]
fn a_refused_text_is_read_and_written_again(rt: HostRuntime) {
    let bytes = [
        3, 0x60, 2, 0x7F, 0x7E, 1, 0x6F, 0x4E, 2, 0x5F, 1, 0x78, 1, 0x5E, 0x77, 0, 0x5F, 1, 0x7F, 0,
    ];
    let groups = decode_again(rt.alloc(), &bytes).expect(&rt, "memory");
    have_text(&rt, rt.alloc(), groups.as_slice(), &bytes);
}

#[test]
fn a_refused_module_is_read_again(rt: HostRuntime) {
    let bytes = [
        0, 0x61, 0x73, 0x6D, 1, 0, 0, 0, 1, 5, 1, 0x60, 1, 0x7F, 0, 3, 2, 1, 0,
    ];
    let groups = module_types_again(rt.alloc(), &bytes).expect(&rt, "memory");
    have_text(&rt, rt.alloc(), groups.as_slice(), &bytes[10..15]);
}
