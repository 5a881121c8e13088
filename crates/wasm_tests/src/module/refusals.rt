//! Refused memory: a call that was refused goes through when it is made again.
//! Each request for memory of these tests may be refused, one in a run, and they still pass.
use crate::assertions::assert_equal;
use std::alloc::Global;
use std::test::*;
use wasm_binary::DecodeError;
use wasm_module::{
    RenameError, ScanError, Widths, body_types, check_module, expression_types, find_outdated,
    named_types, rename_module, section_types, strip_descriptions,
};

// What the call returns when it is made again after a refusal.
fn named_again(alloc: Global, bytes: &[u8]) -> Result<Vec<u32>, ScanError> {
    match named_types(alloc, bytes) {
        Err(ScanError::Memory) => named_types(alloc, bytes),
        other => other,
    }
}

fn section_again(alloc: Global, id: u8, content: &[u8]) -> Result<Vec<u32>, ScanError> {
    match section_types(alloc, id, content) {
        Err(ScanError::Memory) => section_types(alloc, id, content),
        other => other,
    }
}

fn body_again(alloc: Global, content: &[u8]) -> Result<Vec<u32>, ScanError> {
    match body_types(alloc, content) {
        Err(ScanError::Memory) => body_types(alloc, content),
        other => other,
    }
}

fn expression_again(alloc: Global, input: &mut &[u8]) -> Result<Vec<u32>, ScanError> {
    match expression_types(alloc, input) {
        Err(ScanError::Memory) => expression_types(alloc, input),
        other => other,
    }
}

#[test]
fn a_refused_module_is_read_again(rt: HostRuntime) {
    // functions of types 1 and 2; bodies: a local of (ref null 3), and call_ref 4
    let bytes = [
        0, 0x61, 0x73, 0x6D, 1, 0, 0, 0, 3, 3, 2, 1, 2, 10, 12, 2, 5, 1, 1, 0x63, 3, 0x0B, 4, 0,
        0x14, 4, 0x0B,
    ];
    let named = named_again(rt.alloc(), &bytes).expect(&rt, "memory");
    assert_equal(&rt, named.as_slice(), [1, 2, 3, 4].as_slice());
}

#[test]
fn a_refused_section_is_read_again(rt: HostRuntime) {
    // (ref null 2), which can be changed, ref.null 3
    let named = section_again(rt.alloc(), 6, &[1, 0x63, 2, 1, 0xD0, 3, 0x0B]);
    assert_equal(
        &rt,
        named.expect(&rt, "memory").as_slice(),
        [2, 3].as_slice(),
    );
}

#[test]
fn a_refused_body_is_read_again(rt: HostRuntime) {
    let named = body_again(rt.alloc(), &[1, 1, 0x63, 3, 0x14, 4, 0x0B]);
    assert_equal(
        &rt,
        named.expect(&rt, "memory").as_slice(),
        [3, 4].as_slice(),
    );
}

#[test]
fn a_refused_expression_is_read_again(rt: HostRuntime) {
    let bytes = [0x02, 5, 0x14, 4, 0x0B, 0x0B, 0x0B];
    let mut input = bytes.as_slice();
    let named = expression_again(rt.alloc(), &mut input).expect(&rt, "memory");
    assert_equal(&rt, named.as_slice(), [5, 4].as_slice());
    assert_equal(&rt, input.len(), 1);
}

fn outdated_in(alloc: Global, bytes: &[u8]) -> Result<Option<usize>, RenameError> {
    let types = [2, 0x60, 0, 0, 0x5F, 0];
    let new = rename_module(alloc, bytes, &types, &[Some(1), Some(0)], Widths::Kept)?;
    Ok(find_outdated(alloc, bytes, new.as_slice())?)
}

fn outdated_again(alloc: Global, bytes: &[u8]) -> Result<Option<usize>, RenameError> {
    match outdated_in(alloc, bytes) {
        Err(RenameError::Memory) => outdated_in(alloc, bytes),
        other => other,
    }
}

#[test]
fn a_refused_section_that_no_longer_fits_is_found_again(rt: HostRuntime) {
    // a struct and a function type, a body with a null of the latter, `.debug_a`, `signature` and
    // `.debug_b`
    let bytes = b"\x00asm\x01\x00\x00\x00\x01\x06\x02\x5F\x00\x60\x00\x00\
        \x0A\x07\x01\x05\x00\xD0\x01\x1A\x0B\x00\x09\x08.debug_a\x00\x0A\x09signature\
        \x00\x09\x08.debug_b";
    assert!(rt; outdated_again(rt.alloc(), bytes) == Ok(Some(36)));
}

fn checked_again(alloc: Global, bytes: &[u8], count: u32) -> Result<(), RenameError> {
    match check_module(alloc, bytes, count) {
        Err(RenameError::Memory) => check_module(alloc, bytes, count),
        other => other,
    }
}

#[test]
fn a_refused_module_is_checked_again(rt: HostRuntime) {
    // a function of type 0
    let bytes = [0, 0x61, 0x73, 0x6D, 1, 0, 0, 0, 3, 2, 1, 0];
    assert!(rt; checked_again(rt.alloc(), &bytes, 1) == Ok(()));
}

fn stripped_again(alloc: Global, bytes: &[u8]) -> Result<Vec<u8>, DecodeError> {
    match strip_descriptions(alloc, bytes) {
        Err(DecodeError::Memory) => strip_descriptions(alloc, bytes),
        other => other,
    }
}

#[test]
fn a_refused_module_is_stripped_again(rt: HostRuntime) {
    let bytes = b"\x00asm\x01\x00\x00\x00\x00\x08\x07linking";
    let new = stripped_again(rt.alloc(), bytes).expect(&rt, "memory");
    assert_equal(&rt, new.as_slice(), b"\x00asm\x01\x00\x00\x00".as_slice());
}
