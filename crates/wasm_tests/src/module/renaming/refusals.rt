//! Calls whose requests for memory `scripts/check/refuse` refuses in turn. A refused call is made
//! again, and the result compared.
use crate::assertions::assert_equal;
use std::alloc::Global;
use std::test::*;
use wasm_module::{
    RenameError, Widths, rename_body, rename_custom_section, rename_expression, rename_section,
};

const NEW_INDICES: [Option<u32>; 2] = [Some(1), Some(0)];

fn expression_again(alloc: Global, input: &mut &[u8]) -> Result<Vec<u8>, RenameError> {
    match rename_expression(alloc, input, &NEW_INDICES, Widths::Shortest) {
        Err(RenameError::Memory) => {
            rename_expression(alloc, input, &NEW_INDICES, Widths::Shortest)
        }
        other => other,
    }
}

fn body_again(alloc: Global, content: &[u8]) -> Result<Vec<u8>, RenameError> {
    match rename_body(alloc, content, &NEW_INDICES, Widths::Kept) {
        Err(RenameError::Memory) => rename_body(alloc, content, &NEW_INDICES, Widths::Kept),
        other => other,
    }
}

fn section_again(alloc: Global, id: u8, content: &[u8]) -> Result<Vec<u8>, RenameError> {
    match rename_section(alloc, id, content, &NEW_INDICES, Widths::Kept) {
        Err(RenameError::Memory) => rename_section(alloc, id, content, &NEW_INDICES, Widths::Kept),
        other => other,
    }
}

fn custom_again(alloc: Global, content: &[u8]) -> Result<Vec<u8>, RenameError> {
    match rename_custom_section(alloc, content, &NEW_INDICES, Widths::Shortest) {
        Err(RenameError::Memory) => {
            rename_custom_section(alloc, content, &NEW_INDICES, Widths::Shortest)
        }
        other => other,
    }
}

#[test]
fn a_refused_expression_is_written_when_it_is_asked_for_again(rt: HostRuntime) {
    // block 0, ref.null 1, drop, end, end, and what is behind the expression
    let bytes = [0x02, 0, 0xD0, 1, 0x1A, 0x0B, 0x0B, 0x0B];
    let mut input = bytes.as_slice();
    let new = expression_again(rt.alloc(), &mut input).expect(&rt, "memory");
    assert_equal(
        &rt,
        new.as_slice(),
        [0x02, 1, 0xD0, 0, 0x1A, 0x0B, 0x0B].as_slice(),
    );
    assert_equal(&rt, input.len(), 1);
}

#[test]
fn a_refused_body_is_written_when_it_is_asked_for_again(rt: HostRuntime) {
    // a local of (ref null 0), block 1, end, end
    let new = body_again(rt.alloc(), &[1, 1, 0x63, 0, 0x02, 1, 0x0B, 0x0B]).expect(&rt, "memory");
    assert_equal(
        &rt,
        new.as_slice(),
        [1, 1, 0x63, 1, 0x02, 0, 0x0B, 0x0B].as_slice(),
    );
}

#[test]
fn a_refused_section_is_written_when_it_is_asked_for_again(rt: HostRuntime) {
    // two bodies: call_ref 0, and nothing
    let new = section_again(rt.alloc(), 10, &[2, 4, 0, 0x14, 0, 0x0B, 2, 0, 0x0B]);
    let new = new.expect(&rt, "memory");
    assert_equal(
        &rt,
        new.as_slice(),
        [2, 4, 0, 0x14, 1, 0x0B, 2, 0, 0x0B].as_slice(),
    );
}

#[test]
fn a_refused_name_section_is_written_when_it_is_asked_for_again(rt: HostRuntime) {
    // type 0 is a, type 1 is bc
    let names = b"\x04name\x04\x08\x02\x00\x01a\x01\x02bc";
    let expected = b"\x04name\x04\x08\x02\x00\x02bc\x01\x01a";
    let new = custom_again(rt.alloc(), names).expect(&rt, "memory");
    assert_equal(&rt, new.as_slice(), expected.as_slice());
}
