//! Counts at their limit.
use super::*;
use crate::assertions::assert_equal;
use std::test::*;

#[test]
fn the_greatest_count_takes_no_memory(rt: HostRuntime) {
    let params = [1, 0x60, 0xFF, 0xFF, 0xFF, 0xFF, 0x0F, 0x7F, 0x7F, 0x7F];
    let error = decode_types(rt.alloc(), &params).err();
    assert_equal(&rt, error, malformed(10, Expected::ValType));
}
