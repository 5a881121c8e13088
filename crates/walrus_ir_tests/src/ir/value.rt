//! The texts of constants.
use crate::assertions::{assert_equal, prints};
use walrus_ir::Value;

#[test]
fn integers_print_in_decimal(rt: HostRuntime) {
    let alloc = rt.alloc();
    prints(&rt, alloc, &Value::I32(-1), "-1");
    prints(
        &rt,
        alloc,
        &Value::I64(-9223372036854775808),
        "-9223372036854775808",
    );
    let text = format!(in alloc; "{}", Value::V128(u128::MAX)).expect(&rt, "memory");
    assert_equal(
        &rt,
        text.as_str(),
        "340282366920938463463374607431768211455",
    );
}

#[test]
fn floats_print_all_their_bits(rt: HostRuntime) {
    let alloc = rt.alloc();
    prints(&rt, alloc, &Value::F32(0x3f800000), "0x3f800000");
    prints(&rt, alloc, &Value::F32(10), "0x0000000a");
    prints(
        &rt,
        alloc,
        &Value::F64(0x7ff0000000000000),
        "0x7ff0000000000000",
    );
    prints(&rt, alloc, &Value::F64(0), "0x0000000000000000");
}
