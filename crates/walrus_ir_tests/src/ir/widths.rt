//! Widths and atomic flags of loads, stores and atomic instructions.
use crate::assertions::assert_equal;
use walrus_ir::{AtomicWidth, ExtendedLoad, LoadKind, StoreKind};

#[test]
fn loads(rt: HostRuntime) {
    let kind = LoadKind::I64_32 {
        kind: ExtendedLoad::ZeroExtendAtomic,
    };
    assert_equal(&rt, kind.width(), 4);
    assert!(rt; kind.atomic());
}

#[test]
fn stores_and_atomic_instructions(rt: HostRuntime) {
    assert_equal(&rt, StoreKind::V128.width(), 16);
    assert!(rt; !StoreKind::V128.atomic());
    assert!(rt; StoreKind::I64_32 { atomic: true }.atomic());
    assert_equal(&rt, AtomicWidth::I32_16.bytes(), 2);
    assert_equal(&rt, AtomicWidth::I64.bytes(), 8);
}
