//! The types that fields are read as.
use crate::assertions::assert_equal;
use walrus_ty::{StorageType, ValType};

#[test]
fn packed_fields_are_read_as_integers(rt: HostRuntime) {
    assert_equal(&rt, StorageType::I8.unpack(), ValType::I32);
    assert_equal(&rt, StorageType::I16.unpack(), ValType::I32);
    assert_equal(&rt, StorageType::Val(ValType::F64).unpack(), ValType::F64);
}
