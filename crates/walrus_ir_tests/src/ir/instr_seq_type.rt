//! Which types of sequences are simple, and which are in the table.
use crate::assertions::assert_equal;
use std::test::Fail;
use walrus_ir::{Id, InstrSeqType, ModuleTypes, Val};

#[test]
fn simple_types_leave_the_table_empty(rt: HostRuntime) {
    let mut types = ModuleTypes::new(rt.alloc());
    let nothing = InstrSeqType::new(&mut types, &[], &[]).expect(&rt, "memory");
    assert_equal(&rt, nothing, InstrSeqType::Simple(None));
    let number = InstrSeqType::new(&mut types, &[], &[Val::I32]).expect(&rt, "memory");
    assert_equal(&rt, number, InstrSeqType::Simple(Some(Val::I32)));
    assert!(rt; types.iter().next().is_none());
}

#[test]
fn simple_types_exist_without_a_table(rt: HostRuntime) {
    let types = ModuleTypes::new(rt.alloc());
    let nothing = InstrSeqType::existing(&types, &[], &[]);
    assert_equal(&rt, nothing, Some(InstrSeqType::Simple(None)));
    let number = InstrSeqType::existing(&types, &[], &[Val::F64]);
    assert_equal(&rt, number, Some(InstrSeqType::Simple(Some(Val::F64))));
}

#[test]
fn other_types_exist_once_they_were_added(rt: HostRuntime) -> Result<(), Fail> {
    let mut types = ModuleTypes::new(rt.alloc());
    assert_equal(&rt, InstrSeqType::existing(&types, &[Val::I32], &[]), None);
    let added = InstrSeqType::new(&mut types, &[Val::I32], &[])?;
    assert_equal(&rt, added, InstrSeqType::MultiValue(Id::from_index(0)));
    let known = InstrSeqType::existing(&types, &[Val::I32], &[]);
    assert_equal(&rt, known, Some(added));
    assert_equal(&rt, InstrSeqType::new(&mut types, &[Val::I32], &[])?, added);
    Ok(())
}
