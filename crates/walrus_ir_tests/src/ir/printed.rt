//! What `Debug` of instructions and operators prints: the name of the type alone.
use crate::assertions::assert_equal;
use std::alloc::Global;
use std::fmt;
use std::process::Abort;
use walrus_ir::{
    AtomicOp, AtomicWidth, BinaryOp, ExtendedLoad, Instr, LoadKind, LoadSimdKind, Return,
    StoreKind, TernaryOp, UnaryOp,
};

fn prints<T: fmt::Debug>(rt: &impl Abort, alloc: Global, value: &T, text: &str) {
    let printed = format!(in alloc; "{value:?}").expect(rt, "memory");
    assert_equal(rt, printed.as_str(), text);
}

#[test]
fn operators(rt: HostRuntime) {
    let alloc = rt.alloc();
    prints(&rt, alloc, &UnaryOp::I32Eqz, "UnaryOp");
    prints(&rt, alloc, &BinaryOp::I32Eq, "BinaryOp");
    prints(&rt, alloc, &TernaryOp::F32x4RelaxedMadd, "TernaryOp");
    prints(&rt, alloc, &LoadKind::F32, "LoadKind");
    prints(&rt, alloc, &StoreKind::F32, "StoreKind");
    prints(&rt, alloc, &LoadSimdKind::Splat8, "LoadSimdKind");
    prints(&rt, alloc, &ExtendedLoad::SignExtend, "ExtendedLoad");
    prints(&rt, alloc, &AtomicOp::Add, "AtomicOp");
    prints(&rt, alloc, &AtomicWidth::I32, "AtomicWidth");
}

#[test]
fn instructions(rt: HostRuntime) {
    prints(&rt, rt.alloc(), &Instr::Return(Return {}), "Instr");
}
