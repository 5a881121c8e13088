//! Arrays.
use super::*;
use walrus_ir::{
    ArrayCopy, ArrayFill, ArrayGet, ArrayGetS, ArrayGetU, ArrayInitData, ArrayInitElem, ArrayNew,
    ArrayNewData, ArrayNewDefault, ArrayNewElem, ArrayNewFixed, ArraySet,
};

#[test]
fn fields_of_arrays(rt: HostRuntime) {
    let (ty, len) = (id(21), 90);
    let mut rows = Rows::new(rt.alloc());
    rows.add(Instr::ArrayNew(ArrayNew { ty }), "type 21");
    rows.add(Instr::ArrayNewDefault(ArrayNewDefault { ty }), "type 21");
    rows.add(Instr::ArrayGet(ArrayGet { ty }), "type 21");
    rows.add(Instr::ArrayGetS(ArrayGetS { ty }), "type 21");
    rows.add(Instr::ArrayGetU(ArrayGetU { ty }), "type 21");
    rows.add(Instr::ArraySet(ArraySet { ty }), "type 21");
    rows.add(Instr::ArrayFill(ArrayFill { ty }), "type 21");
    rows.add(Instr::ArrayNewFixed(ArrayNewFixed { ty, len }), "type 21");
    rows.are_reported(&rt, rt.alloc());
}

#[test]
fn fields_of_arrays_of_segments(rt: HostRuntime) {
    let (ty, data_id, elem, src_ty) = (id(21), id(71), id(81), id(22));
    let mut rows = Rows::new(rt.alloc());
    rows.add(
        Instr::ArrayNewData(ArrayNewData { ty, data_id }),
        "type 21 data 71",
    );
    rows.add(
        Instr::ArrayInitData(ArrayInitData { ty, data_id }),
        "type 21 data 71",
    );
    rows.add(
        Instr::ArrayNewElem(ArrayNewElem { ty, elem }),
        "type 21 element 81",
    );
    rows.add(
        Instr::ArrayInitElem(ArrayInitElem { ty, elem }),
        "type 21 element 81",
    );
    rows.add(
        Instr::ArrayCopy(ArrayCopy { dst_ty: ty, src_ty }),
        "type 21 type 22",
    );
    rows.are_reported(&rt, rt.alloc());
}
