//! The texts of the errors.
use crate::assertions::prints;
use walrus_ty::{FromRecordError, Id, NoIndex, ToRecordError, UnknownIndex};

#[test]
fn errors_of_records_print_the_name_at_fault(rt: HostRuntime) {
    let alloc = rt.alloc();
    prints(&rt, alloc, &UnknownIndex(3), "unknown index 3");
    prints(
        &rt,
        alloc,
        &NoIndex::OfType(Id::from_index(3)),
        "no index for type 3",
    );
    prints(
        &rt,
        alloc,
        &NoIndex::OfFunc(Id::from_index(4)),
        "no index for function 4",
    );
    prints(
        &rt,
        alloc,
        &NoIndex::OfGlobal(Id::from_index(5)),
        "no index for global 5",
    );
}

#[test]
fn an_error_in_an_error_prints_its_own_text(rt: HostRuntime) {
    let alloc = rt.alloc();
    prints(
        &rt,
        alloc,
        &FromRecordError::UnknownIndex(3),
        "unknown index 3",
    );
    prints(&rt, alloc, &FromRecordError::Memory, "out of memory");
    let none = NoIndex::OfType(Id::from_index(3));
    prints(
        &rt,
        alloc,
        &ToRecordError::NoIndex(none),
        "no index for type 3",
    );
    prints(&rt, alloc, &ToRecordError::Memory, "out of memory");
}
