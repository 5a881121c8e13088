//! New sequences.
use crate::assertions::assert_equal;
use walrus_ir::{Id, InstrSeq, InstrSeqType};

#[test]
fn a_new_sequence_is_empty(rt: HostRuntime) {
    let seq = InstrSeq::new(rt.alloc(), Id::from_index(3), InstrSeqType::Simple(None));
    assert_equal(&rt, seq.id().index(), 3);
    assert!(rt; seq.instrs.is_empty());
    assert!(rt; seq.end.is_default());
}
