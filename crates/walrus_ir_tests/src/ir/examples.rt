//! The example on the first page of `ir_operators`.
use walrus_ir::LoadKind;

fn is_whole_word(kind: &LoadKind) -> bool {
    kind.width() == 4 && !kind.atomic()
}

#[test]
fn words_that_are_read_whole(rt: HostRuntime) {
    assert!(rt; is_whole_word(&LoadKind::F32));
    assert!(rt; !is_whole_word(&LoadKind::I32 { atomic: true }));
    assert!(rt; !is_whole_word(&LoadKind::I64 { atomic: false }));
}
