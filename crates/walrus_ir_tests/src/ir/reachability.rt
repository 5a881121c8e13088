//! After which instructions nothing is reached.
use walrus_ir::{Block, Br, BrIf, Call, Id, Instr, Rethrow};

fn stops(instr: &Instr) -> bool {
    instr.following_instructions_are_unreachable()
}

#[test]
fn branches(rt: HostRuntime) {
    let block = Id::from_index(0);
    assert!(rt; stops(&Instr::Br(Br { block })));
    assert!(rt; stops(&Instr::Rethrow(Rethrow { relative_depth: 1 })));
    assert!(rt; !stops(&Instr::BrIf(BrIf { block })));
    assert!(rt; !stops(&Instr::Block(Block { seq: block })));
    assert!(rt;
        !stops(&Instr::Call(Call {
            func: Id::from_index(0)
        }))
    );
}
