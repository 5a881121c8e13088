//! Instructions from the structs of nested ones.
use walrus_ir::{Id, IfElse, Instr};

#[test]
fn structs_become_their_instructions(rt: HostRuntime) {
    let instr = Instr::from(IfElse {
        consequent: Id::from_index(1),
        alternative: Id::from_index(2),
    });
    assert!(rt; matches!(&instr, Instr::IfElse(x) if x.consequent.index() == 1));
}
