//! Examples, with contracts that say which bodies they make.
ghost use Rattle.std.specs.Prelude.{◌≡◌, OnOk, None};
ghost use Rattle.ir_instr.specs.declared.instr_seq_type.InstrSeqType.TheVariants.{Simple};
ghost use Rattle.ir_instr.specs.declared.instr.Instr.TheVariants as instr;
ghost use Rattle.walrus_functions.specs.Body.{next_seq, with_new, with_instr};
ghost use Rattle.walrus_functions.specs.Building.{function_of, seq_id, IsKnown, Stays};

use super::*;

// Adds a block of a loop that branches to its own start.
fn add_endless_loop(body: &mut InstrSeqBuilder<'_>) -> Result<(), BuildError>
    requires { IsKnown body.old }
    ensures known { OnOk result (IsKnown body.new) }
    ensures made { OnOk result (
        let outer = next_seq (function_of body.old) in
        let with_outer = with_new (function_of body.old) (Simple None) in
        let inner = next_seq with_outer in
        let with_inner = with_new with_outer (Simple None) in
        let filled = with_instr with_inner inner (instr.Br (record { block = inner })) in
        let nested = with_instr filled outer (instr.Loop (record { seq = inner })) in
        function_of body.new ≡
        with_instr nested (seq_id body.old) (instr.Block (record { seq = outer }))) }
{
    body.block(NOTHING, |block| {
        block.loop_(NOTHING, |again| again.br(again.id()))
    })
}

// Adds a `drop`. That the builder stays is said of known sequences alone: a nested form asks no
// more, as it calls its closure on a new one.
fn add_drop(body: &mut InstrSeqBuilder<'_>) -> Result<(), BuildError>
    requires { IsKnown body.old }
    ensures same { IsKnown body.old → Stays body.old body.new }
{
    body.drop()
}

#[test]
fn a_closure_that_stays_in_a_known_sequence(rt: HostRuntime) {
    builds(&rt, rt.alloc(), "(block 1)(drop)", Ok(()), |b| {
        b.block(NOTHING, |block| add_drop(block))
    });
}

#[test]
fn a_loop_in_a_block(rt: HostRuntime) {
    builds(&rt, rt.alloc(), "(block 1)(loop 2)(br 2)", Ok(()), |b| {
        add_endless_loop(b)
    });
}
