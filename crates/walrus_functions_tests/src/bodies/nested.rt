//! Instructions that have sequences inside.
use super::*;

#[test]
fn a_block(rt: HostRuntime) {
    builds(&rt, rt.alloc(), "(block 1)(i32 1337, drop)", Ok(()), |b| {
        b.block(NOTHING, |block| {
            block.i32_const(1337)?;
            block.drop()
        })
    });
}

#[test]
fn an_if_in_a_block(rt: HostRuntime) {
    builds(
        &rt,
        rt.alloc(),
        "(block 1)(if 2 3)(drop)(unreachable)",
        Ok(()),
        |b| {
            b.block(NOTHING, |block| {
                block.if_else(NOTHING, |b| b.drop(), |b| b.unreachable())
            })
        },
    );
}

#[test]
fn an_error_of_the_second_closure(rt: HostRuntime) {
    let outcome = Err(BuildError::NoParent);
    builds(&rt, rt.alloc(), "()(drop)()", outcome, |b| {
        b.if_else(NOTHING, |b| b.drop(), |_| Err(BuildError::NoParent))
    });
}

#[test]
fn a_closure_that_makes_room_for_its_block(rt: HostRuntime) {
    builds(&rt, rt.alloc(), "(unreachable, block 1)()", Ok(()), |b| {
        b.block_at(1, NOTHING, |block| {
            let f = block.builder_mut();
            let mut entry = f.func_body();
            entry.unreachable()
        })
    });
}

#[test]
fn an_instruction_goes_before_another(rt: HostRuntime) {
    builds(&rt, rt.alloc(), "(drop, unreachable)", Ok(()), |b| {
        b.unreachable()?;
        b.instr_at(0, Instr::Drop(DropInstr {}))
    });
}

#[test]
fn a_closure_that_empties_the_parent(rt: HostRuntime) {
    builds(&rt, rt.alloc(), "()()", Err(BuildError::Position), |b| {
        b.unreachable()?;
        b.unreachable()?;
        b.block_at(2, NOTHING, |block| {
            let f = block.builder_mut();
            let mut entry = f.func_body();
            entry.instrs_mut().clear();
            Ok(())
        })
    });
}

#[test]
fn a_closure_that_replaces_the_function(rt: HostRuntime) {
    let other = FunctionBuilder::without_entry(rt.alloc(), Id::from_index(0));
    builds(&rt, rt.alloc(), "", Err(BuildError::NoParent), |b| {
        b.block(NOTHING, |block| {
            *block.builder_mut() = other;
            Ok(())
        })
    });
}

#[test]
fn a_block_before_an_instruction(rt: HostRuntime) {
    builds(&rt, rt.alloc(), "(block 1, unreachable)()", Ok(()), |b| {
        b.unreachable()?;
        b.block_at(0, NOTHING, |_| Ok(()))
    });
}

#[test]
fn a_position_past_the_end(rt: HostRuntime) {
    builds(
        &rt,
        rt.alloc(),
        "()(drop)",
        Err(BuildError::Position),
        |b| { b.block_at(1, NOTHING, |block| block.drop()) },
    );
}
