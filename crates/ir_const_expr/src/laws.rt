//! Laws of constant expressions. Each function does nothing; its clauses are theorems, which a
//! caller gets by calling it.
ghost use Rattle.std.specs.Prelude.{◌≡◌, List, map};
ghost use Rattle.ir_const_expr.specs.declared.const_expr.ConstOp.{ConstOp};
ghost use Rattle.ir_const_expr.specs.declared.const_expr.ConstOpAt.{ConstOpAt};
ghost use Rattle.ir_const_expr.specs.ConstExpr.{Renaming, after, expr_of, ops_of, op_read, op_written, rename_op};

/// The operations of a constant expression are the ones that it was made of. So what `to_ops`
/// writes of what `eval` read is the list that was read, with each index sent through both maps.
pub fn operations_come_back()
    ensures operations { (ops : List ConstOp) → ops_of (expr_of ops) ≡ ops }
    ensures both_ways { (f g : Renaming) (ops : List ConstOpAt) →
        map (op_written g) (ops_of (expr_of (map (op_read f) ops))) ≡
        map (rename_op (after g f)) ops }
{}
