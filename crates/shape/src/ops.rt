// What a node of a rule is.
ghost use Rattle.std.specs.Prelude.{◌≡◌};
ghost use Rattle.shape.specs.Ops.{op_at, is_step};

use syntax::{Op, Rule};

// The operator of node i, and False beyond the rule.
pub fn op_at(rule: Rule, i: usize) -> Op
    ensures { result ≡ op_at rule.nodes i }
{
    rule.nodes.get(i).map_or(Op::False, |node| node.op)
}

// Whether it is an X.
pub fn is_next(op: Op) -> bool
    ensures { result ≡ is_step op }
{
    op == Op::Next
}
