// What a rule value is checked for. Each loop goes over the nodes that stand in the array, whatever the length says.
ghost use Rattle.std.specs.Prelude.{◌≡◌};
ghost use Rattle.syntax.specs.Postfix.{whole};
ghost use Rattle.syntax.specs.Value.{held, beyond};
ghost use Rattle.meaning.specs.Step.{every};
ghost use Rattle.rule_value.specs.Valid.{is_false, known};

use syntax::{Op, Rule};

// Whether an operator is no proposition from `props` on.
fn is_known(op: Op, props: usize) -> bool
    ensures { result ≡ known props op }
{
    match op {
        Op::Prop(k) => usize::from(k) < props,
        _ => true,
    }
}

fn is_false(op: Op) -> bool
    ensures { result ≡ is_false op }
{
    op == Op::False
}

// Whether the nodes are those of one rule: each finds its operands, and one rule is left.
pub fn is_whole(rule: Rule) -> bool
    ensures { result ≡ whole (held rule) 0 }
{
    let mut depth: usize = 0;
    for node in &rule.nodes[..rule.stored()] {
        let sides = syntax::sides_of(node.op);
        if depth < sides {
            return false;
        }
        depth = depth + 1 - sides;
    }
    depth == 1
}

// Whether each proposition is below `props`.
pub fn all_known(rule: Rule, props: usize) -> bool
    ensures { result ≡ every (known props) (held rule) }
{
    rule.nodes[..rule.stored()]
        .iter()
        .all(|node| is_known(node.op, props))
}

// Whether the nodes from the length on are False.
pub fn rest_blank(rule: Rule) -> bool
    ensures { result ≡ every is_false (beyond rule) }
{
    rule.nodes[rule.stored()..]
        .iter()
        .all(|node| is_false(node.op))
}
