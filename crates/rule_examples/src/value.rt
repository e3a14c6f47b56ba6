// A rule's value by its length and nodes, each node a byte: a small letter for a proposition (`a` is p0), and otherwise the byte that stands for the
// operator in a text (`>` for the arrow).
use syntax::{Node, Op, Rule};

fn op_of(byte: u8) -> Op {
    match byte {
        b'0' => Op::False,
        b'1' => Op::True,
        b'!' => Op::Not,
        b'X' => Op::Next,
        b'F' => Op::Finally,
        b'G' => Op::Globally,
        b'U' => Op::Until,
        b'R' => Op::Release,
        b'&' => Op::And,
        b'|' => Op::Or,
        b'>' => Op::Implies,
        b'a'..=255 => Op::Prop(byte - b'a'),
        _ => Op::False,
    }
}

// The nodes that are given, and False behind them.
pub fn value(len: usize, code: &[u8]) -> Rule {
    let mut nodes = [b'0'; Rule::MAX];
    cases::bytes_of(code, &mut nodes);
    Rule {
        len,
        nodes: nodes.map(|byte| Node { op: op_of(byte) }),
    }
}
