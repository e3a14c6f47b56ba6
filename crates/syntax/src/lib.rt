// Rules as values, and the types and tables that reading, scanning and printing their texts share.
#![tactic(auto)]

ghost use Rattle.std.specs.Prelude.{◌≡◌, cond, ◌≤◌, length, get_or};
ghost use Rattle.syntax.specs.Bytes.{sign_of, digit_of, goes_on, NameAt};
ghost use Rattle.syntax.specs.Postfix.{sides};
ghost use Rattle.syntax.specs.Value.{empty_rule, stored, held, is_part, count};

#[derive(Clone, Copy, Debug, PartialEq, Eq)]
pub enum Op {
    False,
    True,
    Prop(u8),
    Not,
    Next,
    Finally,
    Globally,
    Until,
    Release,
    And,
    Or,
    Implies,
}

#[derive(Clone, Copy, Debug, PartialEq, Eq)]
pub struct Node {
    pub op: Op,
}

// A rule in postfix order; the nodes from `len` on are False, so that a rule has exactly one value.
#[derive(Clone, Copy, Debug, PartialEq, Eq)]
pub struct Rule {
    pub len: usize,
    pub nodes: [Node; 32],
}

impl Rule {
    // The most operators and leaves, the length that tells of more, the most temporal operators, the most bytes of text, and how many propositions have a name.
    pub const MAX: usize = 32;

    pub const OVER: usize = 33;

    pub const PARTS: usize = 6;

    pub const TEXT: usize = 512;

    pub const NAMES: usize = 16;

    // The value with no node, which is no rule's.
    pub fn empty() -> Self
        ensures { result ≡ empty_rule }
    {
        Rule {
            len: 0,
            nodes: [Node { op: Op::False }; Rule::MAX],
        }
    }

    // How many of its nodes stand in the array: all, where `len` tells of more than there can be.
    pub fn stored(self) -> usize
        ensures { result ≡ stored self }
    {
        self.len.min(Rule::MAX)
    }
}

#[derive(Clone, Copy, Debug, PartialEq, Eq)]
pub enum Token {
    Leaf(Op),
    Prefix(Op),
    Infix(Op),
    Open,
    Close,
    End,
}

// What one byte may be: a space, a digit, the `p` of a proposition, an operator, the `-` and the `>` of an arrow, a parenthesis.
#[derive(Clone, Copy, Debug, PartialEq, Eq)]
pub enum Sign {
    Blank,
    Digit(u8),
    Letter,
    Before(Op),
    Between(Op),
    Dash,
    Angle,
    Left,
    Right,
    Other,
}

// What may come next: an operand, the digit of a proposition, a second one or an operator, an operator, the `>` of an arrow; or nothing any more.
#[derive(Clone, Copy, Debug, PartialEq, Eq)]
pub enum Mode {
    Operand,
    Number,
    Teen,
    Operator,
    Arrow,
    Stuck,
}

// What a byte does: it leads to a mode, opens or closes a parenthesis, or nothing may come any more.
#[derive(Clone, Copy, Debug, PartialEq, Eq)]
pub enum Move {
    ToOperand,
    ToNumber,
    ToTeen,
    ToOperator,
    ToArrow,
    Opens,
    Closes,
    Stops,
}

#[derive(Clone, Copy, Debug, PartialEq, Eq)]
pub struct State {
    pub mode: Mode,
    pub depth: usize,
}

// What one byte may be.
#[tactic(auto, using(crate::proofs::Named::last_digit), unfolding(crate::specs::Bytes::sign_of))]
pub fn sign_of(b: u8) -> Sign
    ensures { result ≡ sign_of b }
{
    match b {
        b'0'..=b'9' => Sign::Digit(b - b'0'),
        b' ' => Sign::Blank,
        b'!' => Sign::Before(Op::Not),
        b'&' => Sign::Between(Op::And),
        b'(' => Sign::Left,
        b')' => Sign::Right,
        b'-' => Sign::Dash,
        b'>' => Sign::Angle,
        b'F' => Sign::Before(Op::Finally),
        b'G' => Sign::Before(Op::Globally),
        b'R' => Sign::Between(Op::Release),
        b'U' => Sign::Between(Op::Until),
        b'X' => Sign::Before(Op::Next),
        b'p' => Sign::Letter,
        b'|' => Sign::Between(Op::Or),
        _ => Sign::Other,
    }
}

// The number of a digit.
pub fn digit_of(sign: Sign) -> u8
    ensures { result ≡ digit_of sign }
{
    match sign {
        Sign::Digit(k) => k,
        _ => 0,
    }
}

// Whether a byte of the sign makes `p1` a longer name.
pub fn goes_on(sign: Sign) -> bool
    ensures { result ≡ goes_on sign }
{
    match sign {
        Sign::Digit(k) => 10 + usize::from(k) < Rule::NAMES,
        _ => false,
    }
}

// The number of a proposition, and the place behind its name.
#[derive(Clone, Copy, Debug, PartialEq, Eq)]
pub struct Name {
    pub number: u8,
    pub next: usize,
}

// What the byte at a place may be; beyond the end none stands.
#[tactic(auto, using(crate::proofs::Named::none_there))]
fn sign_at(text: &[u8], at: usize) -> Sign
    ensures { result ≡ sign_of (get_or text.now at 0) }
{
    match text.get(at) {
        Some(byte) => sign_of(*byte),
        None => Sign::Other,
    }
}

// The proposition whose name goes on at `at`, behind its `p`.
pub fn name_at(text: &[u8], at: usize) -> Name
    requires { at ≤ length text.now }
    ensures { NameAt text.now at result }
{
    if text.len() <= at {
        return Name {
            number: 0,
            next: at,
        };
    }
    let next = at + 1;
    let first = digit_of(sign_of(text[at]));
    let sign = sign_at(text, next);
    if first == 1 && goes_on(sign) {
        return Name {
            number: 10 + digit_of(sign),
            next: next + 1,
        };
    }
    Name {
        number: first,
        next,
    }
}

// How many operands an operator has.
pub fn sides_of(op: Op) -> usize
    ensures { result ≡ sides op }
{
    match op {
        Op::False | Op::True | Op::Prop(_) => 0,
        Op::Not | Op::Next | Op::Finally | Op::Globally => 1,
        Op::Until | Op::Release | Op::And | Op::Or | Op::Implies => 2,
    }
}

// Whether an operator is a temporal part.
pub fn is_part(op: Op) -> bool
    ensures { result ≡ is_part op }
{
    matches!(
        op,
        Op::Next | Op::Finally | Op::Globally | Op::Until | Op::Release
    )
}

// How many temporal parts a rule has.
#[tactic(auto, using(crate::proofs::Held::count_held))]
pub fn parts_of(rule: Rule) -> usize
    ensures { result ≡ count (held rule) }
{
    rule.nodes[..rule.stored()]
        .iter()
        .filter(|node| is_part(node.op))
        .count()
}
