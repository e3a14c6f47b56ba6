// Reads the tokens of a rule's text into a rule. A level of the grammar is a function, and they call one another round (01, Rule text).
#![tactic(auto)]

ghost use Rattle.std.specs.Prelude.{◌≡◌, eqb, ◌+◌, ◌≤◌, ◌<◌, length};
ghost use Rattle.syntax.specs.Bytes.{leaf_of, gap};
ghost use Rattle.syntax.specs.Reader.{place, read, more, parse};
ghost use Rattle.syntax.specs.Grammar.{arrows, ors, ands, untils, prefixes, leaves};
ghost use Rattle.syntax.specs.Value.{empty_rule};
ghost use Rattle.reader.specs.Draft.{pushed, written, token_of, closed_by, past_mark, Skipped, Lettered, Next, Did};

use syntax::{Node, Op, Rule, Sign, Token};

// The leaf of a digit that stands alone.
fn leaf_of(k: u8) -> Op
    ensures { result ≡ leaf_of k }
{
    if k == 0 { Op::False } else { Op::True }
}

// The rule with one node more; a full one only tells that there were more, by the length 33.
fn push(rule: Rule, op: Op) -> Rule
    ensures { result ≡ pushed rule op }
{
    let mut longer = rule;
    if rule.len < Rule::MAX {
        longer.nodes[rule.len] = Node { op };
        longer.len = rule.len + 1;
    } else {
        longer.len = Rule::OVER;
    }
    longer
}

// Whether no token begins with a byte of the sign.
fn is_gap(sign: Sign) -> bool
    ensures { result ≡ gap sign }
{
    matches!(sign, Sign::Blank | Sign::Angle | Sign::Other)
}

// The first place from `from` on where a token begins, or the end.
fn skip(text: &[u8], from: usize) -> usize
    requires { from ≤ length text.now }
    ensures { Skipped text.now from result }
{
    for at in from..text.len() {
        if !is_gap(syntax::sign_of(text[at])) {
            return at;
        }
    }
    text.len()
}

// A token, and the place after it.
#[derive(Clone, Copy)]
pub struct Mark {
    pub token: Token,
    pub next: usize,
}

// The token that a byte of the sign is by itself.
fn token_of(sign: Sign) -> Token
    ensures { result ≡ token_of sign }
{
    match sign {
        Sign::Digit(k) => Token::Leaf(leaf_of(k)),
        Sign::Before(op) => Token::Prefix(op),
        Sign::Between(op) => Token::Infix(op),
        Sign::Dash => Token::Infix(Op::Implies),
        Sign::Left => Token::Open,
        Sign::Right => Token::Close,
        _ => Token::End,
    }
}

// The proposition whose name goes on at `at`, behind its `p`.
fn letter_at(text: &[u8], at: usize) -> Mark
    requires { at ≤ length text.now }
    ensures { Lettered text.now at result }
{
    let name = syntax::name_at(text, at);
    Mark {
        token: Token::Leaf(Op::Prop(name.number)),
        next: name.next,
    }
}

// The next token from `from` on.
fn token_at(text: &[u8], from: usize) -> Mark
    requires { from ≤ length text.now }
    ensures { Next text.now from result }
{
    let at = skip(text, from);
    if text.len() <= at {
        return Mark {
            token: Token::End,
            next: at,
        };
    }
    let next = at + 1;
    if text[at] == b'p' {
        return letter_at(text, next);
    }
    Mark {
        token: token_of(syntax::sign_of(text[at])),
        next,
    }
}

// Whether an operator stands on the level of `U`.
fn is_until(op: Op) -> bool
    ensures { result ≡ eqb (place op) 3 }
{
    matches!(op, Op::Until | Op::Release)
}

// How far the text is read, and the rule so far.
#[derive(Clone, Copy)]
pub struct Draft {
    pub at: usize,
    pub rule: Rule,
}

// The draft with an operator written.
fn closed_by(draft: Draft, op: Op) -> Draft
    ensures { result ≡ closed_by draft op }
{
    Draft {
        at: draft.at,
        rule: push(draft.rule, op),
    }
}

// The draft with the mark passed.
fn past(draft: Draft, mark: Mark) -> Draft
    ensures { result ≡ past_mark draft mark }
{
    Draft {
        at: mark.next,
        rule: draft.rule,
    }
}

// Each level reads an expression of its own from the draft's place on, and writes its nodes.
#[cycle(more_and_more_or_read_and_read_arrow_read_leaf_read_or_read_prefix_read_until)]
fn read_arrow(text: &[u8], draft: Draft) -> Draft
    requires { draft.at ≤ length text.now }
    ensures { Did (λ n ts. read n arrows ts) 5 text.now draft result }
{
    let left = read_or(text, draft);
    let mark = token_at(text, left.at);
    if mark.token == Token::Infix(Op::Implies) {
        let right = read_arrow(text, past(left, mark));
        closed_by(right, Op::Implies)
    } else {
        left
    }
}

#[cycle(more_and_more_or_read_and_read_arrow_read_leaf_read_or_read_prefix_read_until)]
fn read_or(text: &[u8], draft: Draft) -> Draft
    requires { draft.at ≤ length text.now }
    ensures { Did (λ n ts. read n ors ts) 4 text.now draft result }
{
    more_or(text, read_and(text, draft))
}

#[cycle(more_and_more_or_read_and_read_arrow_read_leaf_read_or_read_prefix_read_until)]
fn more_or(text: &[u8], draft: Draft) -> Draft
    requires { draft.at ≤ length text.now }
    ensures { Did (λ n ts. more n ors ts) 0 text.now draft result }
{
    let mark = token_at(text, draft.at);
    if mark.token == Token::Infix(Op::Or) {
        let right = read_and(text, past(draft, mark));
        more_or(text, closed_by(right, Op::Or))
    } else {
        draft
    }
}

#[cycle(more_and_more_or_read_and_read_arrow_read_leaf_read_or_read_prefix_read_until)]
fn read_and(text: &[u8], draft: Draft) -> Draft
    requires { draft.at ≤ length text.now }
    ensures { Did (λ n ts. read n ands ts) 3 text.now draft result }
{
    more_and(text, read_until(text, draft))
}

#[cycle(more_and_more_or_read_and_read_arrow_read_leaf_read_or_read_prefix_read_until)]
fn more_and(text: &[u8], draft: Draft) -> Draft
    requires { draft.at ≤ length text.now }
    ensures { Did (λ n ts. more n ands ts) 0 text.now draft result }
{
    let mark = token_at(text, draft.at);
    if mark.token == Token::Infix(Op::And) {
        let right = read_until(text, past(draft, mark));
        more_and(text, closed_by(right, Op::And))
    } else {
        draft
    }
}

#[cycle(more_and_more_or_read_and_read_arrow_read_leaf_read_or_read_prefix_read_until)]
fn read_until(text: &[u8], draft: Draft) -> Draft
    requires { draft.at ≤ length text.now }
    ensures { Did (λ n ts. read n untils ts) 2 text.now draft result }
{
    let left = read_prefix(text, draft);
    let mark = token_at(text, left.at);
    match mark.token {
        Token::Infix(op) if is_until(op) => {
            let right = read_until(text, past(left, mark));
            closed_by(right, op)
        }
        _ => left,
    }
}

#[cycle(more_and_more_or_read_and_read_arrow_read_leaf_read_or_read_prefix_read_until)]
fn read_prefix(text: &[u8], draft: Draft) -> Draft
    requires { draft.at ≤ length text.now }
    ensures { Did (λ n ts. read n prefixes ts) 1 text.now draft result }
{
    let mark = token_at(text, draft.at);
    if let Token::Prefix(op) = mark.token {
        let inner = read_prefix(text, past(draft, mark));
        closed_by(inner, op)
    } else {
        read_leaf(text, draft)
    }
}

#[cycle(more_and_more_or_read_and_read_arrow_read_leaf_read_or_read_prefix_read_until)]
fn read_leaf(text: &[u8], draft: Draft) -> Draft
    requires { draft.at ≤ length text.now }
    ensures { Did (λ n ts. read n leaves ts) 0 text.now draft result }
{
    let mark = token_at(text, draft.at);
    match mark.token {
        Token::Leaf(op) => closed_by(past(draft, mark), op),
        Token::Open => {
            let inner = read_arrow(text, past(draft, mark));
            let close = token_at(text, inner.at);
            past(inner, close)
        }
        _ => draft,
    }
}

// The rule that a text says, if it is of the grammar: see `Parse.parsed`.
pub fn parse_rule(text: &[u8]) -> Rule
    ensures { result ≡ written empty_rule (parse text.now) }
{
    let start = Draft {
        at: 0,
        rule: Rule::empty(),
    };
    read_arrow(text, start).rule
}
