// The scanner: whether a text is of the grammar, and where it is not.
#![tactic(auto)]

ghost use Rattle.std.specs.Prelude.{◌≡◌, ◌<◌};
ghost use Rattle.syntax.specs.Scan.{operand, digit, teen, operator, angle, move, closes, moved, ends, dead, scan};

use syntax::{Mode, Move, Sign, State};

// An operand is to come. A digit that stands alone is 0 or 1.
fn at_operand(sign: Sign) -> Move
    ensures { result ≡ operand sign }
{
    match sign {
        Sign::Blank | Sign::Before(_) => Move::ToOperand,
        Sign::Digit(0 | 1) => Move::ToOperator,
        Sign::Letter => Move::ToNumber,
        Sign::Left => Move::Opens,
        _ => Move::Stops,
    }
}

// The first digit of a name is to come: behind 1 another may come.
#[tactic(auto, unfolding(syntax::specs::Scan::named))]
fn at_digit(sign: Sign) -> Move
    ensures { result ≡ digit sign }
{
    match sign {
        Sign::Digit(1) => Move::ToTeen,
        Sign::Digit(_) => Move::ToOperator,
        _ => Move::Stops,
    }
}

// An operator is to come, or a closing parenthesis, or the end.
fn at_operator(sign: Sign) -> Move
    ensures { result ≡ operator sign }
{
    match sign {
        Sign::Blank => Move::ToOperator,
        Sign::Between(_) => Move::ToOperand,
        Sign::Dash => Move::ToArrow,
        Sign::Right => Move::Closes,
        _ => Move::Stops,
    }
}

// Behind `p1`: the second digit of a name, or what follows a name.
#[tactic(auto, unfolding(syntax::specs::Scan::teen))]
fn at_teen(sign: Sign) -> Move
    ensures { result ≡ teen sign }
{
    if syntax::goes_on(sign) {
        Move::ToOperator
    } else {
        at_operator(sign)
    }
}

// The `>` of an arrow is to come.
fn at_angle(sign: Sign) -> Move
    ensures { result ≡ angle sign }
{
    match sign {
        Sign::Angle => Move::ToOperand,
        _ => Move::Stops,
    }
}

// What a byte of the sign does in the mode.
fn move_of(mode: Mode, sign: Sign) -> Move
    ensures { result ≡ move mode sign }
{
    match mode {
        Mode::Operand => at_operand(sign),
        Mode::Number => at_digit(sign),
        Mode::Teen => at_teen(sign),
        Mode::Operator => at_operator(sign),
        Mode::Arrow => at_angle(sign),
        Mode::Stuck => Move::Stops,
    }
}

// The state after a `)`, where `depth` parentheses are open.
#[tactic(auto, using(crate::proofs::Turn::closes_none, crate::proofs::Turn::closes_one))]
fn after_close(depth: usize) -> State
    ensures { result ≡ closes depth }
{
    if depth == 0 {
        State {
            mode: Mode::Stuck,
            depth,
        }
    } else {
        State {
            mode: Mode::Operator,
            depth: depth - 1,
        }
    }
}

// The state after a move, where `depth` parentheses are open.
fn state_after(depth: usize, by: Move) -> State
    requires { depth < 9223372036854775808 }
    ensures { result ≡ moved depth by }
{
    match by {
        Move::ToOperand => State {
            mode: Mode::Operand,
            depth,
        },
        Move::ToNumber => State {
            mode: Mode::Number,
            depth,
        },
        Move::ToTeen => State {
            mode: Mode::Teen,
            depth,
        },
        Move::ToOperator => State {
            mode: Mode::Operator,
            depth,
        },
        Move::ToArrow => State {
            mode: Mode::Arrow,
            depth,
        },
        Move::Opens => State {
            mode: Mode::Operand,
            depth: depth + 1,
        },
        Move::Closes => after_close(depth),
        Move::Stops => State {
            mode: Mode::Stuck,
            depth,
        },
    }
}

// Whether nothing may come any more.
fn is_dead(mode: Mode) -> bool
    ensures { result ≡ dead mode }
{
    mode == Mode::Stuck
}

// Whether the text may end here.
fn may_end(mode: Mode, depth: usize) -> bool
    ensures { result ≡ ends mode depth }
{
    matches!(mode, Mode::Operator | Mode::Teen) && depth == 0
}

// Whether a text is of the grammar; if not, the first place at which what is read begins no text, or its end.
pub fn scan_text(text: &[u8]) -> Result<(), usize>
    ensures { result ≡ scan text.now }
{
    let mut state = State {
        mode: Mode::Operand,
        depth: 0,
    };
    for (at, byte) in text.iter().enumerate() {
        state = state_after(state.depth, move_of(state.mode, syntax::sign_of(*byte)));
        if is_dead(state.mode) {
            return Err(at);
        }
    }
    if may_end(state.mode, state.depth) {
        Ok(())
    } else {
        Err(text.len())
    }
}
