// A settings sheet: up to three lines, `edition`, `rule` and `closing` in this order. What it is stands in specs/Sheet; here it is read byte by byte, by a machine with
// four states, whose stuck state tells the place of a refusal.
#![tactic(auto)]

ghost use Rattle.std.specs.Prelude.{◌≡◌, ◌+◌, ◌<◌};
ghost use Rattle.sheet.specs.declared.State.TheVariants.{Name, Value};
ghost use Rattle.sheet.specs.Machine.{
  line_by,
  begun,
  key_byte,
  key_size,
  named,
  lead_zero,
  ranged,
  digit_grown,
  byte_grown,
  value_grown,
  further,
  ended,
  state_after,
  size_of,
  stuck,
  may,
  file_as,
  filed,
  scan_of,
};

use text::byte_at;

// What was read of a sheet: the lengths of the three values, 0 where there is no such line, and the edition's number, 0 where there is none.
#[derive(Clone, Copy)]
pub struct Lines {
    pub edition: usize,
    pub rule: usize,
    pub closing: usize,
    pub number: usize,
}

impl Lines {
    // The most bytes of a sheet, and of the rule in it.
    pub const SHEET: usize = 1024;

    pub const RULE: usize = 512;

    // The least and the greatest number of an edition, and the greatest of `closing`.
    pub const FIRST: usize = 1;

    pub const EDITION: usize = 65535;

    pub const CLOSING: usize = 99;

    // No line at all.
    pub const NONE: Lines = Lines {
        edition: 0,
        rule: 0,
        closing: 0,
        number: 0,
    };
}

// The keys.
#[derive(Clone, Copy)]
pub enum Key {
    Edition,
    Rule,
    Closing,
}

// Lines are numbered 0 (edition), 1 (rule), 2 (closing).
// Before(k): a line from k on may begin, or the text may end. Name(k, i): i bytes of the key of line k are read, its `=` is not.
// Value(k, at, n): `at` bytes of the value of line k are read, and make the number n (0 for a rule).
#[derive(Clone, Copy)]
pub enum State {
    Before(usize),
    Name(usize, usize),
    Value(usize, usize, usize),
    Stuck,
}

// The line whose key begins with the byte, and 3 where none does.
#[tactic(auto, unfolding(crate::specs::Machine::line_by))]
fn line_by(b: u8) -> usize
    ensures { result ≡ line_by b }
{
    match b {
        b'e' => 0,
        b'r' => 1,
        b'c' => 2,
        _ => 3,
    }
}

// A line j begins where lines from k on may.
#[tactic(auto, unfolding(crate::specs::Machine::begun))]
fn begin(k: usize, j: usize) -> State
    ensures { result ≡ begun k j }
{
    if k <= j && j < 3 {
        State::Name(j, 1)
    } else {
        State::Stuck
    }
}

// The byte of a line's key at a place.
#[tactic(auto, unfolding(crate::specs::Machine::key_byte))]
fn key_byte(k: usize, i: usize) -> u8
    ensures { result ≡ key_byte k i }
{
    match k {
        0 => byte_at(b"edition=", i),
        1 => byte_at(b"rule=", i),
        _ => byte_at(b"closing=", i),
    }
}

// How many bytes a line's key has, with the `=`.
#[tactic(auto, unfolding(crate::specs::Machine::key_size))]
fn key_size(k: usize) -> usize
    ensures { result ≡ key_size k }
{
    if k == 1 { 5 } else { 8 }
}

// The state behind i bytes of a key.
#[tactic(auto, unfolding(crate::specs::Machine::named))]
fn name(k: usize, i: usize) -> State
    ensures { result ≡ named k i }
{
    if i == key_size(k) {
        State::Value(k, 0, 0)
    } else {
        State::Name(k, i)
    }
}

// Whether what is read of a number is a zero, so that no digit may follow.
#[tactic(auto, unfolding(crate::specs::Machine::lead_zero))]
fn lead_zero(at: usize, n: usize) -> bool
    ensures { result ≡ lead_zero at n }
{
    at != 0 && n == 0
}

// A number within its range.
#[tactic(auto, unfolding(crate::specs::Machine::ranged))]
fn range(lo: usize, hi: usize, n: usize) -> Option<usize>
    ensures { result ≡ ranged lo hi n }
{
    if lo <= n && n <= hi { Some(n) } else { None }
}

// A decimal number with one digit more, from lo to hi, where hi is at most 65,535.
#[tactic(auto, unfolding(crate::specs::Machine::digit_grown))]
fn grow_digit(lo: usize, hi: usize, at: usize, n: usize, b: u8) -> Option<usize>
    ensures { result ≡ digit_grown lo hi at n b }
{
    if !b.is_ascii_digit() || 6553 < n || lead_zero(at, n) {
        return None;
    }
    range(lo, hi, n * 10 + usize::from(b - b'0'))
}

// A rule with one byte more.
#[tactic(auto, unfolding(crate::specs::Machine::byte_grown))]
fn grow_byte(at: usize, b: u8) -> Option<usize>
    ensures { result ≡ byte_grown at b }
{
    if b < b' ' || b'~' < b || Lines::RULE <= at {
        return None;
    }
    Some(0)
}

// A line's value with one byte more.
#[tactic(auto, unfolding(crate::specs::Machine::value_grown))]
fn grow(k: usize, at: usize, n: usize, b: u8) -> Option<usize>
    ensures { result ≡ value_grown k at n b }
{
    match k {
        0 => grow_digit(Lines::FIRST, Lines::EDITION, at, n, b),
        1 => grow_byte(at, b),
        _ => grow_digit(0, Lines::CLOSING, at, n, b),
    }
}

// The state behind a value's byte.
fn value(k: usize, at: usize, grown: Option<usize>) -> State
    requires { at < 4096 }
    ensures { result ≡ further k at grown }
{
    match grown {
        Some(n) => State::Value(k, at + 1, n),
        None => State::Stuck,
    }
}

// The state behind the LF that ends a value of `at` bytes.
#[tactic(auto, unfolding(crate::specs::Machine::ended))]
fn end(k: usize, at: usize) -> State
    requires { k < 4096 }
    ensures { result ≡ ended k at }
{
    if at == 0 {
        return State::Stuck;
    }
    State::Before(k + 1)
}

// The state behind a byte of a key.
#[tactic(auto, unfolding(crate::specs::Machine::state_after))]
fn in_name(k: usize, i: usize, b: u8) -> State
    requires { i < 4096 }
    ensures { result ≡ state_after (Name k i) b }
{
    if b == key_byte(k, i) {
        return name(k, i + 1);
    }
    State::Stuck
}

// The state behind a byte of a value, or the LF that ends it.
#[tactic(auto, unfolding(crate::specs::Machine::state_after))]
fn in_value(k: usize, at: usize, n: usize, b: u8) -> State
    requires { k + at < 4096 }
    ensures { result ≡ state_after (Value k at n) b }
{
    if b == b'\n' {
        return end(k, at);
    }
    value(k, at, grow(k, at, n, b))
}

// The state behind a byte.
#[tactic(auto, unfolding(crate::specs::Machine::state_after))]
fn step(state: State, b: u8) -> State
    requires { size_of state < 4096 }
    ensures { result ≡ state_after state b }
{
    match state {
        State::Before(k) => begin(k, line_by(b)),
        State::Name(k, i) => in_name(k, i, b),
        State::Value(k, at, n) => in_value(k, at, n, b),
        State::Stuck => State::Stuck,
    }
}

// Whether nothing may come any more.
fn is_stuck(state: State) -> bool
    ensures { result ≡ stuck state }
{
    matches!(state, State::Stuck)
}

// Whether the text may end here.
fn may_end(state: State) -> bool
    ensures { result ≡ may state }
{
    matches!(state, State::Before(_))
}

// The value of line k has `at` bytes, and makes the number n.
#[tactic(auto, unfolding(crate::specs::Machine::file_as))]
fn file_as(lines: Lines, k: usize, at: usize, n: usize) -> Lines
    ensures { result ≡ file_as lines k at n }
{
    match k {
        0 => Lines {
            edition: at,
            number: n,
            ..lines
        },
        1 => Lines { rule: at, ..lines },
        _ => Lines {
            closing: at,
            ..lines
        },
    }
}

// What is known of the lines behind a byte of a value: it is filed where an LF ends it.
#[tactic(auto, unfolding(crate::specs::Machine::filed))]
fn file_value(lines: Lines, k: usize, at: usize, n: usize, b: u8) -> Lines
    ensures { result ≡ filed lines (Value k at n) b }
{
    if b == b'\n' {
        return file_as(lines, k, at, n);
    }
    lines
}

// What is known of the lines behind a byte.
#[tactic(auto, unfolding(crate::specs::Machine::filed))]
fn file(lines: Lines, state: State, b: u8) -> Lines
    ensures { result ≡ filed lines state b }
{
    match state {
        State::Value(k, at, n) => file_value(lines, k, at, n, b),
        _ => lines,
    }
}

// Whether a text is a sheet, and what its lines are; if not, the first place at which what is read begins no sheet, or its end. A text over 1,024 bytes is not looked at.
pub fn scan_sheet(text: &[u8]) -> Result<Lines, usize>
    ensures { result ≡ scan_of text.now }
{
    if Lines::SHEET < text.len() {
        return Err(Lines::SHEET);
    }
    let mut lines = Lines::NONE;
    let mut state = State::Before(0);
    for (at, &b) in text.iter().enumerate() {
        lines = file(lines, state, b);
        state = step(state, b);
        if is_stuck(state) {
            return Err(at);
        }
    }
    if may_end(state) {
        Ok(lines)
    } else {
        Err(text.len())
    }
}
