// The states of a list: decimal numbers with commas between them. A number that no byte holds is taken for 255, which is no state of a table either.
ghost use Rattle.std.specs.Prelude.{◌≡◌, ◌&&◌, cond, [], ◌∷◌, ◌≤◌, ◌-◌, ltb, length, take};
ghost use Rattle.io.specs.Counts.{IsPrefixLen};
ghost use Rattle.writing.specs.Put.{Put};
ghost use Rattle.report_text.specs.States.{with_digit, grown, ends, states_of, part_of};

use crate::Part;
use writing::put_byte;

// The value of a digit.
fn digit_of(b: u8) -> u8
    ensures { result ≡ b - 48 }
{
    b.saturating_sub(b'0')
}

// A number with one digit more, and 255 where it is greater.
#[tactic(auto, unfolding(crate::specs::States::with_digit))]
fn with_digit(n: u8, b: u8) -> u8
    ensures { result ≡ with_digit n b }
{
    let more = u16::from(n) * 10 + u16::from(digit_of(b));
    u8::try_from(more).unwrap_or(255)
}

fn is_comma(b: u8) -> bool
    ensures { result ≡ ends b }
{
    b == b','
}

// The number that goes on behind a byte: behind a comma another begins.
#[tactic(auto, unfolding(crate::specs::States::grown))]
fn grow(n: u8, b: u8) -> u8
    ensures { result ≡ grown n b }
{
    if is_comma(b) { 0 } else { with_digit(n, b) }
}

// A state is kept where its number has ended, and as long as there is room.
fn keep(states: &mut [u8], count: usize, n: u8, ended: bool) -> usize
    requires { count ≤ length states.old }
    ensures { Put states.old count (cond (ended && ltb count (length states.old)) (n ∷ []) []) states.new result }
{
    if ended && count < states.len() {
        return put_byte(states, count, n);
    }
    count
}

// The states of a list, as many as there is room for.
fn read_states(list: &[u8], states: &mut [u8]) -> usize
    ensures { Put states.old 0 (take (length states.old) (states_of list.now)) states.new result }
{
    if list.is_empty() {
        return 0;
    }
    let mut count = 0;
    let mut n = 0;
    for &b in list {
        count = keep(states, count, n, is_comma(b));
        n = grow(n, b);
    }
    keep(states, count, n, true)
}

// The bytes of a part; a part that does not fit has none. So there is no `requires`.
#[tactic(auto, unfolding(crate::specs::States::part_of))]
fn cut(text: &[u8], part: Part) -> &[u8]
    ensures { result.now ≡ part_of part text.now }
{
    text.get(part.from..part.upto).unwrap_or(&[])
}

// The states of the list that stands there in the text, at the buffer's start; the answer is how many, at most as many as the buffer has bytes.
pub fn states_at(text: &[u8], part: Part, states: &mut [u8]) -> usize
    ensures states { Put states.old 0 (take (length states.old) (states_of (part_of part text.now))) states.new result }
    ensures count { IsPrefixLen result states.new }
{
    read_states(cut(text, part), states)
}
