// How a run goes on, as one line. It may have 49,151 states, so it is written into a lent buffer.
ghost use Rattle.std.specs.Prelude.{◌+◌, ◌*◌, ◌≤◌, length, take, drop};
ghost use Rattle.io.specs.Counts.{IsPrefixLen};
ghost use Rattle.report.specs.Text.{state_text, states_text, part_text, run_text};
ghost use Rattle.report.specs.Line.{Put};

use crate::Line;
use crate::pieces::{put_decimal, put_kind};
use writing::put_text;

impl Line {
    // The bytes of the longest line of a run: four for each of 49,151 states, and 36 around them.
    pub const RUN: usize = 196640;
}

// A state, behind a comma unless it is the first.
fn put_state(buffer: &mut [u8], at: usize, first: bool, state: u8) -> usize
    requires { at + 21 ≤ length buffer.old }
    ensures text { Put buffer.old at (state_text first state) buffer.new result }
    ensures bound { result ≤ at + 4 }
{
    if first {
        return put_decimal(buffer, at, u64::from(state));
    }
    let behind = put_text(buffer, at, b",");
    put_decimal(buffer, behind, u64::from(state))
}

fn put_states(buffer: &mut [u8], at: usize, states: &[u8]) -> usize
    requires { at + 4 * length states.now + 17 ≤ length buffer.old }
    ensures text { Put buffer.old at (states_text (length states.now) states.now) buffer.new result }
    ensures bound { result ≤ at + 4 * length states.now }
{
    let mut end = at;
    for (i, &state) in states.iter().enumerate() {
        end = put_state(buffer, end, i == 0, state);
    }
    end
}

// The states behind their key.
fn put_part(buffer: &mut [u8], at: usize, key: &[u8], states: &[u8]) -> usize
    requires { at + length key.now + 4 * length states.now + 17 ≤ length buffer.old }
    ensures text { Put buffer.old at (part_text key.now states.now) buffer.new result }
    ensures bound { result ≤ at + length key.now + 4 * length states.now }
{
    let behind = put_text(buffer, at, key);
    put_states(buffer, behind, states)
}

// `keeps stem=2,3 loop=1,0` and LF; the loop's states stand behind those of the stem.
pub fn run_line(buffer: &mut [u8], keeps: bool, states: &[u8], stem: usize) -> usize
    requires { (stem ≤ length states.now) × (4 * length states.now + 36 ≤ length buffer.old) }
    ensures text { Put buffer.old 0 (run_text keeps (take stem states.now) (drop stem states.now)) buffer.new result }
    ensures room { IsPrefixLen result buffer.new }
{
    let a = put_kind(buffer, 0, keeps);
    let b = put_part(buffer, a, b" stem=", &states[..stem]);
    let c = put_part(buffer, b, b" loop=", &states[stem..]);
    put_text(buffer, c, b"\n")
}
