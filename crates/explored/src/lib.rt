// The monitor states that events lead to from the opening, each with a row, numbered as first reached. The states, 130 words each, and the cells behind 256 of
// them share one lent slice, since two parts of one slice cannot be lent at once.
#![tactic(auto)]

ghost use Rattle.std.specs.Prelude.{◌≡◌, ◌+◌, ◌*◌, ◌/◌, ◌%◌, ◌<◌, ◌≤◌, length};
ghost use Rattle.words.specs.Below.{first_below};
ghost use Rattle.sides.specs.Sides.{advanced_by};
ghost use Rattle.columns.specs.Columns.{event_at};
ghost use Rattle.joined.specs.Written.{written};
ghost use Rattle.explored.specs.Blocks.{block_at, stored};
ghost use Rattle.explored.specs.States.{digest_to, word_at, block_of, words_from, monitor_in, lamp_number, answer_of, same_block, Answer};
ghost use Rattle.explored.specs.Led.{Led};

use advance::advance;
use answers::Lamp;
use narrowed::narrowed;
use pairs::Pairs;
use sides::Monitor;
use std::array;
use ways::Ways;

// Where the cells begin: behind 256 states.
pub const CELLS: usize = 33280;

// A number that mostly differs where words do, so that few states are compared word by word.
#[tactic(auto, using(crate::proofs::Folded::digest_by_fold))]
fn digest(words: &[u64; 64], from: u64) -> u64
    ensures { result ≡ digest_to from words.now 64 }
{
    words.iter().fold(from, |made, word| {
        made % 72057594037927936 * 31 + word % 4294967296 + word / 4294967296
    })
}

// Word i of a state.
fn word_at(digest: u64, seen: bool, keeps: &[u64; 64], breaks: &[u64; 64], i: usize) -> u64
    ensures { result ≡ word_at digest seen keeps.now breaks.now i }
{
    match i {
        0 => digest,
        1 => u64::from(seen),
        2..=65 => keeps[i - 2],
        _ => words::entry(breaks, i - 66),
    }
}

// A monitor as words.
fn block_of(monitor: Monitor) -> [u64; 130]
    ensures { result ≡ block_of monitor }
{
    let of_keeps = digest(&monitor.keeps.words, u64::from(monitor.seen));
    let of_both = digest(&monitor.breaks.words, of_keeps);
    array::from_fn(|i| {
        word_at(
            of_both,
            monitor.seen,
            &monitor.keeps.words,
            &monitor.breaks.words,
            i,
        )
    })
}

// The 64 words from a place on.
fn words_from(room: &[u64], at: usize) -> [u64; 64]
    requires { at ≤ 33280 }
    ensures { result ≡ words_from room.now at }
{
    array::from_fn(|v| words::entry(room, at + v))
}

// The monitor of a row.
fn load(room: &[u64], row: usize) -> Monitor
    requires { row < 256 }
    ensures { result ≡ monitor_in (block_at 130 room.now row) }
{
    let at = row * 130;
    Monitor {
        seen: words::entry(room, at + 1) != 0,
        keeps: Pairs {
            words: words_from(room, at + 2),
        },
        breaks: Pairs {
            words: words_from(room, at + 66),
        },
        expected: 0,
    }
}

// Whether a row stands for a state. The first word is the digest.
fn same(room: &[u64], row: usize, state: &[u64; 130]) -> bool
    requires { row < 256 }
    ensures { result ≡ same_block room.now state.now row }
{
    let at = row * 130;
    (0..130).all(|i| words::entry(room, at + i) == state[i])
}

// The first of the rows that stands for a state; their number where none does.
fn find(room: &[u64], rows: usize, state: &[u64; 130]) -> usize
    requires { rows ≤ 256 }
    ensures { (result ≡ first_below rows (same_block room.now state.now)) × (result ≤ rows) }
{
    (0..rows).find(|&r| same(room, r, state)).unwrap_or(rows)
}

// A state stored in a row.
fn store(room: &mut [u64], row: usize, state: &[u64; 130])
    requires { (row < 256) × (33280 ≤ length room.old) }
    ensures { room.new ≡ stored 130 row state.now 130 room.old }
{
    let at = row * 130;
    room[at..at + 130].copy_from_slice(state);
}

// The monitor after the event of a place. The first column sees nothing: there a row's moves are made, and for each other column what they led to is narrowed.
fn next_at<'a>(
    label: &[u16],
    next: &[u64],
    leave: &'a [u64; 1024],
    enter: &'a [u64; 1024],
    holds: &'a [u64; 64],
    count: usize,
    live: &[u64; 64],
    room: &[u64],
    c: usize,
    place: usize,
) -> Monitor
    requires { ((length label.now ≤ 64) × (count ≤ 64)) × (1 ≤ c) × (c ≤ 54) × (place < 256 * c)
        × Led label.now next.now leave.now enter.now holds.now count live.now c room.now place }
    ensures { result ≡ advanced_by label.now next.now leave.now enter.now holds.now count live.now
        (monitor_in (block_at 130 room.now (place / c))) (event_at (place % c)) }
{
    let column = place % c;
    let from = load(room, place / c);
    let event = columns::event_at(column);
    if from.seen && 0 < column {
        let first = words::entry(room, CELLS + (place - column)) as usize;
        let wide = load(room, first);
        return narrowed(label, holds, live, wide, event);
    }
    advance(label, next, leave, enter, holds, count, live, from, event)
}

// The rows reached from the state in row 0 and their cells; 0 where there are more than 256. A state that was found is stored where it stands already.
fn fill(label: &[u16], next: &[u64], ways: Ways, live: Pairs, room: &mut [u64], c: usize) -> usize
    requires { ((length label.now ≤ 64) × (ways.count ≤ 64)) × (1 ≤ c) × (c ≤ 54) × (33280 + 256 * c ≤ length room.old) }
    ensures { Answer label.now next.now ways live.words (block_at 130 room.old 0) c room.new result }
{
    let mut rows: usize = 1;
    let mut end = c;
    let mut place = 0;
    while place < end {
        let made = next_at(
            label,
            next,
            &ways.leave,
            &ways.enter,
            &ways.holds,
            ways.count,
            &live.words,
            room,
            c,
            place,
        );
        let state = block_of(made);
        let row = find(room, rows, &state);
        if row == 256 {
            return 0;
        }
        store(room, row, &state);
        room[CELLS + place] = row as u64;
        if row == rows {
            rows += 1;
            end += c;
        }
        place += 1;
    }
    rows
}

// The rows reached from the opening and their cells; 0 where there are more than 256.
pub fn explore(
    label: &[u16],
    next: &[u64],
    ways: Ways,
    live: Pairs,
    first: Monitor,
    c: usize,
    room: &mut [u64],
) -> usize
    requires { ((length label.now ≤ 64) × (ways.count ≤ 64)) × (1 ≤ c) × (c ≤ 54) × (33280 + 256 * c ≤ length room.old) }
    ensures { Answer label.now next.now ways live.words (block_of first) c room.new result }
{
    let state = block_of(first);
    store(room, 0, &state);
    fill(label, next, ways, live, room, c)
}

// What the lamp shows, as one number.
fn lamp_number(lamp: Lamp) -> u64
    requires { lamp.left ≤ 64 }
    ensures { result ≡ lamp_number lamp }
{
    u64::from(lamp.verdict.number()) * 256 + lamp.left as u64
}

// What the lamp shows in each of n rows.
pub fn read_outputs(room: &[u64], n: usize, outputs: &mut [u64])
    requires { (n ≤ 256) × (n ≤ length outputs.old) }
    ensures { outputs.new ≡ written n (λ r. answer_of (block_at 130 room.now r)) outputs.old }
{
    for r in 0..n {
        outputs[r] = lamp_number(advance::lamp(load(room, r)));
    }
}
