// For the benches: as often as turns.txt says, a table and a rule are prepared, a log is run, and witnesses are asked for; what was found
// is written as digests.
// No time is measured here: bench/run takes that of whole runs. A file that is refused gives the empty table, rule or log, and so another digest.
#![tactic(auto)]

ghost use Rattle.std.specs.Prelude.{◌+◌, ◌<◌, ◌≤◌};

use files::File;
use pairs::Pairs;
use plant::Plant;
use program::said::{put, put_decimal};
use sides::Monitor;
use std::rt::Files;
use syntax::Rule;
use walk::Lengths;

#[tactic(auto, using(opened::specs::Lent::lent))]
fn main(rt: HostRuntime) {
    let mut text = [0u8; File::PLANT];
    let file = files::read_file(&rt, b"plant.txt", &mut text);
    let read = plant::read_table(&text[..file.len]);
    let table = read.table;
    let plant = table.plant;
    with_table(
        &rt,
        plant,
        &table.fair[..plant.just],
        &table.label[..plant.states],
        &table.next[..plant.states],
    );
}

fn with_table<R: Files + Print>(rt: &R, plant: Plant, fair: &[u64], label: &[u16], next: &[u64]) {
    let mut text = [0u8; File::RULE];
    let file = files::read_file(rt, b"rule.txt", &mut text);
    let rule = rule::read_rule(plant, fair, label, next, &text[..file.len]).rule;
    let mut turns = [0u8; 47];
    files::read_file(rt, b"turns.txt", &mut turns);
    often(
        rt,
        number(&turns, 9),
        || digest(live::prepare(plant, fair, label, next, rule).live),
    );
    let live = live::prepare(plant, fair, label, next, rule).live;
    with_rule(rt, number(&turns, 18), plant, fair, label, next, rule, live);
    let monitor = monitor::open(plant, fair, label, next, rule, live).monitor;
    often(
        rt,
        number(&turns, 30),
        || ask(plant, fair, label, next, rule, monitor, true),
    );
    often(
        rt,
        number(&turns, 43),
        || ask(plant, fair, label, next, rule, monitor, false),
    );
}

// A number made so often: all of them together are written.
fn often<P: Print, F: Fn() -> u64>(to: &P, turns: usize, made: F)
    requires { F.IsAlwaysCallable made }
{
    let mut total: u64 = 0;
    for _ in 0..turns {
        total = total.wrapping_add(made());
    }
    put_decimal(to, total);
    put(to, b"\n");
}

// turns.txt is `prepares=DDD logs=DDD keeping=DDD breaking=DDD` and LF: three digits from `at` on.
fn number(text: &[u8; 47], at: usize) -> usize
    requires { at + 3 ≤ 47 }
{
    digit(text[at]) * 100 + digit(text[at + 1]) * 10 + digit(text[at + 2])
}

fn digit(character: u8) -> usize
    ensures { result < 10 }
{
    usize::from(character % 16 % 10)
}

fn with_rule<R: Files + Print>(
    rt: &R,
    turns: usize,
    plant: Plant,
    fair: &[u64],
    label: &[u16],
    next: &[u64],
    rule: Rule,
    live: Pairs,
) {
    let mut text = [0u8; File::LOG];
    let file = files::read_file(rt, b"log.txt", &mut text);
    let log = &text[..file.len];
    often(rt, turns, || {
        let monitor = run_log(plant, fair, label, next, rule, live, log);
        digest(monitor.keeps).wrapping_add(digest(monitor.breaks))
    });
}

// Where the log ends.
fn run_log(
    plant: Plant,
    fair: &[u64],
    label: &[u16],
    next: &[u64],
    rule: Rule,
    live: Pairs,
    text: &[u8],
) -> Monitor {
    let start = monitor::open(plant, fair, label, next, rule, live).monitor;
    let lines = text.len() / event_log::line_bytes(text, plant.props);
    (0..lines).fold(start, |now, n| {
        let event = event_log::event_at(text, n, plant.props);
        monitor::step(plant, fair, label, next, rule, live, now, event).monitor
    })
}

// A number for a set of pairs: each word counts twice as much as the one behind it.
fn digest(set: Pairs) -> u64 {
    set.words
        .iter()
        .fold(0, |total, word| twice_and(total, *word))
}

fn twice_and(total: u64, word: u64) -> u64 {
    total.wrapping_add(total).wrapping_add(word)
}

// A number for a witness: 0 where there is none.
fn ask(
    plant: Plant,
    fair: &[u64],
    label: &[u16],
    next: &[u64],
    rule: Rule,
    monitor: Monitor,
    keeps: bool,
) -> u64 {
    let mut buffer = [0u8; Lengths::ROOM];
    match witness::witness(plant, fair, label, next, rule, monitor, keeps, &mut buffer) {
        Err(_) => 0,
        Ok(lengths) => digest_states(lengths.stem, lengths.turn, &buffer),
    }
}

// As many bytes as the stem and the loop have states; the stem's length counts too.
fn digest_states(stem: usize, turn: usize, bytes: &[u8; Lengths::ROOM]) -> u64 {
    bytes.iter().take(stem.wrapping_add(turn)).fold(
        stem as u64,
        |total, byte| twice_and(total, u64::from(*byte)),
    )
}
