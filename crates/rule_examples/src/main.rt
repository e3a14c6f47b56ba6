// Rule texts (01, Marked examples) and values, and bad ones: a line for each, with what was asked and what came. The file `stdout` has the answers worked out by hand from 01.
//
// A case is a line of the input. Without a `#` it is a text for plant W: how operators bind and group; what is not of the grammar; propositions that the table has
// not, and sizes, 5 before 6, 6 before 7, 7 before 8. Otherwise it has fields with `#` between them: what is asked, in words; a letter; and for
//   `t` (a text for another table than W): props, start, the text;
//   `v` (a value: whether it is a rule's for so many propositions, and its text): props, its length, its nodes;
//   `b` (a value to print into a buffer, which is shown afterwards): what is in the buffer, the value's length, its nodes.
// Texts, nodes and buffers are written as `cases::bytes_of` reads them.
#![tactic(auto)]

mod value;

use answers::Refusal;
use cases::{field, number};
use plant::Plant;
use program::said::{put, put_decimal};
use syntax::Rule;

fn tell<P: Print>(to: &P, refusal: Refusal) {
    put(to, b"refused=");
    put_decimal(to, u64::from(refusal.kind.number()));
    put(to, b" place=");
    put_decimal(to, refusal.place as u64);
    put(to, b"\n");
}

// The first n bytes, in a line.
fn show<P: Print>(to: &P, text: &[u8], n: usize) {
    if n <= text.len() {
        put(to, &text[..n]);
        put(to, b"\n");
    }
}

fn print<P: Print>(to: &P, rule: Rule, buffer: &mut [u8]) {
    match rule::print_rule(rule, buffer) {
        Ok(text) => show(to, buffer, text.bytes),
        Err(refusal) => tell(to, refusal),
    }
}

// Reads a text for plant W, but for what the case changes, and prints the rule that it gives.
fn read<P: Print>(to: &P, props: usize, start: u64, text: &[u8]) {
    let plant = Plant {
        props,
        states: 3,
        start,
        just: 0,
    };
    let reading = rule::read_rule(plant, &[], &[0, 1, 2], &[3, 6, 5], text);
    let mut buffer = [0u8; 109];
    match reading.outcome {
        Ok(()) => print(to, reading.rule, &mut buffer),
        Err(refusal) => tell(to, refusal),
    }
}

fn text_case<P: Print>(to: &P, line: &[u8]) {
    let mut text = [0u8; 1024];
    let n = cases::bytes_of(field(line, b'#', 4), &mut text);
    read(
        to,
        number(field(line, b'#', 2)),
        number(field(line, b'#', 3)) as u64,
        &text[..n],
    );
}

fn value_case<P: Print>(to: &P, line: &[u8]) {
    let rule = value::value(number(field(line, b'#', 3)), field(line, b'#', 4));
    if rule_value::is_valid(rule, number(field(line, b'#', 2))) {
        put(to, b"a rule, ");
    } else {
        put(to, b"no rule, ");
    }
    let mut buffer = [0u8; 109];
    print(to, rule, &mut buffer);
}

fn buffer_case<P: Print>(to: &P, line: &[u8]) {
    let rule = value::value(number(field(line, b'#', 3)), field(line, b'#', 4));
    let mut buffer = [0u8; 109];
    let n = cases::bytes_of(field(line, b'#', 2), &mut buffer);
    into(to, rule, &mut buffer[..n]);
}

fn into<P: Print>(to: &P, rule: Rule, buffer: &mut [u8]) {
    print(to, rule, buffer);
    show(to, buffer, buffer.len());
}

fn letter(line: &[u8]) -> u8 {
    field(line, b'#', 1).first().copied().unwrap_or(0)
}

fn case<P: Print>(to: &P, line: &[u8]) {
    put(to, field(line, b'#', 0));
    put(to, b": ");
    match letter(line) {
        b't' => text_case(to, line),
        b'v' => value_case(to, line),
        b'b' => buffer_case(to, line),
        _ => read(to, 2, 1, line),
    }
}

fn each<P: Print>(to: &P, input: &[u8]) {
    for line in input.split_inclusive(|byte| *byte == b'\n') {
        case(to, line.strip_suffix(b"\n").unwrap_or(line));
    }
}

fn main(rt: HostRuntime) {
    let mut input = [0u8; 65536];
    let given = files::fill(&mut rt.stdin(), &mut input);
    each(&rt, &input[..given.len]);
}
