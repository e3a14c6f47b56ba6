// The cases of the input, each a letter, a text and `#`: `t` a table's text; `T` the same, with the table shown; `l` a log's for 8 propositions, `L` for 9; `p` and `c` a
// table's text damaged in each way: its prefixes, each byte changed; `q` and `d` a log's. `h` a table handed in, by props, states, start and just; `e` an event, by see,
// val and props: numbers with a space between two.
ghost use Rattle.std.specs.Prelude.{◌≤◌};

use crate::show;
use crate::show::{digits, end, put, tell};
use answers::Refusal;

// The outcome of a text, a log's or a table's.
fn outcome_of(text: &[u8], is_log: bool) -> Result<(), Refusal> {
    if is_log {
        event_log::read_log(text, 8).outcome
    } else {
        plant::read_table(text).outcome
    }
}

fn one<P: Print>(to: &P, text: &[u8]) {
    tell(to, outcome_of(text, false));
    end(to);
}

fn prefixes<P: Print>(to: &P, text: &[u8], is_log: bool) {
    for n in 0..text.len() {
        digits(to, n);
        tell(to, outcome_of(&text[..n], is_log));
        end(to);
    }
}

// A copy of the text's first 256 bytes, with one byte put in place of another.
fn with_byte(text: &[u8], at: usize, byte: u8) -> [u8; 256] {
    let mut copy = [0; 256];
    let n = text.len().min(256);
    copy[..n].copy_from_slice(&text[..n]);
    if at < n {
        copy[at] = byte;
    }
    copy
}

fn changed<P: Print>(to: &P, text: &[u8], at: usize, byte: u8, is_log: bool) {
    let copy = with_byte(text, at, byte);
    let n = text.len().min(256);
    tell(to, outcome_of(&copy[..n], is_log));
}

// Each byte changed to the digit 9, and to one that stands in no text: the letter g, the byte 0, CR and the byte 255 in turn.
fn changes<P: Print>(to: &P, text: &[u8], is_log: bool) {
    let strange = [b'g', 0, b'\r', 255];
    for at in 0..text.len() {
        digits(to, at);
        changed(to, text, at, b'9', is_log);
        changed(to, text, at, strange[at % 4], is_log);
        end(to);
    }
}

fn case<P: Print>(to: &P, kind: u8, text: &[u8]) {
    put(to, b"-- ");
    put(to, text);
    end(to);
    match kind {
        b't' => one(to, text),
        b'T' => show::table(to, text),
        b'l' => show::log(to, text, 8),
        b'L' => show::log(to, text, 9),
        b'p' => prefixes(to, text, false),
        b'c' => changes(to, text, false),
        b'q' => prefixes(to, text, true),
        b'd' => changes(to, text, true),
        b'h' => show::handed(to, text),
        b'e' => show::legal(to, text),
        _ => put(to, b"no case\n"),
    }
}

pub fn each<P: Print>(to: &P, input: &[u8]) {
    let mut rest = input;
    while let Some((&kind, behind)) = rest.split_first() {
        let end = behind
            .iter()
            .position(|&byte| byte == b'#')
            .unwrap_or(behind.len());
        case(to, kind, &behind[..end]);
        rest = behind.get(end + 1..).unwrap_or(&[]);
    }
}
