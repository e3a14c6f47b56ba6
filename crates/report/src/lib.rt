// The program's lines of output. A line grows text by text: `Put` says what each text makes of it, and `puts` (writing/specs/Put) that two of them are one.
#![tactic(auto)]

mod pieces;
mod run;

ghost use Rattle.std.specs.Prelude.{◌≡◌, ◌+◌, ◌≤◌, length};
ghost use Rattle.io.specs.Counts.{IsPrefixLen};
ghost use Rattle.report.specs.Text.{decimal, word, shown_text, refused_text, start_text, lamp_text, no_run_text};
ghost use Rattle.report.specs.Line.{PutOn, line_of};

use crate::pieces::{put_decimal, put_kind};
use answers::{Lamp, Refusal, Verdict};
pub use run::run_line;
use writing::put_text;

// A text of `len` bytes, and zeros behind it.
#[derive(Clone, Copy)]
pub struct Line {
    pub len: usize,
    pub bytes: [u8; 70],
}

impl Line {
    pub const EMPTY: Line = Line {
        len: 0,
        bytes: [0; 70],
    };
}

fn put(line: Line, text: &[u8]) -> Line
    requires { line.len + length text.now ≤ 70 }
    ensures { PutOn line text.now result }
{
    let mut bytes = line.bytes;
    let len = put_text(&mut bytes, line.len, text);
    Line { len, bytes }
}

fn put_number(line: Line, n: u64) -> Line
    requires { line.len + 20 ≤ 70 }
    ensures text { PutOn line (decimal n) result }
    ensures bound { result.len ≤ line.len + 20 }
{
    let mut bytes = line.bytes;
    let len = put_decimal(&mut bytes, line.len, n);
    Line { len, bytes }
}

fn put_word(line: Line, verdict: Verdict) -> Line
    requires { line.len + 12 ≤ 70 }
    ensures text { PutOn line (word verdict) result }
    ensures bound { result.len ≤ line.len + 12 }
{
    match verdict {
        Verdict::Inconclusive => put(line, b"inconclusive"),
        Verdict::True => put(line, b"true"),
        Verdict::False => put(line, b"false"),
        Verdict::OutOfModel => put(line, b"out-of-model"),
    }
}

// ` verdict=WORD left=L` and LF: at most 48 bytes.
fn put_lamp(line: Line, lamp: Lamp) -> Line
    requires { line.len + 48 ≤ 70 }
    ensures text { PutOn line (shown_text lamp) result }
{
    let a = put(line, b" verdict=");
    let b = put_word(a, lamp.verdict);
    let c = put(b, b" left=");
    let d = put_number(c, lamp.left as u64);
    put(d, b"\n")
}

// `refused=N place=P` and LF: at most 56 bytes.
fn put_refusal(line: Line, refusal: Refusal) -> Line
    requires { line.len + 56 ≤ 70 }
    ensures text { PutOn line (refused_text refusal) result }
{
    let a = put(line, b"refused=");
    let b = put_number(a, u64::from(refusal.kind.number()));
    let c = put(b, b" place=");
    let d = put_number(c, refusal.place as u64);
    put(d, b"\n")
}

// `refused=N place=P` and LF.
pub fn refused_line(refusal: Refusal) -> Line
    ensures text { result ≡ line_of (refused_text refusal) }
    ensures room { IsPrefixLen result.len result.bytes }
{
    put_refusal(Line::EMPTY, refusal)
}

// `start verdict=WORD left=L` and LF: at most 53 bytes.
pub fn start_line(lamp: Lamp) -> Line
    ensures text { result ≡ line_of (start_text lamp) }
    ensures room { IsPrefixLen result.len result.bytes }
{
    let a = put(Line::EMPTY, b"start");
    put_lamp(a, lamp)
}

// `n=N verdict=WORD left=L` and LF: at most 70 bytes.
pub fn lamp_line(n: usize, lamp: Lamp) -> Line
    ensures text { result ≡ line_of (lamp_text n lamp) }
    ensures room { IsPrefixLen result.len result.bytes }
{
    let a = put(Line::EMPTY, b"n=");
    let b = put_number(a, n as u64);
    put_lamp(b, lamp)
}

// `keeps refused=N place=P` and LF: why no run of the kind is shown. At most 63 bytes.
pub fn no_run_line(keeps: bool, refusal: Refusal) -> Line
    ensures text { result ≡ line_of (no_run_text keeps refusal) }
    ensures room { IsPrefixLen result.len result.bytes }
{
    let mut bytes = [0u8; 70];
    let len = put_kind(&mut bytes, 0, keeps);
    let a = put(Line { len, bytes }, b" ");
    put_refusal(a, refusal)
}
