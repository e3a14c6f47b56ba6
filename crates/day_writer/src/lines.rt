// The lines of a day sheet, put one behind the other. Each answer is where the text ends.
ghost use Rattle.std.specs.Prelude.{◌≡◌, ◌+◌, ◌≤◌, length};
ghost use Rattle.writing.specs.Put.{Put};
ghost use Rattle.report.specs.Text.{decimal, word};
ghost use Rattle.day_writer.specs.Text.{decided_text, field_text, end_text, line_text, lines_text};

use answers::Verdict;
use stretches::{DaySheet, Stretch};
use writing::put_text;

fn put_number(buffer: &mut [u8], at: usize, n: u64) -> usize
    requires { at + 20 ≤ length buffer.old }
    ensures text { Put buffer.old at (decimal n) buffer.new result }
    ensures bound { result ≤ at + 20 }
{
    let mut text = [0u8; 20];
    let k = io::decimal(n, &mut text);
    put_text(buffer, at, &text[..k])
}

fn put_word(buffer: &mut [u8], at: usize, verdict: Verdict) -> usize
    requires { at + 12 ≤ length buffer.old }
    ensures text { Put buffer.old at (word verdict) buffer.new result }
    ensures bound { result ≤ at + 12 }
{
    match verdict {
        Verdict::Inconclusive => put_text(buffer, at, b"inconclusive"),
        Verdict::True => put_text(buffer, at, b"true"),
        Verdict::False => put_text(buffer, at, b"false"),
        Verdict::OutOfModel => put_text(buffer, at, b"out-of-model"),
    }
}

// A number of 32 bits, and a dash for any other: it is none.
fn put_decided(buffer: &mut [u8], at: usize, decided: u64) -> usize
    requires { at + 20 ≤ length buffer.old }
    ensures text { Put buffer.old at (decided_text decided) buffer.new result }
    ensures bound { result ≤ at + 20 }
{
    if decided < Stretch::NONE {
        return put_number(buffer, at, decided);
    }
    put_text(buffer, at, b"-")
}

// A key and a number.
fn put_field(buffer: &mut [u8], at: usize, key: &[u8], n: u64) -> usize
    requires { at + length key.now + 20 ≤ length buffer.old }
    ensures text { Put buffer.old at (field_text key.now n) buffer.new result }
    ensures bound { result ≤ at + length key.now + 20 }
{
    let behind = put_text(buffer, at, key);
    put_number(buffer, behind, n)
}

// ` verdict=WORD decided=NUMBER` and LF: at most 51 bytes.
fn put_end(buffer: &mut [u8], at: usize, verdict: Verdict, decided: u64) -> usize
    requires { at + 51 ≤ length buffer.old }
    ensures text { Put buffer.old at (end_text verdict decided) buffer.new result }
    ensures bound { result ≤ at + 51 }
{
    let a = put_text(buffer, at, b" verdict=");
    let b = put_word(buffer, a, verdict);
    let c = put_text(buffer, b, b" decided=");
    let d = put_decided(buffer, c, decided);
    put_text(buffer, d, b"\n")
}

// A line has at most 105 bytes.
fn put_line(buffer: &mut [u8], at: usize, line: Stretch) -> usize
    requires { at + 105 ≤ length buffer.old }
    ensures text { Put buffer.old at (line_text line) buffer.new result }
    ensures bound { result ≤ at + 105 }
{
    let a = put_field(buffer, at, b"first=", line.first);
    let b = put_field(buffer, a, b" events=", line.events);
    put_end(buffer, b, line.verdict, line.decided)
}

// All lines that the sheet counts, from the buffer's start on.
pub fn put_lines(buffer: &mut [u8], sheet: DaySheet) -> usize
    requires { (sheet.count ≤ 64) × (length buffer.old ≡ 6720) }
    ensures { Put buffer.old 0 (lines_text sheet.lines sheet.count) buffer.new result }
{
    let mut end = 0;
    for line in &sheet.lines[..sheet.count] {
        end = put_line(buffer, end, *line);
    }
    end
}
