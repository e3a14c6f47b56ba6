// The rows of a machine, written twice: for a person and for a C compiler. Each column is of one width, so where a number goes follows from which one it is.
ghost use Rattle.std.specs.Prelude.{◌+◌, ◌*◌, ◌<◌, ◌≤◌, length};

use fixed_machine::Size;
use program::said::{put, put_decimal};
use writing::put_text;

// The bytes of the longest line: a row of 54 cells for a person.
const LINE: usize = 347;

// Where the cells begin on a person's line, behind the row, the verdict and what is left.
const CELLS: usize = 22;

pub fn show_machine<P: Print>(to: &P, machine: &[u8], size: Size)
    requires { (size.rows * size.bytes ≤ length machine.now) × (2 ≤ size.bytes) × (size.bytes ≤ 56) }
{
    show_both(
        to,
        &machine[..size.rows * size.bytes],
        size.rows,
        size.bytes,
    );
}

fn show_both<P: Print>(to: &P, machine: &[u8], rows: usize, bytes: usize)
    requires { (2 ≤ bytes) × (bytes ≤ 56) }
{
    put(
        to,
        b"/* The rule as a fixed machine. Row 0 is the opening. A cell is the next row, after the event see/val/new above it.\n\n",
    );
    show_head(to, bytes - 2);
    show_rows(to, machine, bytes);
    put(to, b"*/\nstatic const unsigned char jug_machine_bytes[");
    show_number(to, rows);
    put(to, b"][");
    show_number(to, bytes);
    put(to, b"] = {\n");
    show_bytes(to, machine, bytes);
    put(to, b"};\n");
}

fn show_start<P: Print>(to: &P, text: &[u8], len: usize)
    requires { len ≤ length text.now }
{
    put(to, &text[..len]);
}

fn show_number<P: Print>(to: &P, n: usize) {
    put_decimal(to, n as u64);
}

// The last digit of a number.
fn digit(n: usize) -> u8 {
    (n % 10) as u8 + b'0'
}

// The last digit of what a number has of such parts, and a space where it has none.
fn digit_from(n: usize, part: usize) -> u8
    requires { 0 < part }
{
    if n < part { b' ' } else { digit(n / part) }
}

// Four bytes: one before the number, and the number at the right of three.
fn put_cell(line: &mut [u8], at: usize, before: u8, n: usize)
    requires { at + 4 ≤ length line.old }
{
    let cell = [before, digit_from(n, 100), digit_from(n, 10), digit(n)];
    put_text(line, at, &cell);
}

// What the columns are: of each event what is seen, what of that is on, and whether it is a restart.
fn show_head<P: Print>(to: &P, columns: usize)
    requires { columns ≤ 54 }
{
    let mut line = [b' '; LINE];
    put_text(&mut line, 0, b" row verdict      left");
    put_names(&mut line, columns);
    let end = CELLS + 6 * columns;
    put_text(&mut line, end, b"\n");
    show_start(to, &line, end + 1);
}

fn put_names(line: &mut [u8], columns: usize)
    requires { (columns ≤ 54) × (347 ≤ length line.old) }
{
    for k in 0..columns {
        put_name(line, CELLS + 6 * k, k);
    }
}

fn put_name(line: &mut [u8], at: usize, k: usize)
    requires { (k < 54) × (at + 6 ≤ length line.old) }
{
    let event = columns::event_at(k);
    let see = digit(usize::from(event.see));
    let val = digit(usize::from(event.val));
    let name = [b' ', see, b'/', val, b'/', digit(k % 2)];
    put_text(line, at, &name);
}

// A line for each whole row.
fn show_rows<P: Print>(to: &P, machine: &[u8], bytes: usize)
    requires { (2 ≤ bytes) × (bytes ≤ 56) }
{
    for (row, line) in machine.chunks_exact(bytes).enumerate() {
        show_row(to, row, line);
    }
}

fn show_row<P: Print>(to: &P, row: usize, bytes: &[u8])
    requires { (2 ≤ length bytes.now) × (length bytes.now ≤ 56) }
{
    let mut line = [b' '; LINE];
    put_cell(&mut line, 0, b' ', row);
    put_word(&mut line, 5, bytes[0]);
    put_cell(&mut line, 18, b' ', usize::from(bytes[1]));
    put_cells(&mut line, bytes);
    let end = 10 + 6 * bytes.len();
    put_text(&mut line, end, b"\n");
    show_start(to, &line, end + 1);
}

// The verdict of a number.
fn put_word(line: &mut [u8], at: usize, verdict: u8)
    requires { at + 12 ≤ length line.old }
{
    let word: &[u8] = match verdict {
        0 => b"inconclusive",
        1 => b"true",
        2 => b"false",
        _ => b"out-of-model",
    };
    put_text(line, at, word);
}

// The cells stand behind two bytes, each under its event.
fn put_cells(line: &mut [u8], bytes: &[u8])
    requires { (length bytes.now ≤ 56) × (347 ≤ length line.old) }
{
    for (k, &cell) in bytes.iter().enumerate().skip(2) {
        put_cell(line, 12 + 6 * k, b' ', usize::from(cell));
    }
}

// A line of the array for each whole row.
fn show_bytes<P: Print>(to: &P, machine: &[u8], bytes: usize)
    requires { (2 ≤ bytes) × (bytes ≤ 56) }
{
    for line in machine.chunks_exact(bytes) {
        show_line(to, line);
    }
}

fn show_line<P: Print>(to: &P, bytes: &[u8])
    requires { length bytes.now ≤ 56 }
{
    let mut line = [b' '; LINE];
    put_bytes(&mut line, bytes);
    put_text(&mut line, 4, b"{");
    let end = 4 + 4 * bytes.len();
    put_text(&mut line, end, b"},\n");
    show_start(to, &line, end + 3);
}

// A comma before each; the first gives way to `{`.
fn put_bytes(line: &mut [u8], bytes: &[u8])
    requires { (length bytes.now ≤ 56) × (347 ≤ length line.old) }
{
    for (k, &byte) in bytes.iter().enumerate() {
        put_cell(line, 4 + 4 * k, b',', usize::from(byte));
    }
}
