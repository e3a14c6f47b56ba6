// The lines of a table's text, put one behind the other. Each answer is where the line ends.
ghost use Rattle.std.specs.Prelude.{◌≡◌, ◌++◌, ◌+◌, ◌≤◌, ◌<◌, length};
ghost use Rattle.writing.specs.Put.{Put};
ghost use Rattle.text.specs.Slot.{word, digit_byte};
ghost use Rattle.text.specs.Number.{hex_slots, count_slots};
ghost use Rattle.text.specs.Written.{text_of};
ghost use Rattle.plant.specs.Table.{plant_of};
ghost use Rattle.plant.specs.Text.{lf};
ghost use Rattle.plant.specs.Written.{line, lines_below, table_text};
ghost use Rattle.plant_writer.specs.Pieces.{fair_line, row_line, row_lines, head_slots, Writable};

use plant::Plant;
use writing::{put_byte, put_text};

// The byte of a digit: a small letter from ten on.
#[tactic(auto, unfolding(text::specs::Slot::digit_byte))]
fn digit_byte(v: u64) -> u8
    requires { v < 16 }
    ensures { result ≡ digit_byte v }
{
    if v < 10 {
        v as u8 + b'0'
    } else {
        (v - 10) as u8 + b'a'
    }
}

// A hexadecimal number of so many digits: those of higher weight first.
fn put_hex(buffer: &mut [u8], at: usize, width: usize, n: u64) -> usize
    requires { at + width ≤ length buffer.old }
    ensures { Put buffer.old at (text_of (hex_slots width n)) buffer.new result }
{
    if width == 0 {
        return at;
    }
    let end = put_hex(buffer, at, width - 1, n / 16);
    put_byte(buffer, end, digit_byte(n % 16))
}

// A number below 100 in decimal, with no leading zero, and the byte that ends it.
#[tactic(auto, using(crate::specs::Pieces::one_long, crate::specs::Pieces::two_long, writing::specs::Put::puts, writing::specs::Put::put_length))]
fn put_count(buffer: &mut [u8], at: usize, end: u8, n: usize) -> usize
    requires { (n < 100) × (at + length (count_slots end n) ≤ length buffer.old) }
    ensures { Put buffer.old at (text_of (count_slots end n)) buffer.new result }
{
    if n < 10 {
        let ones = put_byte(buffer, at, n as u8 + b'0');
        return put_byte(buffer, ones, end);
    }
    let tens = put_byte(buffer, at, (n / 10) as u8 + b'0');
    let ones = put_byte(buffer, tens, (n % 10) as u8 + b'0');
    put_byte(buffer, ones, end)
}

// A key, a count and LF.
fn put_count_line(buffer: &mut [u8], at: usize, key: &[u8], n: usize) -> usize
    requires { (n < 100) × (at + length (word key.now ++ count_slots 10 n) ≤ length buffer.old) }
    ensures { Put buffer.old at (text_of (word key.now ++ count_slots 10 n)) buffer.new result }
{
    let behind = put_text(buffer, at, key);
    put_count(buffer, behind, b'\n', n)
}

// Behind a key: a number of so many hexadecimal digits and LF.
fn put_hex_end(buffer: &mut [u8], at: usize, width: usize, n: u64) -> usize
    requires { at + length (hex_slots width n ++ lf) ≤ length buffer.old }
    ensures { Put buffer.old at (text_of (hex_slots width n ++ lf)) buffer.new result }
{
    let end = put_hex(buffer, at, width, n);
    put_byte(buffer, end, b'\n')
}

// A name, a number below 100, `=`, and such a number.
fn put_field(buffer: &mut [u8], at: usize, name: &[u8], k: usize, width: usize, n: u64) -> usize
    requires { (k < 100) × (at + length (line name.now k width n) ≤ length buffer.old) }
    ensures { Put buffer.old at (text_of (line name.now k width n)) buffer.new result }
{
    let named = put_text(buffer, at, name);
    let keyed = put_count(buffer, named, b'=', k);
    put_hex_end(buffer, keyed, width, n)
}

// The lines `j0` and up.
fn put_fair(buffer: &mut [u8], at: usize, fair: &[u64]) -> usize
    requires { (length fair.now < 100) × (at + length (lines_below (length fair.now) (fair_line fair.now)) ≤ length buffer.old) }
    ensures { Put buffer.old at (text_of (lines_below (length fair.now) (fair_line fair.now))) buffer.new result }
{
    let mut end = at;
    for (k, &set) in fair.iter().enumerate() {
        end = put_field(buffer, end, b"j", k, 16, set);
    }
    end
}

// The lines `label` and `next` of a state.
fn put_row(buffer: &mut [u8], at: usize, width: usize, k: usize, label: u16, next: u64) -> usize
    requires { (k < 100) × (at + length (row_line width k label next) ≤ length buffer.old) }
    ensures { Put buffer.old at (text_of (row_line width k label next)) buffer.new result }
{
    let behind = put_field(buffer, at, b"label", k, width, u64::from(label));
    put_field(buffer, behind, b"next", k, 16, next)
}

// The lines of each state, labels of so many digits.
fn put_rows(buffer: &mut [u8], at: usize, width: usize, label: &[u16], next: &[u64]) -> usize
    requires { (length label.now < 100) × (length next.now ≡ length label.now)
        × (at + length (lines_below (length label.now) (row_lines width label.now next.now)) ≤ length buffer.old) }
    ensures { Put buffer.old at (text_of (lines_below (length label.now) (row_lines width label.now next.now))) buffer.new result }
{
    let mut end = at;
    for k in 0..label.len() {
        end = put_row(buffer, end, width, k, label[k], next[k]);
    }
    end
}

// The four lines of counts and of the starting set.
fn put_head(buffer: &mut [u8], at: usize, plant: Plant, just: usize) -> usize
    requires { (plant.props < 100) × (plant.states < 100) × (just < 100) × (at + length (head_slots plant.props plant.states plant.start just) ≤ length buffer.old) }
    ensures { Put buffer.old at (text_of (head_slots plant.props plant.states plant.start just)) buffer.new result }
{
    let a = put_count_line(buffer, at, b"props=", plant.props);
    let b = put_count_line(buffer, a, b"states=", plant.states);
    let c = put_text(buffer, b, b"start=");
    let d = put_hex_end(buffer, c, 16, plant.start);
    put_count_line(buffer, d, b"just=", just)
}

// The whole text at the buffer's start.
pub fn put_table(
    buffer: &mut [u8],
    plant: Plant,
    fair: &[u64],
    label: &[u16],
    next: &[u64],
) -> usize
    requires { Writable plant fair.now label.now next.now (length buffer.old) }
    ensures { Put buffer.old 0 (table_text (plant_of plant fair.now label.now next.now)) buffer.new result }
{
    let head = put_head(buffer, 0, plant, fair.len());
    let sets = put_fair(buffer, head, fair);
    put_rows(buffer, sets, text::width_of(plant.props), label, next)
}
