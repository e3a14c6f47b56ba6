// What the programs write: a text, a line, a number, or that something is refused. Of what the system takes no contract can speak: where it takes nothing more, the rest
// is not written, and the program ends as ever.
ghost use Rattle.io.specs.Counts.{IsPrefixLen};

use answers::Refusal;
use report::Line;

// A text as it stands.
pub fn put<P: Print>(to: &P, text: &[u8]) {
    let _ = to.write_all(text);
}

// A line as `report` makes it.
pub fn show<P: Print>(to: &P, line: Line)
    requires { IsPrefixLen line.len line.bytes }
{
    put(to, &line.bytes[..line.len]);
}

// The line of a refusal.
pub fn refuse<P: Print>(to: &P, refusal: Refusal) {
    show(to, report::refused_line(refusal));
}

// A number in decimal digits.
pub fn put_decimal<P: Print>(to: &P, n: u64) {
    let mut text = [0u8; 20];
    let len = io::decimal(n, &mut text);
    put(to, &text[..len]);
}

// A number in hexadecimal digits, with no zeros before it.
pub fn put_hex<P: Print>(to: &P, n: u64) {
    let mut text = [0u8; 16];
    let len = io::hex(n, 1, &mut text);
    put(to, &text[..len]);
}
