// The line that is not whole yet.
ghost use Rattle.std.specs.Prelude.{◌≡◌, ◌++◌, ◌≤◌, ◌<◌, length, take, get_or};
ghost use Rattle.text.specs.Number.{width_of};
ghost use Rattle.event_log.specs.Read.{is_numbered, bytes_in};
ghost use Rattle.radio.specs.Radio.{agrees, form_of, good_of};
ghost use Rattle.radio.specs.Kept.{padded};

use crate::Form;
use std::array;

// The form of a line, which its first byte tells: the `n` of `num=`.
pub fn form_of(line: &[u8]) -> Form
    ensures { result ≡ form_of (is_numbered line.now) }
{
    if text::byte_at(line, 0) == b'n' {
        return Form::Numbered;
    }
    Form::Plain
}

// Whether a line may have this form: the first line's is every line's.
fn may_be(form: Form, numbered: bool) -> bool
    ensures { result ≡ agrees form numbered }
{
    match form {
        Form::Unknown => true,
        Form::Plain => !numbered,
        Form::Numbered => numbered,
    }
}

// How many bytes the line has that begins with the bytes kept, or with the scrap's where none are.
pub fn size_of(part: [u8; 40], len: usize, rest: &[u8], props: usize) -> usize
    requires { len ≤ 40 }
    ensures { result ≡ bytes_in (width_of props) (take len part ++ rest.now) }
{
    if len == 0 {
        return event_log::line_bytes(rest, props);
    }
    event_log::line_bytes(&part[..len], props)
}

// A byte of the bytes kept with so many of a scrap's behind them, and 0 beyond.
fn byte_of(part: [u8; 40], len: usize, rest: &[u8], took: usize, at: usize) -> u8
    requires { (len ≤ 40) × (took ≤ length rest.now) }
    ensures { result ≡ get_or (take len part ++ take took rest.now) at 0 }
{
    if at < len {
        return part[at];
    }
    if at - len < took {
        return rest[at - len];
    }
    0
}

// The bytes kept with so many of a scrap's behind them, and zeros beyond.
pub fn joined(part: [u8; 40], len: usize, rest: &[u8], took: usize) -> [u8; 40]
    requires { (len ≤ 40) × (took ≤ length rest.now) }
    ensures { result ≡ padded (take len part ++ take took rest.now) }
{
    array::from_fn(|at| byte_of(part, len, rest, took, at))
}

// How many bytes of a text of at most a line fit one.
pub fn good_of(line: &[u8], form: Form, props: usize) -> usize
    requires { (0 < length line.now) × (length line.now ≤ bytes_in (width_of props) line.now) }
    ensures { result ≡ good_of (width_of props) form line.now }
{
    let numbered = text::byte_at(line, 0) == b'n';
    if may_be(form, numbered) {
        return match event_log::read_log(line, props).outcome {
            Ok(()) => line.len(),
            Err(refusal) => refusal.place,
        };
    }
    0
}
