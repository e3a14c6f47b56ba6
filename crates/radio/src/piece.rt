// A piece: as many bytes of a scrap as the line has room for, copied behind the bytes kept and read at once.
ghost use Rattle.std.specs.Prelude.{◌≡◌, ◌<◌, length};
ghost use Rattle.text.specs.Number.{width_of};
ghost use Rattle.radio.specs.Kept.{open_piece, piece_of, Fit};

use crate::Radio;
use crate::line::{good_of, joined, size_of};
use answers::{Kind, Refusal};

// The radio behind a piece, how many bytes the piece has, and whether the line that is kept is whole.
#[derive(Clone, Copy)]
pub struct Pieced {
    pub radio: Radio,
    pub took: usize,
    pub whole: bool,
}

// Refused at the first byte that does not fit, at its place in the whole log; or kept.
fn open_piece(radio: Radio, rest: &[u8], props: usize) -> Pieced
    requires { Fit (width_of props) radio (length rest.now) × (0 < length rest.now) }
    ensures { result ≡ open_piece (width_of props) radio rest.now }
{
    let size = size_of(radio.part, radio.len, rest, props);
    let took = (size - radio.len).min(rest.len());
    let end = radio.len + took;
    let line = joined(radio.part, radio.len, rest, took);
    let good = good_of(&line[..end], radio.form, props);
    if good < end {
        return Pieced {
            radio: radio.stopped(Refusal::at(Kind::LogText, radio.start + good)),
            took,
            whole: false,
        };
    }
    Pieced {
        radio: Radio {
            part: line,
            len: end,
            ..radio
        },
        took,
        whole: size <= end,
    }
}

// Behind a refusal nothing more is heard.
pub fn piece(radio: Radio, rest: &[u8], props: usize) -> Pieced
    requires { Fit (width_of props) radio (length rest.now) × (0 < length rest.now) }
    ensures { result ≡ piece_of (width_of props) radio.standing radio rest.now }
{
    match radio.standing {
        Err(_) => Pieced {
            radio,
            took: rest.len(),
            whole: false,
        },
        Ok(()) => open_piece(radio, rest, props),
    }
}
