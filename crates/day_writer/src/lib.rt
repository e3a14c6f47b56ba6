// A day sheet as its text: a line for each stretch, `first=0 events=2 verdict=true decided=1`, or `decided=-` where it never was true or false.
#![tactic(auto)]

mod lines;

ghost use Rattle.std.specs.Prelude.{◌≡◌};
ghost use Rattle.day_writer.specs.Writing.{write_answer, write_buffer};

use answers::{Kind, Refusal};
use lines::put_lines;
use stretches::DaySheet;
use writing::put_text;

// How many bytes were written.
#[derive(Clone, Copy)]
pub struct Length {
    pub bytes: usize,
}

impl Length {
    // The bytes in which a text is made: 105 for each of 64 lines, more than any has.
    pub const MOST: usize = 6720;
}

// Writes a sheet at the buffer's start: refusals 9 and 11. Other bytes stay, and all of them with a refusal.
// The text is made apart, so how long it is need not be worked out beforehand.
pub fn write_sheet(sheet: DaySheet, buffer: &mut [u8]) -> Result<Length, Refusal>
    ensures answer { result ≡ write_answer sheet buffer.old }
    ensures buffer { buffer.new ≡ write_buffer sheet buffer.old }
{
    if DaySheet::STRETCHES < sheet.count {
        return Err(Refusal::at(Kind::Value, 0));
    }
    let mut text = [0u8; Length::MOST];
    let bytes = put_lines(&mut text, sheet);
    if buffer.len() < bytes {
        return Err(Refusal::at(Kind::Room, 0));
    }
    put_text(buffer, 0, &text[..bytes]);
    Ok(Length { bytes })
}
