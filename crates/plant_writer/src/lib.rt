// Writes a plant table as its text, in the form that `plant::read_table` reads.
#![tactic(auto)]

mod lines;

ghost use Rattle.std.specs.Prelude.{◌≡◌};
ghost use Rattle.plant_writer.specs.Writing.{write_answer, write_buffer};

use answers::{Kind, Refusal};
use plant::Plant;

// How many bytes were written.
#[derive(Clone, Copy)]
pub struct Length {
    pub bytes: usize,
}

impl Length {
    // The most bytes of a table's text: a buffer of so many has room for any.
    pub const MOST: usize = 2477;

    // The constant, pinned by a contract.
    pub fn most() -> Self
        ensures { result.bytes ≡ 2477 }
    {
        Length {
            bytes: Length::MOST,
        }
    }
}

// Writes a table at the buffer's start: refusals 1, 2 and 11. Other bytes stay, and all of them with a refusal.
// The text is made apart, so how long it is need not be worked out beforehand.
pub fn write_table(
    plant: Plant,
    fair: &[u64],
    label: &[u16],
    next: &[u64],
    buffer: &mut [u8],
) -> Result<Length, Refusal>
    ensures answer { result ≡ write_answer plant fair.now label.now next.now buffer.old }
    ensures buffer { buffer.new ≡ write_buffer plant fair.now label.now next.now buffer.old }
{
    plant::check_table(plant, fair, label, next)?;
    let mut text = [0u8; Length::MOST];
    let bytes = lines::put_table(&mut text, plant, fair, label, next);
    if buffer.len() < bytes {
        return Err(Refusal::at(Kind::Room, 0));
    }
    writing::put_text(buffer, 0, &text[..bytes]);
    Ok(Length { bytes })
}
