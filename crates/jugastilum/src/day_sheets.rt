// The day sheet beside the box.
ghost use Rattle.std.specs.Prelude.{◌≡◌};
ghost use Rattle.stretches.specs.declared.DaySheet.{DaySheet};
ghost use Rattle.slate.specs.Box.{held_in};
ghost use Rattle.day_words.specs.Words.{sheet_in};
ghost use Rattle.day_writer.specs.Writing.{write_answer, write_buffer};
ghost use Rattle.told.specs.Told.{shown_as, sheet_wrote_as};
ghost use Rattle.box_day.specs.Day.{noted_in, box_noted, day_noted};
ghost use Rattle.jugastilum.specs.Calls.{event_from};

use crate::event_of;
use day_words::sheet_in;
use event_log::{Event, Num};
use told::Answer;

// An event with its number, or with the one that is expected where `numbered` is 0.
fn event_from(numbered: u8, num: u32, see: u16, val: u16, restart: u8) -> Event
    ensures { result ≡ event_from numbered num see val restart }
{
    let num = if numbered == 0 {
        Num::Expected
    } else {
        Num::Given(num)
    };
    event_of(num, see, val, restart)
}

// One event, noted in the day.
pub fn jug_note(
    words: &mut [u64; 384],
    day: &mut [u64; 260],
    numbered: u8,
    num: u32,
    see: u16,
    val: u16,
    restart: u8,
) -> Answer
    ensures answer { result ≡ shown_as (noted_in (held_in words.old) (sheet_in day.old) (event_from numbered num see val restart)).answer }
    ensures words { words.new ≡ box_noted words.old (noted_in (held_in words.old) (sheet_in day.old) (event_from numbered num see val restart)) }
    ensures day { day.new ≡ day_noted day.old (noted_in (held_in words.old) (sheet_in day.old) (event_from numbered num see val restart)) }
{
    let event = event_from(numbered, num, see, val, restart);
    box_day::note(words, day, event).into()
}

// The sheet of a day as its text.
pub fn jug_day_sheet(day: &[u64; 260], text: &mut [u8]) -> Answer
    ensures answer { result ≡ sheet_wrote_as (write_answer (sheet_in day.now) text.old) }
    ensures text { text.new ≡ write_buffer (sheet_in day.now) text.old }
{
    day_writer::write_sheet(sheet_in(*day), text).into()
}
