// The day sheet beside the box.
ghost use Rattle.std.specs.Prelude.{◌≡◌};
ghost use Rattle.stretches.specs.declared.DaySheet.{DaySheet};
ghost use Rattle.slate.specs.Box.{held_in};
ghost use Rattle.day_words.specs.Words.{sheet_in};
ghost use Rattle.day_writer.specs.Writing.{write_answer, write_buffer};
ghost use Rattle.told.specs.Told.{shown_as, sheet_wrote_as};
ghost use Rattle.box_day.specs.Day.{noted_in, box_noted, day_noted};
ghost use Rattle.jugastilum.specs.Calls.{event_from};

use told::Answer;

// One event, noted in the day.
#[unsafe(no_mangle)]
pub extern "C" fn jug_note(
    words: &mut [u64; 384],
    day: &mut [u64; 260],
    numbered: u8,
    num: u32,
    see: u16,
    val: u16,
    restart: u8,
) -> Answer
    ensures answer { result ≡ shown_as (noted_in (held_in words.old) (sheet_in day.old) (event_from numbered num see val restart)).answer }
    ensures words { words.new ≡ box_noted words.old (noted_in (held_in words.old) (sheet_in day.old) (event_from numbered num see val restart)) }
    ensures day { day.new ≡ day_noted day.old (noted_in (held_in words.old) (sheet_in day.old) (event_from numbered num see val restart)) }
{
    jugastilum::jug_note(words, day, numbered, num, see, val, restart)
}

// The sheet of a day as its text.
#[unsafe(no_mangle)]
pub extern "C" fn jug_day_sheet(day: &[u64; 260], text: &mut [u8]) -> Answer
    ensures answer { result ≡ sheet_wrote_as (write_answer (sheet_in day.now) text.old) }
    ensures text { text.new ≡ write_buffer (sheet_in day.now) text.old }
{
    jugastilum::jug_day_sheet(day, text)
}
