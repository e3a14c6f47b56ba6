// A day beside a box: an event is noted in both, and a refusal leaves every word of both.
#![tactic(auto)]

ghost use Rattle.std.specs.Prelude.{◌≡◌};
ghost use Rattle.pairs.specs.declared.Pairs.{Pairs};
ghost use Rattle.plant.specs.declared.Table.{Table};
ghost use Rattle.syntax.specs.declared.Rule.{Rule};
ghost use Rattle.sides.specs.declared.Monitor.{Monitor};
ghost use Rattle.slate.specs.Box.{held_in};
ghost use Rattle.day_words.specs.Words.{sheet_in};
ghost use Rattle.box_day.specs.Day.{noted_in, box_noted, day_noted};

use answers::Answer;
use box_calls::{fairs_of, states_of};
use day_sheet::Noted;
use day_words::{sheet_in, with_sheet};
use event_log::Event;
use slate::{Held, held_in, with_monitor};
use stretches::DaySheet;

// The call, for what a box and a day hold.
#[tactic(auto, unfolding(crate::specs::Day::noted_in))]
fn note_from(held: Held, sheet: DaySheet, event: Event) -> Noted
    ensures { result ≡ noted_in held sheet event }
{
    let states = states_of(held.table);
    day_sheet::note(
        held.table.plant,
        &held.table.fair[..fairs_of(held.table)],
        &held.table.label[..states],
        &held.table.next[..states],
        held.rule,
        held.live,
        held.monitor,
        sheet,
        event,
    )
}

// One event, noted in the day: the box gets the new monitor and the day the new sheet, and both stay where it is refused.
pub fn note(words: &mut [u64; 384], day: &mut [u64; 260], event: Event) -> Answer
    ensures answer { result ≡ (noted_in (held_in words.old) (sheet_in day.old) event).answer }
    ensures words { words.new ≡ box_noted words.old (noted_in (held_in words.old) (sheet_in day.old) event) }
    ensures day { day.new ≡ day_noted day.old (noted_in (held_in words.old) (sheet_in day.old) event) }
{
    let noted = note_from(held_in(*words), sheet_in(*day), event);
    if let Ok(_) = noted.answer {
        *words = with_monitor(*words, noted.monitor);
        *day = with_sheet(*day, noted.sheet);
    }
    noted.answer
}
