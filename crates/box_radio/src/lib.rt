// A log that comes to a box in scraps: what is kept between them stands in the box, behind the monitor.
#![tactic(auto)]

ghost use Rattle.std.specs.Prelude.{◌≡◌, length};
ghost use Rattle.pairs.specs.declared.Pairs.{Pairs};
ghost use Rattle.syntax.specs.declared.Rule.{Rule};
ghost use Rattle.sides.specs.declared.Monitor.{Monitor};
ghost use Rattle.course.specs.Laid.{laid};
ghost use Rattle.box_radio.specs.Radios.{plant_where, took_from, end_from, box_taken, took_in, end_in};

use answers::Refusal;
use box_calls::{fairs_of, states_of};
use controller::LogAnswer;
use plant::Plant;
use radio::Radio;
use radio_words::{can_stand, radio_in, with_radio};
use scraps::Taken;
use slate::{Held, held_in, with_monitor};

// A table that counts no proposition, where a word of the radio is more than its field can hold: then the call answers 1.
fn plant_where(plant: Plant, fits: bool) -> Plant
    ensures { result ≡ plant_where fits plant }
{
    if fits {
        plant
    } else {
        Plant { props: 0, ..plant }
    }
}

// The parts that are lent are those that the table counts.
#[tactic(auto, unfolding(crate::specs::Radios::took_from))]
fn take_from(held: Held, radio: Radio, fits: bool, scrap: &[u8], verdicts: &mut [u8]) -> Taken
    ensures taken { result ≡ (took_from held radio fits scrap.now (length verdicts.old)).taken }
    ensures verdicts { verdicts.new ≡ laid (took_from held radio fits scrap.now (length verdicts.old)).verdicts verdicts.old }
{
    let states = states_of(held.table);
    scraps::take(
        plant_where(held.table.plant, fits),
        &held.table.fair[..fairs_of(held.table)],
        &held.table.label[..states],
        &held.table.next[..states],
        held.rule,
        held.live,
        radio,
        scrap,
        verdicts,
    )
}

// The parts that are lent are those that the table counts.
#[tactic(auto, unfolding(crate::specs::Radios::end_from))]
fn end_from(held: Held, radio: Radio, fits: bool) -> Result<(), Refusal>
    ensures { result ≡ end_from held radio fits }
{
    let states = states_of(held.table);
    scraps::finish(
        plant_where(held.table.plant, fits),
        &held.table.fair[..fairs_of(held.table)],
        &held.table.label[..states],
        &held.table.next[..states],
        held.rule,
        held.live,
        radio,
    )
}

// A scrap of a log: a verdict byte for each event whose line it ends. The box gets the new monitor and radio, and stays where nothing was taken.
pub fn take(words: &mut [u64; 384], scrap: &[u8], verdicts: &mut [u8]) -> LogAnswer
    ensures answer { result ≡ (took_in words.old scrap.now (length verdicts.old)).taken.answer }
    ensures words { words.new ≡ box_taken words.old (took_in words.old scrap.now (length verdicts.old)).taken }
    ensures verdicts { verdicts.new ≡ laid (took_in words.old scrap.now (length verdicts.old)).verdicts verdicts.old }
{
    let held = held_in(*words);
    let radio = radio_in(*words, held.monitor);
    let taken = take_from(held, radio, can_stand(*words), scrap, verdicts);
    if let LogAnswer::Watched(_) | LogAnswer::Stopped(_) = taken.answer {
        *words = with_radio(with_monitor(*words, taken.radio.monitor), taken.radio);
    }
    taken.answer
}

// Whether the log may end where it stands.
pub fn finish(words: &[u64; 384]) -> Result<(), Refusal>
    ensures { result ≡ end_in words.now }
{
    let held = held_in(*words);
    let radio = radio_in(*words, held.monitor);
    end_from(held, radio, can_stand(*words))
}
