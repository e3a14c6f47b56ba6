// The columns of a fixed machine: the events that tables of at most three propositions allow, in order of what is seen, then of what is given, then of
// whether the event restarts.
#![tactic(auto)]

ghost use Rattle.std.specs.Prelude.{◌≡◌, ◌<◌};
ghost use Rattle.columns.specs.Columns.{count_of, event_at};

use event_log::{Event, Num};

// What is seen, and what is given, by each two columns. Fewer propositions have the first of them.
const SEES: [u16; 27] = [
    0, 1, 1, 2, 2, 3, 3, 3, 3, 4, 4, 5, 5, 5, 5, 6, 6, 6, 6, 7, 7, 7, 7, 7, 7, 7, 7,
];

const VALS: [u16; 27] = [
    0, 0, 1, 0, 2, 0, 1, 2, 3, 0, 4, 0, 1, 4, 5, 0, 2, 4, 6, 0, 1, 2, 3, 4, 5, 6, 7,
];

// How many there are for one, two or three propositions.
#[tactic(auto, unfolding(crate::specs::Columns::count_of))]
pub fn count(props: usize) -> usize
    ensures { result ≡ count_of props }
{
    match props {
        1 => 6,
        2 => 18,
        _ => 54,
    }
}

// The event of a column, with the number that is expected.
#[tactic(auto, unfolding(crate::specs::Columns::event_at))]
pub fn event_at(k: usize) -> Event
    requires { k < 54 }
    ensures { result ≡ event_at k }
{
    let two = k / 2;
    Event {
        num: Num::Expected,
        see: SEES[two],
        val: VALS[two],
        new: k % 2 == 1,
    }
}
