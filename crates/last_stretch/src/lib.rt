// The events since the last restart, from the last one back to the restart's own: whether each saw all that the rule speaks of, and whether the rule
// holds within them. Nothing is kept of an event but a bit for each node of the rule, however long the log is.
#![tactic(auto)]

ghost use Rattle.std.specs.Prelude.{◌≡◌, ◌≤◌};
ghost use Rattle.text.specs.Number.{width_of};
ghost use Rattle.event_log.specs.Read.{event_at, whole_lines};
ghost use Rattle.last_stretch.specs.Stretch.{joins, behind_last, further_of, found_of};

use event_log::{Event, Num};
use syntax::Rule;
use within::seen::{props_of, sees_all};
use within::{guesses, turn};

// What the lines from one on tell.
#[derive(Clone, Copy, Debug, PartialEq, Eq)]
pub struct Back {
    // the values of the rule's nodes at that line, and what each hands on to the line before
    pub stack: u64,
    pub ahead: u64,
    // the number of that line's event
    pub num: Num,
    // whether each event saw all propositions of the rule, and none is missing between two of them
    pub all: bool,
    // whether the stretch may reach further back: no line so far is a restart
    pub going: bool,
}

// Whether anything may be presumed of the stretch, and whether the rule holds within it.
#[derive(Clone, Copy, Debug, PartialEq, Eq)]
pub struct Found {
    pub ready: bool,
    pub holds: bool,
}

// Whether no number is missing between two events, one line behind the other. Without numbers none is.
fn follows(earlier: Num, later: Num) -> bool
    ensures { result ≡ joins earlier later }
{
    match (earlier, later) {
        (Num::Given(number), Num::Given(behind)) => u64::from(behind) <= u64::from(number) + 1,
        _ => true,
    }
}

// Behind the last line nothing was seen yet.
fn behind_last(rule: Rule) -> Back
    requires { rule.len ≤ 32 }
    ensures { result ≡ behind_last rule }
{
    Back {
        stack: 0,
        ahead: guesses(rule),
        num: Num::Expected,
        all: true,
        going: true,
    }
}

// One line further back.
#[tactic(auto, using(std::proofs::lemmas::Grind::common_steps), unfolding(crate::specs::Stretch::further_of))]
fn further(rule: Rule, props: u64, back: Back, event: Event) -> Back
    requires { rule.len ≤ 32 }
    ensures { result ≡ further_of rule props back event }
{
    let made = turn(rule, u64::from(event.val), back.ahead);
    Back {
        stack: made.stack,
        ahead: made.ahead,
        num: event.num,
        all: back.all && sees_all(props, event.see) && follows(event.num, back.num),
        going: !event.new,
    }
}

// From the last line back to the restart, or to the first line: so no line is looked at that does not count.
pub fn look_back(rule: Rule, log: &[u8], props: usize) -> Found
    requires { rule.len ≤ 32 }
    ensures { result ≡ found_of rule (event_at (width_of props) log.now) (whole_lines (width_of props) log.now) }
{
    let used = props_of(rule);
    let lines = log.len() / event_log::line_bytes(log, props);
    let mut back = behind_last(rule);
    for line in (0..lines).rev() {
        back = further(rule, used, back, event_log::event_at(log, line, props));
        if !back.going {
            break;
        }
    }
    Found {
        ready: lines > 0 && back.all,
        holds: words::has(back.stack, 0),
    }
}
