// The numbers of events: which one an event takes, how many are missing before it, and checks 10 and 16.
#![tactic(auto)]

ghost use Rattle.std.specs.Prelude.{◌≡◌};
ghost use Rattle.event_numbers.specs.Numbers.{number_of, missing_of, in_turn, event_outcome};

use answers::{Kind, Refusal};
use event_log::{Event, Num};

// Numbers have 32 bits. Expected behind the last of them, this says that they are used up.
pub const USED_UP: u64 = 4294967296;

// How many numbers may be missing before an event.
pub const MISSING: u64 = 16;

// The number that an event gives, and else the one expected.
pub fn number_of(num: Num, expected: u64) -> u64
    ensures { result ≡ number_of num expected }
{
    match num {
        Num::Expected => expected,
        Num::Given(number) => u64::from(number),
    }
}

// How many numbers are missing before this one. The first event may have any.
pub fn missing(seen: bool, expected: u64, number: u64) -> u64
    ensures { result ≡ missing_of seen expected number }
{
    if seen {
        number.saturating_sub(expected)
    } else {
        0
    }
}

// Whether an event may have this number: some are left, and behind another event it goes neither back nor over more than may be missing.
#[tactic(auto, unfolding(crate::specs::Numbers::in_turn))]
fn in_turn(seen: bool, expected: u64, number: u64) -> bool
    ensures { result ≡ in_turn seen expected number }
{
    if USED_UP <= expected {
        return false;
    }
    number < USED_UP && (!seen || expected <= number && number <= expected + MISSING)
}

// Checks 10 and 16.
#[tactic(auto, unfolding(crate::specs::Numbers::event_outcome))]
pub fn check_event(event: Event, props: usize, seen: bool, expected: u64) -> Result<(), Refusal>
    ensures { result ≡ event_outcome event props seen expected }
{
    if !event_log::is_legal(event, props) {
        return Err(Refusal::at(Kind::IllegalEvent, 0));
    }
    if !in_turn(seen, expected, number_of(event.num, expected)) {
        return Err(Refusal::at(Kind::Number, 0));
    }
    Ok(())
}
