// Where runs can begin: the live pairs at starting states, by whether the rule holds there.
ghost use Rattle.std.specs.Prelude.{◌≡◌};
ghost use Rattle.sides.specs.Sides.{split_of, opened_by};

use crate::Monitor;
use pairs::Pairs;
use std::array;

// Of each word of `held`, the states of `among` where the rule has the asked value.
pub fn split(held: &[u64; 64], among: u64, holds: &[u64; 64], keeps: bool) -> Pairs
    ensures { result.words ≡ split_of held.now among holds.now keeps }
{
    let words = if keeps {
        array::from_fn(|v| held[v] & among & holds[v])
    } else {
        array::from_fn(|v| held[v] & among & !holds[v])
    };
    Pairs { words }
}

// Both sides, before any event.
#[tactic(auto, unfolding(crate::specs::Sides::opened_by))]
pub fn opened(start: u64, holds: &[u64; 64], live: &[u64; 64]) -> Monitor
    ensures { result ≡ opened_by start holds.now live.now }
{
    Monitor {
        seen: false,
        keeps: split(live, start, holds, true),
        breaks: split(live, start, holds, false),
        expected: 0,
    }
}
