// What an event leads to, by what the same monitor is led to by one that sees nothing: where a row of a fixed machine is worked out, the moves are made once for all
// its columns.
#![tactic(auto)]

ghost use Rattle.std.specs.Prelude.{◌≡◌, ◌≤◌, length};
ghost use Rattle.narrowed.specs.Narrowed.{narrowed_in};

use event_log::Event;
use sides::opening::split;
use sides::{Monitor, kept};

// `wide` is where a monitor that saw an event is led by one that sees nothing and restarts nothing. Both sides are cut to the states that agree; at a restart they
// are one first, and split anew.
pub fn narrowed(
    label: &[u16],
    holds: &[u64; 64],
    live: &[u64; 64],
    wide: Monitor,
    event: Event,
) -> Monitor
    requires { length label.now ≤ 64 }
    ensures { result ≡ narrowed_in label.now holds.now live.now wide event }
{
    let agree = labels::agreeing(label, event.see, event.val);
    if event.new {
        let both = wide.keeps.join(wide.breaks);
        return Monitor {
            seen: true,
            keeps: split(&both.words, agree, holds, true),
            breaks: split(&both.words, agree, holds, false),
            expected: wide.expected,
        };
    }
    kept(wide, live, agree)
}
