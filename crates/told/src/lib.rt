// Answers as a C program has them: four numbers, made of what a call answers. What an answer does not name is 0.
#![tactic(auto)]

mod machine_calls;
mod reports;
mod sheets;
mod texts;

ghost use Rattle.walk.specs.declared.Lengths.{Lengths};
ghost use Rattle.std.specs.Prelude.{◌≡◌};
ghost use Rattle.told.specs.Told.{refused_by, stopped_by, shown_as, heard_as, end_as, run_as, closed_as};

use answers::{Lamp, Refusal};
use closing::Closed;
use controller::{LogAnswer, Stop};
use walk::Lengths;

// Number 0: accepted. Else the refusal's, with its place. The header has the same struct.
#[repr(C)]
#[derive(Clone, Copy, Debug, Default, PartialEq, Eq)]
pub struct Answer {
    pub number: u64,
    pub place: u64,
    pub count: u64,
    pub value: u64,
}

// Its number and its place.
impl From<Refusal> for Answer {
    ghost from_gives = { λ r a. a ≡ refused_by r };

    fn from(refusal: Refusal) -> Answer {
        Answer {
            number: u64::from(refusal.kind.number()),
            place: refusal.place as u64,
            ..Answer::default()
        }
    }
}

// An event is refused: those taken before it are counted.
impl From<Stop> for Answer {
    ghost from_gives = { λ s a. a ≡ stopped_by s };

    fn from(stop: Stop) -> Answer {
        Answer {
            count: stop.event as u64,
            ..stop.refusal.into()
        }
    }
}

// The verdict is the value, and the states that are left are counted.
impl From<Result<Lamp, Refusal>> for Answer {
    ghost from_gives = { λ s a. a ≡ shown_as s };

    fn from(answer: Result<Lamp, Refusal>) -> Answer {
        match answer {
            Err(refusal) => refusal.into(),
            Ok(lamp) => Answer {
                count: lamp.left as u64,
                value: u64::from(lamp.verdict.number()),
                ..Answer::default()
            },
        }
    }
}

// The events are counted: all, or those before the one that is refused.
impl From<LogAnswer> for Answer {
    ghost from_gives = { λ l a. a ≡ heard_as l };

    fn from(answer: LogAnswer) -> Answer {
        match answer {
            LogAnswer::Refused(refusal) => refusal.into(),
            LogAnswer::Stopped(stop) => stop.into(),
            LogAnswer::Watched(events) => Answer {
                count: events.count as u64,
                ..Answer::default()
            },
        }
    }
}

// Whether a log may end where it stands.
impl From<Result<(), Refusal>> for Answer {
    ghost from_gives = { λ o a. a ≡ end_as o };

    fn from(outcome: Result<(), Refusal>) -> Answer {
        match outcome {
            Err(refusal) => refusal.into(),
            Ok(()) => Answer::default(),
        }
    }
}

// The value is how long the stem is, the count how long the loop.
impl From<Result<Lengths, Refusal>> for Answer {
    ghost from_gives = { λ w a. a ≡ run_as w };

    fn from(witnessed: Result<Lengths, Refusal>) -> Answer {
        match witnessed {
            Err(refusal) => refusal.into(),
            Ok(lengths) => Answer {
                count: lengths.turn as u64,
                value: lengths.stem as u64,
                ..Answer::default()
            },
        }
    }
}

// The closing verdict is the value.
impl From<Closed> for Answer {
    ghost from_gives = { λ c a. a ≡ closed_as c };

    fn from(answer: Closed) -> Answer {
        match answer {
            Closed::Refused(refusal) => refusal.into(),
            Closed::Stopped(stop) => stop.into(),
            Closed::At(verdict) => Answer {
                value: u64::from(verdict.number()),
                ..Answer::default()
            },
        }
    }
}
