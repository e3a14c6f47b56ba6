// What is found of a neighbour's report.
ghost use Rattle.std.specs.Prelude.{◌≡◌};
ghost use Rattle.told.specs.Told.{failing_number, judged_as};

use crate::Answer;
use neighbour::Judged;
use shown::Failing;

// The rules of a run, in the order in which they are looked at.
fn failing_number(failing: Failing) -> u64
    ensures { result ≡ failing_number failing }
{
    match failing {
        Failing::Start => 1,
        Failing::Moves => 2,
        Failing::Fairness => 3,
        Failing::Agreement => 4,
        Failing::Value => 5,
    }
}

// The value is 0 for a right report, 1 for a wrong run, which is counted, 1 the one that keeps the rule and 2 the one that breaks it, and the place is the rule
// of runs that it fails; and 2 for a wrong verdict.
impl From<Judged> for Answer {
    ghost from_gives = { λ j a. a ≡ judged_as j };

    fn from(answer: Judged) -> Answer {
        match answer {
            Judged::Refused(refusal) => refusal.into(),
            Judged::Stopped(stop) => stop.into(),
            Judged::WrongRun(fault) => Answer {
                number: 0,
                place: failing_number(fault.failing),
                count: if fault.keeps { 1 } else { 2 },
                value: 1,
            },
            Judged::Accepted => Answer::default(),
            Judged::WrongVerdict => Answer {
                value: 2,
                ..Answer::default()
            },
        }
    }
}
