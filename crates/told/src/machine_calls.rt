// Fixed machines: one that was made, the row that an event leads to, and where many lead.
ghost use Rattle.std.specs.Prelude.{◌≡◌};
ghost use Rattle.told.specs.Told.{made_as, looked_as, through_as};

use crate::Answer;
use answers::Refusal;
use fixed_machine::Size;
use machine_events::Through;
use machine_lookup::Stand;

// The rows are counted, and the value is how many bytes a row has.
impl From<Result<Size, Refusal>> for Answer {
    ghost from_gives = { λ m a. a ≡ made_as m };

    fn from(made: Result<Size, Refusal>) -> Answer {
        match made {
            Err(refusal) => refusal.into(),
            Ok(size) => Answer {
                count: size.rows as u64,
                value: size.bytes as u64,
                ..Answer::default()
            },
        }
    }
}

// The place is the next row; the verdict is the value, and the states that are left are counted.
impl From<Result<Stand, Refusal>> for Answer {
    ghost from_gives = { λ l a. a ≡ looked_as l };

    fn from(looked: Result<Stand, Refusal>) -> Answer {
        match looked {
            Err(refusal) => refusal.into(),
            Ok(stand) => Answer {
                number: 0,
                place: stand.row as u64,
                count: u64::from(stand.left),
                value: u64::from(stand.verdict),
            },
        }
    }
}

// The place is the row behind the events that were looked up, also where the next one is refused; and these are counted.
impl From<Through> for Answer {
    ghost from_gives = { λ t a. a ≡ through_as t };

    fn from(through: Through) -> Answer {
        Answer {
            place: through.row as u64,
            count: through.done as u64,
            ..through.outcome.into()
        }
    }
}
