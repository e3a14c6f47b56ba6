// Settings sheets, asked and kept.
ghost use Rattle.std.specs.Prelude.{◌≡◌};
ghost use Rattle.told.specs.Told.{refused_sheet, asked_as, held_as, copied_as};

use crate::Answer;
use settings::{SheetRefusal, Spot};
use sheet_store::{Length, Sheets};

// The sheet that a refusal is about is its value: 1 the local one, 2 the shared one, 0 none.
impl From<SheetRefusal> for Answer {
    ghost from_gives = { λ r a. a ≡ refused_sheet r };

    fn from(refusal: SheetRefusal) -> Answer {
        Answer {
            number: u64::from(refusal.kind.number()),
            place: refusal.place as u64,
            count: 0,
            value: u64::from(refusal.sheet),
        }
    }
}

// Where the value begins is the place, how many bytes it has the count, and the sheet in which it stands the value.
impl From<Result<Spot, SheetRefusal>> for Answer {
    ghost from_gives = { λ r a. a ≡ asked_as r };

    fn from(answer: Result<Spot, SheetRefusal>) -> Answer {
        match answer {
            Err(refusal) => refusal.into(),
            Ok(spot) => Answer {
                number: 0,
                place: spot.from as u64,
                count: spot.upto.saturating_sub(spot.from) as u64,
                value: u64::from(spot.sheet),
            },
        }
    }
}

// The sheets that are kept are counted.
impl From<Result<Sheets, SheetRefusal>> for Answer {
    ghost from_gives = { λ r a. a ≡ held_as r };

    fn from(answer: Result<Sheets, SheetRefusal>) -> Answer {
        match answer {
            Err(refusal) => refusal.into(),
            Ok(sheets) => Answer {
                count: sheets.count as u64,
                ..Answer::default()
            },
        }
    }
}

// The bytes that were copied are counted.
impl From<Result<Length, SheetRefusal>> for Answer {
    ghost from_gives = { λ r a. a ≡ copied_as r };

    fn from(answer: Result<Length, SheetRefusal>) -> Answer {
        match answer {
            Err(refusal) => refusal.into(),
            Ok(length) => Answer {
                count: length.bytes as u64,
                ..Answer::default()
            },
        }
    }
}
