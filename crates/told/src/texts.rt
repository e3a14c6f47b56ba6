// Texts that were written: their bytes are counted.
ghost use Rattle.std.specs.Prelude.{◌≡◌};
ghost use Rattle.told.specs.Told.{wrote_as, sheet_wrote_as};

use crate::Answer;
use answers::Refusal;
use day_writer::Length as SheetLength;
use plant_writer::Length as TableLength;

impl From<Result<TableLength, Refusal>> for Answer {
    ghost from_gives = { λ w a. a ≡ wrote_as w };

    fn from(answer: Result<TableLength, Refusal>) -> Answer {
        match answer {
            Err(refusal) => refusal.into(),
            Ok(length) => Answer {
                count: length.bytes as u64,
                ..Answer::default()
            },
        }
    }
}

impl From<Result<SheetLength, Refusal>> for Answer {
    ghost from_gives = { λ w a. a ≡ sheet_wrote_as w };

    fn from(answer: Result<SheetLength, Refusal>) -> Answer {
        match answer {
            Err(refusal) => refusal.into(),
            Ok(length) => Answer {
                count: length.bytes as u64,
                ..Answer::default()
            },
        }
    }
}
