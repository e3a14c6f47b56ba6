// A day's end.
ghost use Rattle.std.specs.Prelude.{◌≡◌};
ghost use Rattle.closing.specs.Closing.{closed_of};
ghost use Rattle.told.specs.Told.{closed_as};

use told::Answer;

// What a day ends with, by an edition of the closing verdicts.
pub fn jug_close_log(table: &[u8], rule: &[u8], log: &[u8], edition: u64) -> Answer
    ensures { result ≡ closed_as (closed_of table.now rule.now log.now edition) }
{
    closing::close_log(table, rule, log, edition).into()
}
