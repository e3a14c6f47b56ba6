// A neighbour's report.
ghost use Rattle.std.specs.Prelude.{◌≡◌};
ghost use Rattle.neighbour.specs.Report.{report_of};
ghost use Rattle.neighbour.specs.Judged.{judged_of};
ghost use Rattle.told.specs.Told.{judged_as};

use neighbour::judge_report;
use told::Answer;

// Checks the report of a neighbour's tool: its claim, and the runs that it shows.
pub fn jug_judge(
    table: &[u8],
    rule: &[u8],
    log: &[u8],
    claim: u8,
    keep_stem: &[u8],
    keep_loop: &[u8],
    break_stem: &[u8],
    break_loop: &[u8],
) -> Answer
    ensures { result ≡ judged_as (judged_of table.now rule.now log.now
        (report_of claim keep_stem.now keep_loop.now break_stem.now break_loop.now)) }
{
    judge_report(
        table, rule, log, claim, keep_stem, keep_loop, break_stem, break_loop,
    )
    .into()
}
