// A neighbour's report checked: table, rule and log as texts, a claimed verdict, and complete runs. Each run that the claim needs is judged by what runs and rules
// mean, and not by our monitor; only a claim that one run can't prove is compared with our verdict.
#![tactic(auto)]

pub mod sent;

ghost use Rattle.std.specs.Prelude.{◌≡◌, ◌≤◌};
ghost use Rattle.text.specs.Number.{width_of};
ghost use Rattle.event_log.specs.Read.{event_at, whole_lines};
ghost use Rattle.opened.specs.Lent.{Lent};
ghost use Rattle.neighbour.specs.Report.{Sized, RunSized, report_of};
ghost use Rattle.neighbour.specs.Judged.{looked_at, confirmed_by, decided_second, decided_of, report_judged, judged_with, judged_after, judged_of};

use advance::lamp;
use answers::{Refusal, Verdict};
use controller::{LogAnswer, Stop, to_end};
use plant::{Plant, Table};
use sent::{Report, ShownRun, check_report, needs};
use shown::positions::mark_of;
use shown::{Failing, check_run};
use sides::Monitor;
use syntax::Rule;

// Which run is wrong, the one that keeps the rule or the one that breaks it, and the first rule that it fails.
#[derive(Clone, Copy)]
pub struct Fault {
    pub keeps: bool,
    pub failing: Failing,
}

// The report is right; or a run in it is wrong; or its claim is, though the run is right; or an event was refused; or a text, the claim or a run's length was.
#[derive(Clone, Copy)]
pub enum Judged {
    Accepted,
    WrongRun(Fault),
    WrongVerdict,
    Stopped(Stop),
    Refused(Refusal),
}

// Refusals 3, 2; 4 to 8; 12; then an event's 10 or 16, at the offset of its line; then 9 for the claim, and 22 for a run that is needed and too long. Then the needed
// runs, the one that keeps the rule first, and then the verdict. A run that the claim does not need is not looked at.
pub fn judge_report(
    table: &[u8],
    rule: &[u8],
    log: &[u8],
    claim: u8,
    keep_stem: &[u8],
    keep_loop: &[u8],
    break_stem: &[u8],
    break_loop: &[u8],
) -> Judged
    ensures { result ≡ judged_of table.now rule.now log.now
        (report_of claim keep_stem.now keep_loop.now break_stem.now break_loop.now) }
{
    let keeping = ShownRun::of(keep_stem, keep_loop);
    let breaking = ShownRun::of(break_stem, break_loop);
    judge_runs(
        table,
        rule,
        log,
        Report {
            claim,
            keeping,
            breaking,
        },
    )
}

// With the two runs put together: our own verdict is asked for behind the last event alone.
fn judge_runs(table: &[u8], rule: &[u8], log: &[u8], report: Report) -> Judged
    requires { Sized report }
    ensures { result ≡ judged_of table.now rule.now log.now report }
{
    let end = to_end(table, rule, log);
    match end.answer {
        LogAnswer::Refused(refusal) => Judged::Refused(refusal),
        LogAnswer::Stopped(stop) => Judged::Stopped(stop),
        LogAnswer::Watched(_) => at_end(end.table, end.rule, log, end.last, report),
    }
}

// Behind the last event: the claim and the lengths of the runs are checked, and then the report is judged.
fn at_end(table: Table, rule: Rule, log: &[u8], last: Monitor, report: Report) -> Judged
    requires { Lent table × (rule.len ≤ 32) × Sized report }
    ensures { result ≡ judged_after table rule log.now last report }
{
    let outcome = check_report(report.claim, report.keeping.long, report.breaking.long);
    let shown = lamp(last);
    match outcome {
        Err(refusal) => Judged::Refused(refusal),
        Ok(()) => with_verdict(table, rule, log, shown.verdict, report),
    }
}

// Of the table, as many parts are lent as it counts.
fn with_verdict(table: Table, rule: Rule, log: &[u8], verdict: Verdict, report: Report) -> Judged
    requires { Lent table × (rule.len ≤ 32) × Sized report }
    ensures { result ≡ judged_with table rule log.now verdict report }
{
    let plant = table.plant;
    judge_both(
        plant,
        &table.fair[..plant.just],
        &table.label[..plant.states],
        &table.next[..plant.states],
        rule,
        log,
        verdict,
        report,
    )
}

// The needed runs, and then the verdict.
fn judge_both(
    plant: Plant,
    fair: &[u64],
    label: &[u16],
    next: &[u64],
    rule: Rule,
    log: &[u8],
    verdict: Verdict,
    report: Report,
) -> Judged
    requires { (rule.len ≤ 32) × Sized report }
    ensures { result ≡ report_judged plant fair.now label.now next.now rule
        (event_at (width_of plant.props) log.now) (whole_lines (width_of plant.props) log.now) verdict report }
{
    let claim = report.claim;
    let mark = mark_of(log, plant.props);
    let first = look_at(
        plant,
        fair,
        label,
        next,
        rule,
        log,
        mark,
        claim,
        true,
        report.keeping,
    );
    let second = look_at(
        plant,
        fair,
        label,
        next,
        rule,
        log,
        mark,
        claim,
        false,
        report.breaking,
    );
    decide(claim, verdict, first, second)
}

// What the check finds of a run of the kind; nothing where the claim does not need it.
fn look_at(
    plant: Plant,
    fair: &[u64],
    label: &[u16],
    next: &[u64],
    rule: Rule,
    log: &[u8],
    mark: usize,
    claim: u8,
    keeps: bool,
    run: ShownRun,
) -> Result<(), Failing>
    requires { (rule.len ≤ 32) × RunSized run }
    ensures { result ≡ looked_at plant fair.now label.now next.now rule
        (event_at (width_of plant.props) log.now) (whole_lines (width_of plant.props) log.now) mark claim keeps run }
{
    if !needs(claim, keeps) {
        return Ok(());
    }
    check_run(
        plant,
        fair,
        label,
        next,
        rule,
        log,
        mark,
        keeps,
        &run.states[..run.len],
        run.stem,
    )
}

// Whether the verdict is as claimed. Two right runs prove that it is inconclusive.
#[tactic(auto, unfolding(crate::specs::Judged::confirmed_by))]
fn confirms(claim: u8, verdict: Verdict) -> bool
    ensures { result ≡ confirmed_by claim verdict }
{
    claim == Verdict::INCONCLUSIVE || claim == verdict.number()
}

// By what was found of the two runs.
fn decide(
    claim: u8,
    verdict: Verdict,
    first: Result<(), Failing>,
    second: Result<(), Failing>,
) -> Judged
    ensures { result ≡ decided_of claim verdict first second }
{
    match first {
        Err(failing) => Judged::WrongRun(Fault {
            keeps: true,
            failing,
        }),
        Ok(()) => decide_second(claim, verdict, second),
    }
}

fn decide_second(claim: u8, verdict: Verdict, second: Result<(), Failing>) -> Judged
    ensures { result ≡ decided_second claim verdict second }
{
    match second {
        Err(failing) => Judged::WrongRun(Fault {
            keeps: false,
            failing,
        }),
        Ok(()) => {
            if confirms(claim, verdict) {
                return Judged::Accepted;
            }
            Judged::WrongVerdict
        }
    }
}
