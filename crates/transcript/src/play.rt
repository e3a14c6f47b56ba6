// From the start to the end of a log: the calls, one after the other, and the log by the one loop over its lines.
ghost use Rattle.std.specs.Prelude.{◌≡◌, ◌++◌, ◌+◌, ◌*◌, ◌≤◌, length, Ok};
ghost use Rattle.text.specs.Number.{width_of};
ghost use Rattle.event_log.specs.Read.{bytes_in};
ghost use Rattle.live.specs.Prepare.{prepared_of};
ghost use Rattle.monitor.specs.Calls.{open_call};
ghost use Rattle.course.specs.Course.{course_of, Fitting};
ghost use Rattle.report.specs.Line.{Put};
ghost use Rattle.transcript.specs.Place.{placed_at, at_line};
ghost use Rattle.lamp_lines.specs.Lines.{byte_lines};
ghost use Rattle.transcript.specs.Said.{stop_text, behind_text, opened_text, played_text};

use answers::{Kind, Refusal};
use course::Went;
use lamp_lines::{put_lamps, put_refused, put_start};
use pairs::Pairs;
use plant::Plant;
use sides::Monitor;
use syntax::Rule;

// The lines of a log of the form, behind a table and a rule that were accepted.
pub fn play(
    plant: Plant,
    fair: &[u64],
    label: &[u16],
    next: &[u64],
    rule: Rule,
    log: &[u8],
    out: &mut [u8],
) -> usize
    requires { (length log.now ≤ 65520) × (229460 ≤ length out.old) }
    ensures { Put out.old 0 (played_text plant fair.now label.now next.now rule log.now) out.new result }
{
    let prepared = live::prepare(plant, fair, label, next, rule);
    if let Err(refusal) = prepared.outcome {
        return put_refused(out, 0, refusal);
    }
    from_start(plant, fair, label, next, rule, prepared.live, log, out)
}

// With the live pairs of an accepted table and rule.
fn from_start(
    plant: Plant,
    fair: &[u64],
    label: &[u16],
    next: &[u64],
    rule: Rule,
    live: Pairs,
    log: &[u8],
    out: &mut [u8],
) -> usize
    requires { ((prepared_of plant fair.now label.now next.now rule).outcome ≡ Ok tt)
        × (live ≡ (prepared_of plant fair.now label.now next.now rule).live) × (length log.now ≤ 65520) × (229460 ≤ length out.old) }
    ensures { Put out.old 0 (opened_text (bytes_in (width_of plant.props) log.now)
        (open_call plant fair.now label.now next.now rule live).answer
        (course_of plant fair.now label.now next.now rule live
        (open_call plant fair.now label.now next.now rule live).monitor log.now)) out.new result }
{
    let opened = monitor::open(plant, fair, label, next, rule, live);
    match opened.answer {
        Err(refusal) => put_refused(out, 0, refusal),
        Ok(lamp) => {
            let at = put_start(out, lamp);
            behind_start(
                plant,
                fair,
                label,
                next,
                rule,
                live,
                opened.monitor,
                log,
                at,
                out,
            )
        }
    }
}

// The log's lines, from the monitor that was opened.
fn behind_start(
    plant: Plant,
    fair: &[u64],
    label: &[u16],
    next: &[u64],
    rule: Rule,
    live: Pairs,
    monitor: Monitor,
    log: &[u8],
    at: usize,
    out: &mut [u8],
) -> usize
    requires { Fitting plant fair.now label.now next.now rule live monitor × (at ≤ 70) × (length log.now ≤ 65520) × (229460 ≤ length out.old) }
    ensures { Put out.old at (behind_text (bytes_in (width_of plant.props) log.now)
        (course_of plant fair.now label.now next.now rule live monitor log.now)) out.new result }
{
    let mut verdicts = [0u8; 3276];
    let mut lefts = [0u8; 3276];
    let mut numbers = [0u64; 3276];
    let went = course::follow(
        plant,
        fair,
        label,
        next,
        rule,
        live,
        monitor,
        log,
        &mut verdicts,
        &mut lefts,
        &mut numbers,
    );
    let offset = went.done * event_log::line_bytes(log, plant.props);
    put_went(out, at, &went, &verdicts, &lefts, &numbers, offset)
}

// The lines of the events taken, and the refusal of the one behind them, whose line is at `offset`.
fn put_went(
    out: &mut [u8],
    at: usize,
    went: &Went,
    verdicts: &[u8],
    lefts: &[u8],
    numbers: &[u64],
    offset: usize,
) -> usize
    requires { (at ≤ 70) × (went.now.done ≤ 3276) × (went.now.done ≤ length verdicts.now) × (went.now.done ≤ length lefts.now)
        × (went.now.done ≤ length numbers.now) × (229460 ≤ length out.old) }
    ensures { Put out.old at (byte_lines went.now.done verdicts.now lefts.now numbers.now ++ stop_text went.now.outcome offset) out.new result }
{
    let end = put_lamps(out, at, went.done, verdicts, lefts, numbers);
    match went.outcome {
        Ok(()) => end,
        Err(refusal) => put_refused(out, end, placed(refusal, offset)),
    }
}

// The outcome of a course, where the event behind those taken stands at `offset`.
pub fn at_line(outcome: Result<(), Refusal>, offset: usize) -> Result<(), Refusal>
    ensures { result ≡ at_line outcome offset }
{
    outcome.map_err(|refusal| placed(refusal, offset))
}

// An event is refused by 10 or 16 at its line, whose first byte is at `offset`; the call that takes it knows of no line.
fn placed(refusal: Refusal, offset: usize) -> Refusal
    ensures { result ≡ placed_at refusal offset }
{
    if matches!(refusal.kind, Kind::IllegalEvent | Kind::Number) {
        return Refusal::at(refusal.kind, offset);
    }
    refusal
}
