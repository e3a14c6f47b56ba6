// The program's whole output, for three texts, each there or not, in a lent buffer: what `output_of` (specs/Said) says. A program reads its files,
// calls this and writes the buffer.
#![tactic(auto)]

mod play;
pub mod texts;

ghost use Rattle.std.specs.Prelude.{◌≤◌, length};
ghost use Rattle.report.specs.Line.{Put};
ghost use Rattle.opened.specs.Lent.{Lent};
ghost use Rattle.transcript.specs.Said.{file_of, log_text, rule_text, table_text, output_of};

use lamp_lines::put_refused;
use plant::{Plant, Table};
pub use play::at_line;
use syntax::Rule;

// The bytes of the longest output: a line of at most 70 for the start, for each of 3,276 events, and for a refusal.
pub const ROOM: usize = 229460;

// The texts in their turn; the first refusal is the last line. Answers how many bytes of the buffer are the output.
pub fn write_output(
    planted: bool,
    plant: &[u8],
    ruled: bool,
    rule: &[u8],
    logged: bool,
    log: &[u8],
    out: &mut [u8],
) -> usize
    requires { (length log.now ≤ 65520) × (229460 ≤ length out.old) }
    ensures { Put out.old 0 (output_of (file_of planted plant.now) (file_of ruled rule.now) (file_of logged log.now)) out.new result }
{
    let read = texts::read_plant(planted, plant);
    if let Err(refusal) = read.outcome {
        return put_refused(out, 0, refusal);
    }
    with_table(read.table, ruled, rule, logged, log, out)
}

// Of the table, as many parts are lent as it counts.
fn with_table(
    table: Table,
    ruled: bool,
    rule: &[u8],
    logged: bool,
    log: &[u8],
    out: &mut [u8],
) -> usize
    requires { Lent table × (length log.now ≤ 65520) × (229460 ≤ length out.old) }
    ensures { Put out.old 0 (table_text table (file_of ruled rule.now) (file_of logged log.now)) out.new result }
{
    with_parts(
        table.plant,
        &table.fair[..table.plant.just],
        &table.label[..table.plant.states],
        &table.next[..table.plant.states],
        ruled,
        rule,
        logged,
        log,
        out,
    )
}

fn with_parts(
    plant: Plant,
    fair: &[u64],
    label: &[u16],
    next: &[u64],
    ruled: bool,
    text: &[u8],
    logged: bool,
    log: &[u8],
    out: &mut [u8],
) -> usize
    requires { (length log.now ≤ 65520) × (229460 ≤ length out.old) }
    ensures { Put out.old 0 (rule_text plant fair.now label.now next.now
        (file_of ruled text.now) (file_of logged log.now)) out.new result }
{
    let read = texts::read_rule(plant, fair, label, next, ruled, text);
    if let Err(refusal) = read.outcome {
        return put_refused(out, 0, refusal);
    }
    with_rule(plant, fair, label, next, read.rule, logged, log, out)
}

// The form of the log comes before any lamp.
fn with_rule(
    plant: Plant,
    fair: &[u64],
    label: &[u16],
    next: &[u64],
    rule: Rule,
    ok: bool,
    log: &[u8],
    out: &mut [u8],
) -> usize
    requires { (length log.now ≤ 65520) × (229460 ≤ length out.old) }
    ensures { Put out.old 0 (log_text plant fair.now label.now next.now rule (file_of ok log.now)) out.new result }
{
    if let Err(refusal) = texts::check_log(ok, log, plant.props) {
        return put_refused(out, 0, refusal);
    }
    play::play(plant, fair, label, next, rule, log, out)
}
