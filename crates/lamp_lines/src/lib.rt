// The program's lines, of lamps and of a refusal, put into a lent buffer one behind the other. Each answer is where the text ends.
#![tactic(auto)]

ghost use Rattle.std.specs.Prelude.{◌≡◌, ◌+◌, ◌*◌, ◌≤◌, length, take};
ghost use Rattle.io.specs.Counts.{IsPrefixLen};
ghost use Rattle.report.specs.Line.{Put};
ghost use Rattle.report.specs.Text.{refused_text, start_text, lamp_text};
ghost use Rattle.lamp_lines.specs.Lines.{numbered, lamp_of, byte_lines};

use answers::{Lamp, Refusal, Verdict};
use report::Line;

fn put_line(out: &mut [u8], at: usize, line: Line) -> usize
    requires { IsPrefixLen line.len line.bytes × (at + 70 ≤ length out.old) }
    ensures text { Put out.old at (take line.len line.bytes) out.new result }
    ensures bound { result ≤ at + 70 }
{
    writing::put_text(out, at, &line.bytes[..line.len])
}

// The line of a refusal.
pub fn put_refused(out: &mut [u8], at: usize, refusal: Refusal) -> usize
    requires { at + 70 ≤ length out.old }
    ensures { Put out.old at (refused_text refusal) out.new result }
{
    put_line(out, at, report::refused_line(refusal))
}

// The line of the start, at the buffer's beginning.
pub fn put_start(out: &mut [u8], lamp: Lamp) -> usize
    requires { 70 ≤ length out.old }
    ensures text { Put out.old 0 (start_text lamp) out.new result }
    ensures bound { result ≤ 70 }
{
    put_line(out, 0, report::start_line(lamp))
}

fn verdict_of(number: u8) -> Verdict
    ensures { result ≡ numbered number }
{
    match number {
        Verdict::INCONCLUSIVE => Verdict::Inconclusive,
        Verdict::TRUE => Verdict::True,
        Verdict::FALSE => Verdict::False,
        _ => Verdict::OutOfModel,
    }
}

fn put_lamp(out: &mut [u8], at: usize, number: u64, verdict: u8, left: u8) -> usize
    requires { at + 70 ≤ length out.old }
    ensures text { Put out.old at (lamp_text number (lamp_of verdict left)) out.new result }
    ensures bound { result ≤ at + 70 }
{
    let lamp = Lamp {
        verdict: verdict_of(verdict),
        left: usize::from(left),
    };
    put_line(out, at, report::lamp_line(number as usize, lamp))
}

// The lines of `done` events.
pub fn put_lamps(
    out: &mut [u8],
    at: usize,
    done: usize,
    verdicts: &[u8],
    lefts: &[u8],
    numbers: &[u64],
) -> usize
    requires { (done ≤ length verdicts.now) × (done ≤ length lefts.now) × (done ≤ length numbers.now) × (at + 70 * done ≤ length out.old) }
    ensures text { Put out.old at (byte_lines done verdicts.now lefts.now numbers.now) out.new result }
    ensures bound { result ≤ at + 70 * done }
{
    let mut end = at;
    for n in 0..done {
        end = put_lamp(out, end, numbers[n], verdicts[n], lefts[n]);
    }
    end
}
