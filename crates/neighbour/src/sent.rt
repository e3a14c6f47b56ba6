// A report as it was sent: the claimed verdict, and a complete run of each kind.
ghost use Rattle.std.specs.Prelude.{◌≡◌, ◌+◌, ◌≤◌, ltb, length};
ghost use Rattle.neighbour.specs.Report.{joined_of, shown_of, needs_of, too_long, report_checked};

use answers::{Kind, Refusal, Verdict};
use writing::put_text;

// A run that is shown: its states, the stem's and then the loop's, and how many they are. Of one that is too long nothing is kept.
#[derive(Clone, Copy)]
pub struct ShownRun {
    pub long: bool,
    pub states: [u8; 4096],
    pub stem: usize,
    pub len: usize,
}

impl ShownRun {
    // The most states of a run, stem and loop together.
    pub const MOST: usize = 4096;

    pub const NONE: ShownRun = ShownRun {
        long: true,
        states: [0; 4096],
        stem: 0,
        len: 0,
    };

    // The two parts one behind the other, where they are not too long.
    pub fn of(stem: &[u8], turn: &[u8]) -> Self
        ensures { result ≡ shown_of stem.now turn.now }
    {
        if is_long(stem.len(), turn.len()) {
            return ShownRun::NONE;
        }
        joined(stem, turn)
    }
}

// Whether two parts have more states together than a run may have.
fn is_long(stem: usize, turn: usize) -> bool
    ensures { result ≡ ltb 4096 (stem + turn) }
{
    ShownRun::MOST < stem || ShownRun::MOST - stem < turn
}

// The loop behind the stem.
fn joined(stem: &[u8], turn: &[u8]) -> ShownRun
    requires { length stem.now + length turn.now ≤ 4096 }
    ensures { result ≡ joined_of stem.now turn.now }
{
    let mut states = [0u8; 4096];
    let first = put_text(&mut states, 0, stem);
    let len = put_text(&mut states, first, turn);
    ShownRun {
        long: false,
        states,
        stem: first,
        len,
    }
}

#[derive(Clone, Copy)]
pub struct Report {
    pub claim: u8,
    pub keeping: ShownRun,
    pub breaking: ShownRun,
}

// Whether a claim needs a run of the kind: that it is inconclusive needs both, and that it is true or false the one of that kind.
#[tactic(auto, unfolding(crate::specs::Report::needs_of))]
pub fn needs(claim: u8, keeps: bool) -> bool
    ensures { result ≡ needs_of claim keeps }
{
    let of_kind = if keeps { Verdict::TRUE } else { Verdict::FALSE };
    claim == Verdict::INCONCLUSIVE || claim == of_kind
}

// Whether a run that is needed is too long.
#[tactic(auto, unfolding(crate::specs::Report::too_long))]
fn too_long(claim: u8, keeping: bool, breaking: bool) -> bool
    ensures { result ≡ too_long claim keeping breaking }
{
    keeping && needs(claim, true) || breaking && needs(claim, false)
}

// 9 for a claim that is no verdict's number, and 22 for a run that is needed and too long.
pub fn check_report(claim: u8, keeping: bool, breaking: bool) -> Result<(), Refusal>
    ensures { result ≡ report_checked claim keeping breaking }
{
    if Verdict::OUT_OF_MODEL < claim {
        return Err(Refusal::at(Kind::Value, 0));
    }
    if too_long(claim, keeping, breaking) {
        return Err(Refusal::at(Kind::RunLength, 0));
    }
    Ok(())
}
