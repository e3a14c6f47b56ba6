// The rule as a small fixed machine: a table of bytes, by which a controller knows the lamp with one look-up for each event. It answers as the monitor does, and
// has no row that could be spared.
#![tactic(auto)]

ghost use Rattle.std.specs.Prelude.{◌≡◌, ◌+◌, ◌*◌, ◌<◌, ◌≤◌, length, replicate};
ghost use Rattle.truth.specs.Ready.{Ready};
ghost use Rattle.machines.specs.Machine.{Proper};
ghost use Rattle.machines.specs.Joined.{joined};
ghost use Rattle.fixed_machine.specs.Worked.{Laid, machine_in, WorkedIn, WorkedOn};
ghost use Rattle.fixed_machine.specs.Machined.{Machined};

use answers::{Kind, Refusal};
use explored::{explore, read_outputs};
use joined::numbers::join;
use machine_bytes::write_table;
use pairs::Pairs;
use plant::Plant;
use sides::Monitor;
use sides::opening::opened;
use syntax::Rule;
use ways::{Ways, ways_of};

// How many rows the machine has, and how many bytes each row.
#[derive(Clone, Copy)]
pub struct Size {
    pub rows: usize,
    pub bytes: usize,
}

impl Size {
    // The most propositions, and the most states before rows are joined.
    pub const PROPS: usize = 3;

    pub const STATES: usize = 256;

    // The fewest words to work in.
    pub const WORDS: usize = 49152;
}

// The rows found, joined and written; 11 where they find no room.
fn lay(room: &[u64], n: usize, c: usize, machine: &mut [u8]) -> Result<Size, Refusal>
    requires { (n ≤ 256) × (1 ≤ c) × (c ≤ 54) × (33280 ≤ length room.now) × Proper c (machine_in room.now n c) }
    ensures { Laid c (joined c (machine_in room.now n c)) machine.old machine.new result }
{
    let mut outputs = [0u64; 256];
    let mut class = [0u64; 256];
    let mut fresh = [0u64; 256];
    read_outputs(room, n, &mut outputs);
    let cells = &room[explored::CELLS..];
    let count = join(&outputs, cells, n, c, &mut class, &mut fresh) as usize;
    let bytes = c + 2;
    if machine.len() < count * bytes {
        return Err(Refusal::at(Kind::Room, 0));
    }
    write_table(&outputs, cells, n, c, &class, count, machine);
    Ok(Size { rows: count, bytes })
}

// Found, joined and written, from the opening on; 15 where more than 256 states are reached. The words end 0 either way.
fn work_in(
    label: &[u16],
    next: &[u64],
    ways: Ways,
    live: Pairs,
    first: Monitor,
    c: usize,
    work: &mut [u64],
    machine: &mut [u8],
) -> Result<Size, Refusal>
    requires { ((length label.now ≤ 64) × (ways.count ≤ 64)) × (1 ≤ c) × (c ≤ 54) × (49152 ≤ length work.old) }
    ensures made { WorkedIn label.now next.now ways live.words first c machine.old machine.new result }
    ensures words { work.new ≡ replicate (length work.old) 0 }
{
    let n = explore(label, next, ways, live, first, c, work);
    let made = if n == 0 {
        Err(Refusal::at(Kind::Rows, 0))
    } else {
        lay(work, n, c, machine)
    };
    work.fill(0);
    made
}

// With what the rule says, worked out once.
fn work_on(
    plant: Plant,
    label: &[u16],
    next: &[u64],
    rule: Rule,
    live: Pairs,
    work: &mut [u64],
    machine: &mut [u8],
) -> Result<Size, Refusal>
    requires { Ready label.now rule × (49152 ≤ length work.old) }
    ensures made { WorkedOn plant.start plant.props label.now next.now rule live.words machine.old machine.new result }
    ensures words { work.new ≡ replicate (length work.old) 0 }
{
    let ways = ways_of(label, rule);
    let first = opened(plant.start, &ways.holds, &live.words);
    work_in(
        label,
        next,
        ways,
        live,
        first,
        columns::count(plant.props),
        work,
        machine,
    )
}

// Checks 1, 2, 9 and 11; then 15, and 11 again where the machine finds no room.
pub fn make_machine(
    plant: Plant,
    fair: &[u64],
    label: &[u16],
    next: &[u64],
    rule: Rule,
    work: &mut [u64],
    machine: &mut [u8],
) -> Result<Size, Refusal>
    ensures { Machined plant fair.now label.now next.now rule work.old work.new machine.old machine.new result }
{
    if Size::PROPS < plant.props {
        return Err(Refusal::at(Kind::Counts, 0));
    }
    let prepared = live::prepare(plant, fair, label, next, rule);
    prepared.outcome?;
    if work.len() < Size::WORDS {
        return Err(Refusal::at(Kind::Room, 0));
    }
    work_on(plant, label, next, rule, prepared.live, work, machine)
}
