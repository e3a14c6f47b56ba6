// plant.txt of a folder, written anew: the same table with small digits, or why it is refused. It is thin as `program` is: the calls decide.
#![tactic(auto)]

ghost use Rattle.std.specs.Prelude.{◌≤◌, length};
ghost use Rattle.opened.specs.Lent.{Lent};

use plant::Table;
use plant_writer::Length;
use program::given::read_plant;
use program::said::{put, refuse};

// The folder that the argument names, or this one.
fn main(rt: HostRuntime) {
    let mut folder = files::path_buffer();
    let len = files::asked_folder(&rt, &mut folder);
    let read = read_plant(&rt, &folder[..len]);
    match read.outcome {
        Err(refusal) => refuse(&rt, refusal),
        Ok(()) => show_table(&rt, read.table),
    }
}

fn show_table<P: Print>(to: &P, table: Table)
    requires { Lent table }
{
    let plant = table.plant;
    let mut text = [0u8; Length::MOST];
    let wrote = plant_writer::write_table(
        plant,
        &table.fair[..plant.just],
        &table.label[..plant.states],
        &table.next[..plant.states],
        &mut text,
    );
    match wrote {
        Err(refusal) => refuse(to, refusal),
        Ok(written) => show_text(to, &text, written),
    }
}

fn show_text<P: Print>(to: &P, text: &[u8], written: Length)
    requires { written.bytes ≤ length text.now }
{
    put(to, &text[..written.bytes]);
}
