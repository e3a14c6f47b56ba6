// A table as its text.
ghost use Rattle.std.specs.Prelude.{◌≡◌};
ghost use Rattle.plant_writer.specs.Writing.{write_answer, write_buffer};
ghost use Rattle.told.specs.Told.{wrote_as};
ghost use Rattle.jugastilum.specs.Calls.{plant_from};

use plant::Plant;
use told::Answer;

// Writes the table that is handed in as its text. The counts have 64 bits here, as in any program that links this.
pub fn jug_write_table(
    props: u64,
    states: u64,
    start: u64,
    just: u64,
    fair: &[u64],
    label: &[u16],
    next: &[u64],
    text: &mut [u8],
) -> Answer
    ensures answer { result ≡ wrote_as (write_answer (plant_from props states start just) fair.now label.now next.now text.old) }
    ensures text { text.new ≡ write_buffer (plant_from props states start just) fair.now label.now next.now text.old }
{
    let plant = Plant {
        props: props as usize,
        states: states as usize,
        start,
        just: just as usize,
    };
    plant_writer::write_table(plant, fair, label, next, text).into()
}
