// The fixed machine of two texts, a table's and a rule's.
#![tactic(auto)]

ghost use Rattle.std.specs.Prelude.{◌≡◌};
ghost use Rattle.pairs.specs.declared.Pairs.{Pairs};
ghost use Rattle.sides.specs.declared.Monitor.{Monitor};
ghost use Rattle.opened.specs.Lent.{Lent};
ghost use Rattle.opened.specs.Opened.{opened_of};
ghost use Rattle.machine_texts.specs.Texts.{MadeOf, MadeFrom};

use answers::Refusal;
use fixed_machine::{Size, make_machine};
use opened::open_texts;
use plant::Table;
use syntax::Rule;

// Of a table as many parts are lent as it counts.
fn made_of(table: Table, rule: Rule, work: &mut [u64], machine: &mut [u8]) -> Result<Size, Refusal>
    requires { Lent table }
    ensures { MadeOf table rule work.old work.new machine.old machine.new result }
{
    make_machine(
        table.plant,
        &table.fair[..table.plant.just],
        &table.label[..table.plant.states],
        &table.next[..table.plant.states],
        rule,
        work,
        machine,
    )
}

// Reads a table and a rule, and writes the fixed machine that answers as their monitor does.
#[tactic(auto, using(crate::specs::Texts::read_lent))]
pub fn made_from(
    table: &[u8],
    rule: &[u8],
    work: &mut [u64],
    machine: &mut [u8],
) -> Result<Size, Refusal>
    ensures { MadeFrom (opened_of table.now rule.now) work.old work.new machine.old machine.new result }
{
    let opened = open_texts(table, rule);
    opened.outcome?;
    made_of(opened.table, opened.rule, work, machine)
}
