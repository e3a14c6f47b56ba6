// Of a table as many parts are lent as it counts, and all of them where it counts more: then a call answers 1.
ghost use Rattle.std.specs.Prelude.{◌≡◌, take};
ghost use Rattle.io.specs.Counts.{IsPrefixLen};
ghost use Rattle.opened.specs.Opened.{fair_in, label_in, next_in};

use plant::{Plant, Table};

pub fn fairs_of(table: Table) -> usize
    ensures { IsPrefixLen result table.fair × (take result table.fair ≡ fair_in table) }
{
    table.plant.just.min(Plant::JUST)
}

pub fn states_of(table: Table) -> usize
    ensures labels { IsPrefixLen result table.label × (take result table.label ≡ label_in table) }
    ensures next { IsPrefixLen result table.next × (take result table.next ≡ next_in table) }
{
    table.plant.states.min(Plant::STATES)
}
