// A table and a rule, both as texts, as every call on a whole log begins: read, the live set prepared, the monitor opened.
#![tactic(auto)]

ghost use Rattle.std.specs.Prelude.{◌≡◌};
ghost use Rattle.opened.specs.Lent.{Lent};
ghost use Rattle.opened.specs.Opened.{not_opened, rule_opened, parts_opened, table_opened, opened_of};

use answers::Refusal;
use pairs::Pairs;
use plant::Table;
use sides::Monitor;
use syntax::Rule;

// Accepted, and what was read and made of the texts; or the refusal, and beside it nothing but zeros.
#[derive(Clone, Copy)]
pub struct Opened {
    pub outcome: Result<(), Refusal>,
    pub table: Table,
    pub rule: Rule,
    pub live: Pairs,
    pub monitor: Monitor,
}

impl Opened {
    fn refused(refusal: Refusal) -> Self
        ensures { result ≡ not_opened refusal }
    {
        Opened {
            outcome: Err(refusal),
            table: Table::EMPTY,
            rule: Rule::empty(),
            live: Pairs::EMPTY,
            monitor: Monitor::NONE,
        }
    }
}

// Refusals 3, 2 of the table's text, and then 4 to 8 of the rule's.
#[tactic(auto, using(crate::specs::Lent::lent), unfolding(crate::specs::Opened::opened_of))]
pub fn open_texts(table: &[u8], rule: &[u8]) -> Opened
    ensures { result ≡ opened_of table.now rule.now }
{
    let read = plant::read_table(table);
    match read.outcome {
        Err(refusal) => Opened::refused(refusal),
        Ok(()) => with_table(read.table, rule),
    }
}

// Of the table, as many parts are lent as it counts.
fn with_table(table: Table, rule: &[u8]) -> Opened
    requires { Lent table }
    ensures { result ≡ table_opened table rule.now }
{
    let plant = table.plant;
    with_parts(
        table,
        &table.fair[..plant.just],
        &table.label[..plant.states],
        &table.next[..plant.states],
        rule,
    )
}

#[tactic(auto, unfolding(crate::specs::Opened::parts_opened))]
fn with_parts(table: Table, fair: &[u64], label: &[u16], next: &[u64], text: &[u8]) -> Opened
    ensures { result ≡ parts_opened table fair.now label.now next.now text.now }
{
    let read = rule::read_rule(table.plant, fair, label, next, text);
    match read.outcome {
        Err(refusal) => Opened::refused(refusal),
        Ok(()) => with_rule(table, fair, label, next, read.rule),
    }
}

// What `prepare` accepts, `open` opens.
#[tactic(auto, unfolding(crate::specs::Opened::rule_opened))]
fn with_rule(table: Table, fair: &[u64], label: &[u16], next: &[u64], rule: Rule) -> Opened
    ensures { result ≡ rule_opened table fair.now label.now next.now rule }
{
    let prepared = live::prepare(table.plant, fair, label, next, rule);
    match prepared.outcome {
        Err(refusal) => Opened::refused(refusal),
        Ok(()) => {
            let opened = monitor::open(table.plant, fair, label, next, rule, prepared.live);
            Opened {
                outcome: Ok(()),
                table,
                rule,
                live: prepared.live,
                monitor: opened.monitor,
            }
        }
    }
}
