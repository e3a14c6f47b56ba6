// The three files of a folder: plant.txt, rule.txt and log.txt, each read and checked in turn, up to the first refusal.
ghost use Rattle.io.specs.Counts.{IsPrefixLen};
ghost use Rattle.opened.specs.Lent.{Lent};

use answers::Refusal;
use plant::Table;
use program::given::{read_plant, read_rule};
use std::rt::Files;
use syntax::Rule;
use transcript::texts;

// The table, the rule, and how many bytes of the lent buffer are the log. With a refusal, what was not read is empty.
#[derive(Clone, Copy)]
pub struct Given {
    pub outcome: Result<(), Refusal>,
    pub table: Table,
    pub rule: Rule,
    pub len: usize,
}

pub fn read_given<R: Files>(rt: &R, folder: &[u8], text: &mut [u8]) -> Given
    ensures table { Lent result.table }
    ensures log { IsPrefixLen result.len text.new }
{
    let read = read_plant(rt, folder);
    match read.outcome {
        Err(refusal) => none_of(refusal, read.table, Rule::empty(), text),
        Ok(()) => with_table(rt, folder, read.table, text),
    }
}

// rule.txt, and what follows.
fn with_table<R: Files>(rt: &R, folder: &[u8], table: Table, text: &mut [u8]) -> Given
    requires { Lent table }
    ensures table { Lent result.table }
    ensures log { IsPrefixLen result.len text.new }
{
    let plant = table.plant;
    let read = read_rule(
        rt,
        folder,
        plant,
        &table.fair[..plant.just],
        &table.label[..plant.states],
        &table.next[..plant.states],
    );
    match read.outcome {
        Err(refusal) => none_of(refusal, table, read.rule, text),
        Ok(()) => with_rule(rt, folder, table, read.rule, text),
    }
}

// log.txt, and its form.
fn with_rule<R: Files>(rt: &R, folder: &[u8], table: Table, rule: Rule, text: &mut [u8]) -> Given
    requires { Lent table }
    ensures table { Lent result.table }
    ensures log { IsPrefixLen result.len text.new }
{
    let file = files::read_in(rt, folder, b"log.txt", text);
    Given {
        outcome: texts::check_log(file.ok, &text[..file.len], table.plant.props),
        table,
        rule,
        len: file.len,
    }
}

// No log beside a refusal.
fn none_of(refusal: Refusal, table: Table, rule: Rule, text: &[u8]) -> Given
    requires { Lent table }
    ensures table { Lent result.table }
    ensures log { IsPrefixLen result.len text.now }
{
    Given {
        outcome: Err(refusal),
        table,
        rule,
        len: 0,
    }
}
