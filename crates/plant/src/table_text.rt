// Reads a table text line by line. The lines never fail: the cursor tells at the end how far the text fits.
ghost use Rattle.std.specs.Prelude.{◌≡◌, [], ◌+◌, ◌≤◌, ◌<◌, length};
ghost use Rattle.plant.specs.Text.{key_slots};
ghost use Rattle.plant.specs.Lines.{IsCountLine, IsHexLine, IsFair, IsRows};
ghost use Rattle.plant.specs.Read.{lent_check, refused_read, IsParsed, table_read};

use crate::{Plant, Table, TableRead, check_table};
use answers::{Kind, Refusal};
use text::{Cursor, Reading, count, expect, expect_all, expect_count, hex, width_of};

// The fairness sets, and the cursor behind them.
#[derive(Clone, Copy, Debug, PartialEq, Eq)]
struct Fair {
    words: [u64; 4],
    end: Cursor,
}

// The labels and sets of next states, and the cursor behind them.
#[derive(Clone, Copy, Debug, PartialEq, Eq)]
struct Rows {
    label: [u16; 64],
    next: [u64; 64],
    end: Cursor,
}

// The table that the text gives if it is of the form, and how far it is.
#[derive(Clone, Copy, Debug, PartialEq, Eq)]
struct Parsed {
    table: Table,
    end: Cursor,
}

// A key, a count and LF.
fn count_line(text: &[u8], c: Cursor, key: &[u8], lo: usize, hi: usize) -> Reading<usize>
    requires { (lo ≤ 1) × (lo ≤ hi) × (hi < 100) × (length key.now ≤ 8) × (c.at < 100000) }
    ensures { IsCountLine text.now c key.now lo hi result.value result.next }
{
    count(text, expect_all(text, c, key), b'\n', lo, hi)
}

// Behind a key: a number of so many hexadecimal digits and LF.
fn hex_end(text: &[u8], c: Cursor, width: usize) -> Reading<u64>
    requires { (width ≤ 16) × (c.at < 200000) }
    ensures { IsHexLine text.now c [] width result.value result.next × (result.next.at ≤ c.at + 17) }
{
    let n = hex(text, c, width);
    Reading {
        value: n.value,
        next: expect(text, n.next, b'\n'),
    }
}

// A name, a number below 100, `=`, and such a number.
fn field(text: &[u8], c: Cursor, name: &[u8], k: usize, width: usize) -> Reading<u64>
    requires { (k < 100) × (width ≤ 16) × (length name.now ≤ 8) × (c.at < 100000) }
    ensures { IsHexLine text.now c (key_slots name.now k) width result.value result.next × (result.next.at ≤ c.at + 28) }
{
    let d = expect_all(text, c, name);
    let e = expect_count(text, d, b'=', k);
    hex_end(text, e, width)
}

// The lines `j0` and up.
fn read_fair(text: &[u8], c: Cursor, n: usize) -> Fair
    requires { (n ≤ 4) × (c.at < 10000) }
    ensures { IsFair text.now c n result.words result.end }
{
    let mut words = [0; 4];
    let mut end = c;
    for k in 0..n {
        let set = field(text, end, b"j", k, 16);
        words[k] = set.value;
        end = set.next;
    }
    Fair { words, end }
}

// The lines `label` and `next` of each state, labels of so many digits.
fn read_rows(text: &[u8], c: Cursor, width: usize, n: usize) -> Rows
    requires { (n ≤ 64) × (c.at < 20000) × (width ≤ 4) }
    ensures { IsRows text.now c width n result.label result.next result.end }
{
    let mut label = [0; 64];
    let mut next = [0; 64];
    let mut end = c;
    for k in 0..n {
        let props = field(text, end, b"label", k, width);
        let states = field(text, props.next, b"next", k, 16);
        label[k] = props.value as u16;
        next[k] = states.value;
        end = states.next;
    }
    Rows { label, next, end }
}

// All lines, one after the other.
fn parse(text: &[u8]) -> Parsed
    ensures { IsParsed text.now result.table result.end }
{
    let props = count_line(text, Cursor::START, b"props=", 1, Plant::PROPS);
    let states = count_line(text, props.next, b"states=", 1, Plant::STATES);
    let key = expect_all(text, states.next, b"start=");
    let start = hex_end(text, key, 16);
    let just = count_line(text, start.next, b"just=", 0, Plant::JUST);
    let Fair { words: fair, end } = read_fair(text, just.next, just.value);
    let width = width_of(props.value);
    let Rows { label, next, end } = read_rows(text, end, width, states.value);
    let plant = Plant {
        props: props.value,
        states: states.value,
        start: start.value,
        just: just.value,
    };
    let table = Table {
        plant,
        fair,
        label,
        next,
    };
    Parsed { table, end }
}

// The check of a table that was read, its parts lent.
fn check_read(table: Table) -> Result<(), Refusal>
    requires { (table.plant.just ≤ 4) × (table.plant.states ≤ 64) }
    ensures { result ≡ lent_check table }
{
    let Plant { just, states, .. } = table.plant;
    check_table(
        table.plant,
        &table.fair[..just],
        &table.label[..states],
        &table.next[..states],
    )
}

fn refused(refusal: Refusal) -> TableRead
    ensures { result ≡ refused_read refusal }
{
    TableRead {
        outcome: Err(refusal),
        table: Table::EMPTY,
    }
}

// Reads a plant table. A text not of the form is refused by 3, a bit beyond the counts by 2.
pub fn read_table(text: &[u8]) -> TableRead
    ensures { result ≡ table_read text.now }
{
    let Parsed { table, end } = parse(text);
    if end.good < end.at || end.at < text.len() {
        return refused(Refusal::at(Kind::TableText, end.good));
    }
    let outcome = check_read(table);
    match outcome {
        Ok(()) => TableRead { outcome, table },
        Err(refusal) => refused(refusal),
    }
}
