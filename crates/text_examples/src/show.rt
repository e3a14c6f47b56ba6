// What the calls answer, in lines.
use answers::Refusal;
use event_log::{Event, Num};
use plant::Plant;
use program::said::{put_decimal, put_hex};

pub fn put<P: Print>(to: &P, bytes: &[u8]) {
    program::said::put(to, bytes);
}

pub fn digits<P: Print>(to: &P, n: usize) {
    put_decimal(to, n as u64);
}

pub fn end<P: Print>(to: &P) {
    put(to, b"\n");
}

// A number behind its name.
fn number<P: Print>(to: &P, name: &[u8], n: usize) {
    put(to, name);
    digits(to, n);
}

fn set<P: Print>(to: &P, x: u64) {
    put(to, b" ");
    put_hex(to, x);
}

// `ok`, or the refusal's number and place.
pub fn tell<P: Print>(to: &P, outcome: Result<(), Refusal>) {
    match outcome {
        Ok(()) => put(to, b" ok"),
        Err(refusal) => {
            number(to, b" ", usize::from(refusal.kind.number()));
            number(to, b"@", refusal.place);
        }
    }
}

// Sets behind their name, of states or of propositions.
fn sets<P: Print, T: Copy + Into<u64>>(to: &P, name: &[u8], list: &[T]) {
    put(to, name);
    for &x in list {
        set(to, x.into());
    }
    end(to);
}

fn counts<P: Print>(to: &P, plant: Plant) {
    number(to, b"props=", plant.props);
    number(to, b" states=", plant.states);
    number(to, b" just=", plant.just);
    put(to, b" start");
    set(to, plant.start);
}

// The outcome of a table's text, and the whole table that stands beside it.
pub fn table<P: Print>(to: &P, text: &[u8]) {
    let read = plant::read_table(text);
    tell(to, read.outcome);
    end(to);
    counts(to, read.table.plant);
    end(to);
    sets(to, b"j", &read.table.fair);
    sets(to, b"label", &read.table.label);
    sets(to, b"next", &read.table.next);
}

fn event<P: Print>(to: &P, text: &[u8], line: usize, props: usize) {
    let event = event_log::event_at(text, line, props);
    put(to, b" ");
    if let Num::Given(n) = event.num {
        digits(to, n as usize);
        put(to, b":");
    }
    digits(to, usize::from(event.see));
    number(to, b"/", usize::from(event.val));
    if event.new {
        put(to, b"/new");
    }
}

// The outcome of a log's text for so many propositions, its number of lines, and the events of its first four lines.
pub fn log<P: Print>(to: &P, text: &[u8], props: usize) {
    let read = event_log::read_log(text, props);
    tell(to, read.outcome);
    number(to, b" lines=", read.lines);
    for line in 0..4 {
        event(to, text, line, props);
    }
    end(to);
}

// Number k of the case.
fn told(text: &[u8], k: usize) -> usize {
    cases::number(cases::field(text, b' ', k))
}

// The outcome for counts handed in, beside the parts of a table of one state with four fairness sets.
pub fn handed<P: Print>(to: &P, text: &[u8]) {
    let plant = Plant {
        props: told(text, 0),
        states: told(text, 1),
        start: told(text, 2) as u64,
        just: told(text, 3),
    };
    let fair = [1u64; 4];
    let label = [1u16; 1];
    let next = [1u64; 1];
    counts(to, plant);
    tell(to, plant::check_table(plant, &fair, &label, &next));
    end(to);
}

// A number of the case, as a set of propositions.
fn set_told(text: &[u8], k: usize) -> u16 {
    (told(text, k) % 65536) as u16
}

pub fn legal<P: Print>(to: &P, text: &[u8]) {
    let event = Event {
        num: Num::Expected,
        see: set_told(text, 0),
        val: set_told(text, 1),
        new: false,
    };
    if event_log::is_legal(event, told(text, 2)) {
        put(to, b" legal\n");
    } else {
        put(to, b" not legal\n");
    }
}
