// How runs go on in the marked examples of 01, M1 to M10, and in P, the program's own: two lines at the start and two at the end of each log.
#![tactic(auto)]

use plant::Plant;

// Plant W (01, The plant table), whose fairness sets and moves an example may change.
fn show<P: Print>(to: &P, name: &[u8], fair: &[u64], next: &[u64], text: &[u8], events: &[u8]) {
    let plant = Plant {
        props: 2,
        states: 3,
        start: 1,
        just: fair.len(),
    };
    let label = [0u16, 1, 2];
    let read = rule::read_rule(plant, fair, &label, next, text);
    if let Ok(()) = read.outcome {
        outlook::show_end(to, name, plant, fair, &label, next, read.rule, events);
    }
}

fn on_w<P: Print>(to: &P, name: &[u8], text: &[u8], events: &[u8]) {
    let fair = [0u64];
    let next = [3u64, 6, 5];
    show(to, name, &fair[..0], &next, text, events);
}

fn without_events<P: Print>(to: &P) {
    on_w(to, b"M1 start ", b"1", b"");
    on_w(to, b"M2 start ", b"G(p0->Fp1)", b"");
    let fair = [5u64];
    let next = [3u64, 6, 5];
    show(to, b"M3 start ", &fair, &next, b"G(p0->Fp1)", b"");
}

fn three_events<P: Print>(to: &P) {
    let events = b"see=03 val=00 new=0\nsee=03 val=01 new=0\nsee=03 val=02 new=0\n";
    on_w(to, b"M4 start ", b"Fp1", b"");
    on_w(to, b"M4 n=2 ", b"Fp1", events);
    on_w(to, b"M5 start ", b"G!p1", b"");
    on_w(to, b"M5 n=2 ", b"G!p1", events);
}

fn two_events<P: Print>(to: &P) {
    on_w(to, b"M6 start ", b"p0R!p1", b"");
    on_w(to, b"M7 start ", b"Xp0", b"");
    on_w(
        to,
        b"M7 n=1 ",
        b"Xp0",
        b"see=03 val=00 new=0\nsee=03 val=00 new=0\n",
    );
    on_w(to, b"M8 start ", b"Fp1", b"");
    on_w(
        to,
        b"M8 n=1 ",
        b"Fp1",
        b"see=03 val=00 new=0\nsee=03 val=03 new=0\n",
    );
}

fn restart_and_dead_ends<P: Print>(to: &P) {
    on_w(to, b"M9 start ", b"Fp1", b"");
    on_w(
        to,
        b"M9 n=2 ",
        b"Fp1",
        b"see=03 val=00 new=0\nsee=03 val=03 new=0\nsee=03 val=00 new=1\n",
    );
    let fair = [0u64];
    let next = [0u64, 0, 0];
    show(to, b"M10 start ", &fair[..0], &next, b"1", b"");
}

fn program_example<P: Print>(to: &P) {
    on_w(to, b"P start ", b"Fp0", b"");
    on_w(to, b"P n=0 ", b"Fp0", b"see=03 val=00 new=0\n");
    on_w(
        to,
        b"P n=1 ",
        b"Fp0",
        b"see=03 val=00 new=0\nsee=00 val=00 new=0\n",
    );
    on_w(
        to,
        b"P n=2 ",
        b"Fp0",
        b"see=03 val=00 new=0\nsee=00 val=00 new=0\nsee=02 val=02 new=0\n",
    );
}

fn main(rt: HostRuntime) {
    without_events(&rt);
    three_events(&rt);
    two_events(&rt);
    restart_and_dead_ends(&rt);
    program_example(&rt);
}
