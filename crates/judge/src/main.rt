// A neighbour's report judged, in words: of a folder with plant.txt, rule.txt, log.txt and report.txt. It is thin as `program` is: `report_text` reads the report,
// and `judge_report` decides.
#![tactic(auto)]

use answers::{Kind, Refusal};
use files::File;
use neighbour::{Fault, Judged, judge_report};
use program::said::{put, refuse};
use report_text::states::states_at;
use report_text::{ReportParts, read_report};
use shown::Failing;
use std::rt::Files;

// The most bytes of report.txt.
const REPORT: usize = 65536;

// One state more than a run may have: so a run that is too long is refused by the call, and only where the claim needs it.
const STATES: usize = 4097;

// The folder that the argument names, or this one.
fn main(rt: HostRuntime) {
    let mut folder = files::path_buffer();
    let len = files::asked_folder(&rt, &mut folder);
    with_folder(&rt, &folder[..len]);
}

// The four files, by 14, before any of them is looked at.
fn with_folder<R: Files + Print>(rt: &R, folder: &[u8]) {
    if with_files(rt, folder).is_none() {
        refuse(rt, Refusal::at(Kind::File, 0));
    }
}

// None at the first that is not there; what lies behind it is not read.
fn with_files<R: Files + Print>(rt: &R, folder: &[u8]) -> Option<()> {
    let mut plant = [0u8; File::PLANT];
    let mut rule = [0u8; File::RULE];
    let mut log = [0u8; File::LOG];
    let mut report = [0u8; REPORT];
    let plant = text_in(rt, folder, b"plant.txt", &mut plant)?;
    let rule = text_in(rt, folder, b"rule.txt", &mut rule)?;
    let log = text_in(rt, folder, b"log.txt", &mut log)?;
    let report = text_in(rt, folder, b"report.txt", &mut report)?;
    with_text(rt, plant, without_end(rule), log, report);
    Some(())
}

// The text of a file, if it is there.
fn text_in<'a, R: Files>(
    rt: &R,
    folder: &[u8],
    name: &[u8],
    room: &'a mut [u8],
) -> Option<&'a [u8]> {
    let file = files::read_in(rt, folder, name, room);
    if file.ok {
        Some(&room[..file.len])
    } else {
        None
    }
}

// A rule's text, one final LF dropped.
fn without_end(text: &[u8]) -> &[u8] {
    text.strip_suffix(b"\n").unwrap_or(text)
}

// The form of report.txt.
fn with_text<P: Print>(to: &P, plant: &[u8], rule: &[u8], log: &[u8], text: &[u8]) {
    match read_report(text) {
        Err(place) => refuse_report(to, place),
        Ok(parts) => with_report(to, plant, rule, log, text, parts),
    }
}

// The states of the two runs, and then the call.
fn with_report<P: Print>(
    to: &P,
    plant: &[u8],
    rule: &[u8],
    log: &[u8],
    text: &[u8],
    parts: ReportParts,
) {
    let mut keep_stem = [0u8; STATES];
    let mut keep_loop = [0u8; STATES];
    let mut break_stem = [0u8; STATES];
    let mut break_loop = [0u8; STATES];
    let a = states_at(text, parts.keeping.stem, &mut keep_stem);
    let b = states_at(text, parts.keeping.turn, &mut keep_loop);
    let c = states_at(text, parts.breaking.stem, &mut break_stem);
    let d = states_at(text, parts.breaking.turn, &mut break_loop);
    let judged = judge_report(
        plant,
        rule,
        log,
        parts.claim,
        &keep_stem[..a],
        &keep_loop[..b],
        &break_stem[..c],
        &break_loop[..d],
    );
    tell(to, judged);
}

fn tell<P: Print>(to: &P, judged: Judged) {
    match judged {
        Judged::Accepted => put(to, b"accepted: the report is right\n"),
        Judged::WrongRun(fault) => tell_fault(to, fault),
        Judged::WrongVerdict => {
            put(
                to,
                b"wrong verdict: what is claimed is not what the runs of the table dictate\n",
            )
        }
        // An event is refused at the offset of its line.
        Judged::Stopped(stop) => refuse(to, stop.refusal),
        Judged::Refused(refusal) => refuse(to, refusal),
    }
}

fn tell_fault<P: Print>(to: &P, fault: Fault) {
    if fault.keeps {
        put(to, b"wrong run: the one that keeps the rule fails ");
    } else {
        put(to, b"wrong run: the one that breaks the rule fails ");
    }
    tell_failing(to, fault.failing);
}

// The rule that a run fails, and what that means.
fn tell_failing<P: Print>(to: &P, failing: Failing) {
    match failing {
        Failing::Start => put(
            to,
            b"start: it has no first state, or one that is not in the table, or that is no starting state\n",
        ),
        Failing::Moves => put(
            to,
            b"moves: its loop is empty, or a state is not in the table, or one may not be followed by the next\n",
        ),
        Failing::Fairness => put(to, b"fairness: its loop misses a fairness set\n"),
        Failing::Agreement => put(
            to,
            b"agreement: at some event its state is not as was seen\n",
        ),
        Failing::Value => put(
            to,
            b"the rule's value: from the last restart on it is of the other kind\n",
        ),
    }
}

// A text that is no report is refused as a log is, by 12 at the first byte that can't be right; the word before it says which text it is.
fn refuse_report<P: Print>(to: &P, place: usize) {
    put(to, b"report ");
    refuse(to, Refusal::at(Kind::LogText, place));
}
