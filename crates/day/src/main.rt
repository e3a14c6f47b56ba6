// A day for the minutes: of a folder with plant.txt, log.txt, local.txt and shared.txt, the day sheet, and behind it what the day ends with, in words. The rule
// and the edition are those of the two settings sheets. It is thin as `program` is: the calls decide.
#![tactic(auto)]

ghost use Rattle.std.specs.Prelude.{◌≤◌, length};

use answers::{Kind, Refusal};
use closing::{Closed, ClosingVerdict};
use day_writer::{Length, write_sheet};
use files::File;
use minutes::note_texts;
use program::said::{put, refuse};
use settings::{SheetRefusal, ask, value_of};
use sheet::Key;
use std::rt::Files;
use stretches::DaySheet;
use transcript::texts;

// A sheet may have 1,024 bytes; of a longer one so much is read that the sheets' own check tells it.
const SHEET: usize = 1025;

// The folder that the argument names, or this one.
fn main(rt: HostRuntime) {
    let mut folder = files::path_buffer();
    let len = files::asked_folder(&rt, &mut folder);
    with_folder(&rt, &folder[..len]);
}

// plant.txt by 14, 3, 2; then the two sheets.
fn with_folder<R: Files + Print>(rt: &R, folder: &[u8]) {
    let mut plant = [0u8; File::PLANT];
    let file = files::read_in(rt, folder, b"plant.txt", &mut plant);
    let text = &plant[..file.len];
    match texts::read_plant(file.ok, text).outcome {
        Err(refusal) => refuse(rt, refusal),
        Ok(()) => with_plant(rt, folder, text),
    }
}

// Both sheets, by 14.
fn with_plant<R: Files + Print>(rt: &R, folder: &[u8], plant: &[u8]) {
    if with_both(rt, folder, plant).is_none() {
        refuse(rt, Refusal::at(Kind::File, 0));
    }
}

// None at the first that is not there; what lies behind it is not read.
fn with_both<R: Files + Print>(rt: &R, folder: &[u8], plant: &[u8]) -> Option<()> {
    let mut local = [0u8; SHEET];
    let mut shared = [0u8; SHEET];
    let local = sheet_in(rt, folder, b"local.txt", &mut local)?;
    let shared = sheet_in(rt, folder, b"shared.txt", &mut shared)?;
    with_sheets(rt, folder, plant, local, shared);
    Some(())
}

// The text of a sheet, if it is there.
fn sheet_in<'a, R: Files>(
    rt: &R,
    folder: &[u8],
    name: &[u8],
    room: &'a mut [u8],
) -> Option<&'a [u8]> {
    let file = files::read_in(rt, folder, name, room);
    if file.ok || 1024 < file.len {
        Some(&room[..file.len])
    } else {
        None
    }
}

// The rule, and then the edition of the closing verdicts.
fn with_sheets<'a, R: Files + Print>(
    rt: &R,
    folder: &[u8],
    plant: &[u8],
    local: &'a [u8],
    shared: &'a [u8],
) {
    let rule = ask(local, shared, Key::Rule);
    match rule {
        Err(refusal) => refuse_sheet(rt, refusal, b"rule "),
        Ok(_) => {
            let closing = ask(local, shared, Key::Closing);
            match closing {
                Err(refusal) => refuse_sheet(rt, refusal, b"closing "),
                Ok(_) => with_settings(
                    rt,
                    folder,
                    plant,
                    value_of(local, shared, rule),
                    value_of(local, shared, closing),
                ),
            }
        }
    }
}

// The rule by 4 to 8; then log.txt by 14.
fn with_settings<R: Files + Print>(
    rt: &R,
    folder: &[u8],
    plant: &[u8],
    rule: &[u8],
    closing: &[u8],
) {
    match opened::open_texts(plant, rule).outcome {
        Err(refusal) => refuse(rt, refusal),
        Ok(()) => with_rule(rt, folder, plant, rule, edition_of(closing)),
    }
}

fn with_rule<R: Files + Print>(rt: &R, folder: &[u8], plant: &[u8], rule: &[u8], edition: u64) {
    let mut log = [0u8; File::LOG];
    let file = files::read_in(rt, folder, b"log.txt", &mut log);
    if file.ok {
        with_log(rt, plant, rule, &log[..file.len], edition);
    } else {
        refuse(rt, Refusal::at(Kind::File, 0));
    }
}

// The log by 12, and its events by 10, 16 and 23.
fn with_log<P: Print>(to: &P, plant: &[u8], rule: &[u8], log: &[u8], edition: u64) {
    let minutes = note_texts(plant, rule, log);
    match minutes.outcome {
        Err(refusal) => refuse(to, refusal),
        Ok(()) => with_day(to, plant, rule, log, edition, minutes.sheet),
    }
}

// The edition by 21. A refusal is the whole output: no line of the day stands before it.
fn with_day<P: Print>(
    to: &P,
    plant: &[u8],
    rule: &[u8],
    log: &[u8],
    edition: u64,
    sheet: DaySheet,
) {
    match closing::close_log(plant, rule, log, edition) {
        Closed::Refused(refusal) => refuse(to, refusal),
        // An event is refused at the offset of its line.
        Closed::Stopped(stop) => refuse(to, stop.refusal),
        Closed::At(verdict) => {
            show_sheet(to, sheet);
            show_verdict(to, verdict);
        }
    }
}

// No sheet of 64 stretches has a longer text than this.
fn show_sheet<P: Print>(to: &P, sheet: DaySheet) {
    let mut text = [0u8; 6080];
    let wrote = write_sheet(sheet, &mut text);
    match wrote {
        Err(refusal) => refuse(to, refusal),
        Ok(written) => show_text(to, &text, written),
    }
}

fn show_text<P: Print>(to: &P, text: &[u8], written: Length)
    requires { written.bytes ≤ length text.now }
{
    put(to, &text[..written.bytes]);
}

// The edition that one digit names. Two digits name none that there is, so which of them it is does not matter.
fn edition_of(digits: &[u8]) -> u64 {
    match digits {
        [digit] => u64::from(digit % 16),
        _ => 99,
    }
}

fn show_verdict<P: Print>(to: &P, verdict: ClosingVerdict) {
    match verdict {
        ClosingVerdict::Inconclusive => put(to, b"closing verdict=inconclusive\n"),
        ClosingVerdict::True => put(to, b"closing verdict=true\n"),
        ClosingVerdict::False => put(to, b"closing verdict=false\n"),
        ClosingVerdict::OutOfModel => put(to, b"closing verdict=out-of-model\n"),
        ClosingVerdict::PresumablyTrue => put(to, b"closing verdict=presumably-true\n"),
        ClosingVerdict::PresumablyFalse => put(to, b"closing verdict=presumably-false\n"),
    }
}

// The sheet that is refused stands before the refusal, and else the key that neither has.
fn refuse_sheet<P: Print>(to: &P, refusal: SheetRefusal, key: &[u8]) {
    match refusal.sheet {
        1 => put(to, b"local "),
        2 => put(to, b"shared "),
        _ => put(to, key),
    }
    refuse(to, Refusal::at(refusal.kind, refusal.place));
}
