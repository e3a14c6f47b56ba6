// The day sheet of a C program: 260 words that the caller keeps, all zero for the empty sheet. Any words are a sheet, since reading them is total. Where a
// word is no verdict, the sheet counts more stretches than there can be, and so every call answers 9: nothing is cut off silently.
#![tactic(auto)]

ghost use Rattle.std.specs.Prelude.{◌≡◌, ◌<◌};
ghost use Rattle.day_words.specs.Words.{verdict_of, fits_in, line_in, count_in, sheet_in, sheet_word, changed_word, with_sheet};

use answers::Verdict;
use std::array;
use stretches::{DaySheet, Stretch};

// The verdict of a number.
#[tactic(auto, unfolding(crate::specs::Words::verdict_of))]
fn verdict_of(code: u64) -> Verdict
    ensures { result ≡ verdict_of code }
{
    match code {
        0 => Verdict::Inconclusive,
        1 => Verdict::True,
        2 => Verdict::False,
        _ => Verdict::OutOfModel,
    }
}

// Whether each word of a verdict is one of the four numbers.
fn fits(words: &[u64; 260]) -> bool
    ensures { result ≡ fits_in words.now }
{
    words[129..193].iter().all(|&word| word < 4)
}

// The line of a stretch: behind the count stand all first numbers, then all counts of events, all verdicts, and all numbers at which they were decided.
fn line_in(words: &[u64; 260], k: usize) -> Stretch
    requires { k < 64 }
    ensures { result ≡ line_in words.now k }
{
    Stretch {
        first: words[1 + k],
        events: words[65 + k],
        verdict: verdict_of(words[129 + k]),
        decided: words[193 + k],
    }
}

// How many stretches are counted: more than there can be where a word is no verdict.
#[tactic(auto, unfolding(crate::specs::Words::count_in))]
fn count_in(words: &[u64; 260]) -> u64
    ensures { result ≡ count_in words.now }
{
    if fits(words) { words[0] } else { 65 }
}

// The sheet that words hold.
pub fn sheet_in(words: [u64; 260]) -> DaySheet
    ensures { result ≡ sheet_in words }
{
    DaySheet {
        count: count_in(&words) as usize,
        lines: array::from_fn(|k| line_in(&words, k)),
    }
}

// A word of a sheet, which is lent: handed over by value it would be copied for each word.
#[tactic(auto, unfolding(crate::specs::Words::sheet_word))]
fn sheet_word(sheet: &DaySheet, at: usize) -> u64
    requires { at < 257 }
    ensures { result ≡ sheet_word sheet.now at }
{
    match at {
        0 => sheet.count as u64,
        1..65 => sheet.lines[at - 1].first,
        65..129 => sheet.lines[at - 65].events,
        129..193 => u64::from(sheet.lines[at - 129].verdict.number()),
        _ => sheet.lines[at - 193].decided,
    }
}

// The words behind those of a sheet stay.
#[tactic(auto, unfolding(crate::specs::Words::changed_word))]
fn changed_word(words: &[u64; 260], sheet: &DaySheet, at: usize) -> u64
    requires { at < 260 }
    ensures { result ≡ changed_word words.now sheet.now at }
{
    if at < 257 {
        sheet_word(sheet, at)
    } else {
        words[at]
    }
}

// The same words with another sheet.
pub fn with_sheet(words: [u64; 260], sheet: DaySheet) -> [u64; 260]
    ensures { result ≡ with_sheet words sheet }
{
    array::from_fn(|at| changed_word(&words, &sheet, at))
}
