// Ten words of a C program's box for a log that comes in scraps: five of the part, eight bytes each, and then its length, where it begins, the form, and the
// number and place of the refusal that stands. Zeros are the radio that has heard nothing. Any words are read; whether each can stand there is told beside.
#![tactic(auto)]

ghost use Rattle.std.specs.Prelude.{◌≡◌, ◌+◌, ◌<◌};
ghost use Rattle.radio_words.specs.Words.{byte_in, part_in, form_in, standing_in, radio_in, can_stand, packed_at, form_code, standing_code, standing_place, radio_word, with_radio};

use answers::{Kind, Refusal};
use radio::{Form, Radio};
use sides::Monitor;
use std::array;

// A byte of the part: eight stand in a word, the first one lowest.
#[tactic(auto, using(crate::proofs::Bytes::byte_is), unfolding(crate::specs::Words::byte_in))]
fn byte_in(words: &[u64; 384], at: usize) -> u8
    requires { at < 40 }
    ensures { result ≡ byte_in words.now at }
{
    words[363 + at / 8].to_le_bytes()[at % 8]
}

fn part_in(words: &[u64; 384]) -> [u8; 40]
    ensures { result ≡ part_in words.now }
{
    array::from_fn(|at| byte_in(words, at))
}

#[tactic(auto, unfolding(crate::specs::Words::form_in))]
fn form_in(code: u64) -> Form
    ensures { result ≡ form_in code }
{
    match code {
        1 => Form::Plain,
        2 => Form::Numbered,
        _ => Form::Unknown,
    }
}

// What can stand is an event's refusal, 10 or 16, or a byte's, 12.
#[tactic(auto, unfolding(crate::specs::Words::standing_in))]
fn standing_in(code: u64, place: usize) -> Result<(), Refusal>
    ensures { result ≡ standing_in code place }
{
    match code {
        10 => Err(Refusal::at(Kind::IllegalEvent, place)),
        12 => Err(Refusal::at(Kind::LogText, place)),
        16 => Err(Refusal::at(Kind::Number, place)),
        _ => Ok(()),
    }
}

// What the words say, with a monitor, field by field.
#[tactic(auto, unfolding(crate::specs::Words::radio_in))]
pub fn radio_in(words: [u64; 384], monitor: Monitor) -> Radio
    ensures { result ≡ radio_in words monitor }
{
    Radio {
        part: part_in(&words),
        len: words[368] as usize,
        start: words[369] as usize,
        form: form_in(words[370]),
        standing: standing_in(words[371], words[372] as usize),
        monitor,
    }
}

// Whether they can: a form, the number of a refusal that can stand, and no place where none does. By whether a refusal stands.
#[tactic(auto, unfolding(crate::specs::Words::can_stand))]
pub fn can_stand(words: [u64; 384]) -> bool
    ensures { result ≡ can_stand words }
{
    match words[371] {
        0 => words[370] < 3 && words[372] == 0,
        10 | 12 | 16 => words[370] < 3,
        _ => false,
    }
}

// Eight bytes of the part in a word, the first one lowest.
fn packed(part: &[u8; 40], word: usize) -> u64
    requires { word < 5 }
    ensures { result ≡ packed_at part.now word }
{
    u64::from_le_bytes(array::from_fn(|i| part[8 * word + i]))
}

fn form_code(form: Form) -> u64
    ensures { result ≡ form_code form }
{
    match form {
        Form::Unknown => 0,
        Form::Plain => 1,
        Form::Numbered => 2,
    }
}

fn standing_code(standing: Result<(), Refusal>) -> u64
    ensures { result ≡ standing_code standing }
{
    match standing {
        Ok(()) => 0,
        Err(refusal) => u64::from(refusal.kind.number()),
    }
}

fn standing_place(standing: Result<(), Refusal>) -> u64
    ensures { result ≡ standing_place standing }
{
    match standing {
        Ok(()) => 0,
        Err(refusal) => refusal.place as u64,
    }
}

// One of the ten. The radio is lent: handed over by value it would be copied for each word.
#[tactic(auto, unfolding(crate::specs::Words::radio_word))]
fn radio_word(radio: &Radio, at: usize) -> u64
    ensures { result ≡ radio_word radio.now at }
{
    match at {
        0..5 => packed(&radio.part, at),
        5 => radio.len as u64,
        6 => radio.start as u64,
        7 => form_code(radio.form),
        8 => standing_code(radio.standing),
        _ => standing_place(radio.standing),
    }
}

// The same box with another radio, which is laid into a copy of the box; its monitor is not among these words.
pub fn with_radio(words: [u64; 384], radio: Radio) -> [u64; 384]
    ensures { result ≡ with_radio words radio }
{
    let laid: [u64; 10] = array::from_fn(|at| radio_word(&radio, at));
    let mut changed = words;
    changed[363..373].copy_from_slice(&laid);
    changed
}
