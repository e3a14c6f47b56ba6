// The value of a key, by the parish's own sheet before the shared one, handed back as a part of that sheet.
#![tactic(auto)]

ghost use Rattle.std.specs.Prelude.{◌≡◌, ◌+◌, ◌≤◌};
ghost use Rattle.sheet.specs.Where.{length_of, line_length, start_of, Few};
ghost use Rattle.settings.specs.Part.{IsPart, shifted, fitting, bytes_at};
ghost use Rattle.settings.specs.Asked.{spot_in, chosen, asked, spot_of};

use answers::Kind;
use sheet::{Key, Lines};

// Where a value stands: in sheet 1, the local one, or 2, the shared one, from a place up to another.
#[derive(Clone, Copy)]
pub struct Spot {
    pub sheet: u8,
    pub from: usize,
    pub upto: usize,
}

// Why no value is given: the refusal's kind, the sheet that it is about (0: none), and the place in it.
#[derive(Clone, Copy)]
pub struct SheetRefusal {
    pub kind: Kind,
    pub sheet: u8,
    pub place: usize,
}

// The answer, and beside it the bytes at its spot; none beside a refusal.
#[derive(Clone, Copy)]
pub struct Setting<'a> {
    pub answer: Result<Spot, SheetRefusal>,
    pub bytes: &'a [u8],
}

// How long a key's value is, 0 where it has no line.
fn length_of(lines: Lines, key: Key) -> usize
    ensures { result ≡ length_of key lines }
{
    match key {
        Key::Edition => lines.edition,
        Key::Rule => lines.rule,
        Key::Closing => lines.closing,
    }
}

// How long a line is whose key has `key` bytes, and whose value has `value`.
fn line_length(key: usize, value: usize) -> usize
    requires { (key ≤ 8) × (value ≤ 1024) }
    ensures { (result ≡ line_length key value) × (result ≤ key + value + 1) }
{
    if value == 0 {
        return 0;
    }
    key + value + 1
}

// Where a key's value begins.
fn from_of(lines: Lines, key: Key) -> usize
    requires { Few lines }
    ensures { (result ≡ start_of key lines) × (result ≤ 4096) }
{
    match key {
        Key::Edition => 8,
        Key::Rule => line_length(8, lines.edition) + 5,
        Key::Closing => line_length(8, lines.edition) + line_length(5, lines.rule) + 8,
    }
}

// The spot of a key's value in the sheet n, of which the lines are known.
fn spot_in(n: u8, lines: Lines, key: Key) -> Spot
    requires { Few lines }
    ensures { result ≡ spot_in n key lines }
{
    let from = from_of(lines, key);
    Spot {
        sheet: n,
        from,
        upto: from + length_of(lines, key),
    }
}

// The answer of two sheets of which the lines are known.
#[tactic(auto, unfolding(crate::specs::Asked::chosen))]
fn choose(own: Lines, common: Lines, key: Key) -> Result<Spot, SheetRefusal>
    requires { Few own × Few common }
    ensures { result ≡ chosen own common key }
{
    if length_of(own, key) != 0 {
        return Ok(spot_in(1, own, key));
    }
    if length_of(common, key) != 0 {
        return Ok(spot_in(2, common, key));
    }
    Err(SheetRefusal {
        kind: Kind::NoKey,
        sheet: 0,
        place: 0,
    })
}

// Where the value of a key stands, or the refusal: 18 for the local sheet, 18 for the shared one, then 17.
#[tactic(auto, using(sheet::proofs::Where::scan_few), unfolding(crate::specs::Asked::asked))]
pub fn ask<'a>(local: &'a [u8], shared: &'a [u8], key: Key) -> Result<Spot, SheetRefusal>
    ensures { result ≡ asked local.now shared.now key }
{
    match (sheet::scan_sheet(local), sheet::scan_sheet(shared)) {
        (Err(place), _) => Err(SheetRefusal {
            kind: Kind::SheetText,
            sheet: 1,
            place,
        }),
        (_, Err(place)) => Err(SheetRefusal {
            kind: Kind::SheetText,
            sheet: 2,
            place,
        }),
        (Ok(own), Ok(common)) => choose(own, common, key),
    }
}

// The part of a sheet at a spot; a spot that does not fit gives no bytes, from the sheet's start. So there is no `requires`.
fn cut(s: &[u8], spot: Spot) -> &[u8]
    ensures place { result.ref_ptr ≡ shifted s.entry.ref_ptr (fitting spot s.now).from }
    ensures bytes { result.now ≡ bytes_at spot s.now }
{
    if s.len() < spot.upto || spot.upto < spot.from {
        return &s[..0];
    }
    &s[spot.from..spot.upto]
}

// The part at a spot, of the sheet that the spot names.
fn value<'a>(local: &'a [u8], shared: &'a [u8], spot: Spot) -> &'a [u8]
    ensures { IsPart spot local.entry shared.entry result }
{
    cut(if spot.sheet == 1 { local } else { shared }, spot)
}

// The bytes of an answer; none where it is a refusal.
pub fn value_of<'a>(local: &'a [u8], shared: &'a [u8], a: Result<Spot, SheetRefusal>) -> &'a [u8]
    ensures { IsPart (spot_of a) local.entry shared.entry result }
{
    match a {
        Ok(spot) => value(local, shared, spot),
        Err(_) => value(
            local,
            shared,
            Spot {
                sheet: 1,
                from: 0,
                upto: 0,
            },
        ),
    }
}

// The value of a key: the very bytes in the sheet that has it.
#[tactic(auto, using(std::proofs::lemmas::Grind::common_steps))]
pub fn look_up<'a>(local: &'a [u8], shared: &'a [u8], key: Key) -> Setting<'a>
    ensures { (result.answer ≡ asked local.now shared.now key) × IsPart (spot_of result.answer) local.entry shared.entry result.bytes }
{
    let answer = ask(local, shared, key);
    let bytes = value_of(local, shared, answer);
    Setting { answer, bytes }
}
