// Texts read slot by slot. A cursor goes on over the slots of the value that is read, whether they fit or not, and remembers how far they did.
#![tactic(auto)]

ghost use Rattle.std.specs.Prelude.{◌≡◌, [], ◌∷◌, ◌+◌, ◌≤◌, ◌<◌, length, get_or};
ghost use Rattle.text.specs.Slot.{exactly, digit, digit_value, word};
ghost use Rattle.text.specs.Number.{width_of, count_slots, count_of};
ghost use Rattle.text.specs.After.{meets, further, cursor_after};
ghost use Rattle.text.specs.Read.{IsDigit, IsHex, IsCount};

// The place of the next slot, and how many bytes fit their slots before the first that did not.
#[derive(Clone, Copy, Debug, PartialEq, Eq)]
pub struct Cursor {
    pub at: usize,
    pub good: usize,
}

impl Cursor {
    pub const START: Cursor = Cursor { at: 0, good: 0 };
}

// What was read, and the cursor behind it.
#[derive(Clone, Copy, Debug, PartialEq, Eq)]
pub struct Reading<T> {
    pub value: T,
    pub next: Cursor,
}

// The byte at a place, and 0 beyond the end.
pub fn byte_at(text: &[u8], at: usize) -> u8
    ensures { result ≡ get_or text.now at 0 }
{
    text.get(at).copied().unwrap_or(0)
}

// The value of a hexadecimal digit, small or capital, and 16 of any other byte.
#[tactic(auto, unfolding(crate::specs::Slot::digit_value))]
fn digit_value(b: u8) -> u8
    ensures { result ≡ digit_value b }
{
    match b {
        b'0'..=b'9' => b - b'0',
        b'A'..=b'F' => b - b'A' + 10,
        b'a'..=b'f' => b - b'a' + 10,
        _ => 16,
    }
}

// The value of the digit at a place, and 16 where there is none.
fn digit_at(text: &[u8], at: usize) -> u8
    ensures { result ≡ digit_value (get_or text.now at 0) }
{
    digit_value(byte_at(text, at))
}

// The cursor a slot further.
#[tactic(auto, unfolding(crate::specs::After::further))]
fn step(c: Cursor, fits: bool) -> Cursor
    requires { c.at < 4294967295 }
    ensures { (result ≡ further c fits) × (result.at ≡ c.at + 1) }
{
    let next = c.at + 1;
    let good = if c.good < c.at {
        c.good
    } else if fits {
        next
    } else {
        c.at
    };
    Cursor { at: next, good }
}

#[tactic(auto, unfolding(crate::specs::After::meets, crate::specs::Slot::admits))]
fn is_byte(text: &[u8], at: usize, b: u8) -> bool
    ensures { result ≡ meets text.now at (exactly b) }
{
    text.get(at) == Some(&b)
}

// One known byte.
#[tactic(auto, unfolding(crate::specs::After::cursor_after))]
pub fn expect(text: &[u8], c: Cursor, b: u8) -> Cursor
    requires { c.at < 4294967295 }
    ensures { (result ≡ cursor_after text.now c (exactly b ∷ [])) × (result.at ≡ c.at + 1) }
{
    step(c, is_byte(text, c.at, b))
}

// Known bytes.
#[tactic(auto, unfolding(crate::specs::After::cursor_after))]
pub fn expect_all(text: &[u8], c: Cursor, known: &[u8]) -> Cursor
    requires { c.at + length known.now < 4294967295 }
    ensures { (result ≡ cursor_after text.now c (word known.now)) × (result.at ≡ c.at + length known.now) }
{
    let mut end = c;
    for &b in known {
        end = expect(text, end, b);
    }
    end
}

// One hexadecimal digit.
fn digit(text: &[u8], c: Cursor) -> Reading<u64>
    requires { c.at < 4294967295 }
    ensures { IsDigit text.now c result.value result.next }
{
    let v = digit_at(text, c.at);
    if v < 16 {
        return Reading {
            value: u64::from(v),
            next: step(c, true),
        };
    }
    Reading {
        value: 0,
        next: step(c, false),
    }
}

// A hexadecimal number of so many digits.
pub fn hex(text: &[u8], c: Cursor, width: usize) -> Reading<u64>
    requires { (width ≤ 16) × (c.at + 16 < 4294967295) }
    ensures { IsHex text.now c width result.value result.next }
{
    let mut value = 0;
    let mut next = c;
    for _i in 0..width {
        let x = digit(text, next);
        value = value * 16 + x.value;
        next = x.next;
    }
    Reading { value, next }
}

// How many digits a set of propositions has where there are so many.
#[tactic(auto, unfolding(crate::specs::Number::width_of))]
pub fn width_of(props: usize) -> usize
    ensures { (result ≡ width_of props) × (result ≤ 4) }
{
    if 8 < props { 4 } else { 2 }
}

// One known digit.
fn expect_digit(text: &[u8], c: Cursor, n: usize) -> Cursor
    requires { (n < 16) × (c.at < 4294967295) }
    ensures { (result ≡ cursor_after text.now c (digit n ∷ [])) × (result.at ≡ c.at + 1) }
{
    step(c, usize::from(digit_at(text, c.at)) == n)
}

// The count from lo to hi that begins with the digits d and e, or else with d alone, and lo where none does.
#[tactic(auto, unfolding(crate::specs::Number::count_of))]
fn count_of(lo: usize, hi: usize, d: u8, e: u8) -> usize
    ensures { result ≡ count_of lo hi d e }
{
    let first = usize::from(d);
    let two = first * 10 + usize::from(e);
    if first < lo || 9 < first || hi < first {
        lo
    } else if first < 1 || 9 < e || hi < two {
        first
    } else {
        two
    }
}

// A known number below 100 in decimal, with no leading zero, and the byte that ends it.
#[tactic(auto, using(crate::specs::Read::count_one, crate::specs::Read::count_two))]
pub fn expect_count(text: &[u8], c: Cursor, end: u8, n: usize) -> Cursor
    requires { (n < 100) × (c.at + 3 < 4294967295) }
    ensures { (result ≡ cursor_after text.now c (count_slots end n)) × (result.at ≤ c.at + 3) }
{
    if n < 10 {
        let d = expect_digit(text, c, n);
        return expect(text, d, end);
    }
    let d = expect_digit(text, c, n / 10);
    let e = expect_digit(text, d, n % 10);
    expect(text, e, end)
}

// A count from lo to hi, and the byte that ends it.
#[tactic(auto, using(crate::specs::Count::count_within))]
pub fn count(text: &[u8], c: Cursor, end: u8, lo: usize, hi: usize) -> Reading<usize>
    requires { (lo ≤ 1) × (lo ≤ hi) × (hi < 100) × (c.at + 3 < 4294967295) }
    ensures { IsCount text.now c end lo hi result.value result.next }
{
    let value = count_of(lo, hi, digit_at(text, c.at), digit_at(text, c.at + 1));
    Reading {
        value,
        next: expect_count(text, c, end, value),
    }
}
