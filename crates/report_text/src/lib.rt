// A neighbour's report.txt: the claim in a line, and behind it, as `runs` writes them, a run that keeps the rule and one that breaks it, of which either may be missing.
// A cursor goes over the text once and tells where each list of states stands; the states of a list are read from there.
#![tactic(auto)]

pub mod states;

ghost use Rattle.std.specs.Prelude.{◌≡◌};
ghost use Rattle.report_text.specs.Form.{
  byte_taken,
  word_from,
  is_digit,
  goes_on,
  list_end,
  list_of,
  claim_by,
  verdict_from,
  claim_of,
  shown_run,
  missing,
  run_line,
  run_of,
  report_read,
};

use text::byte_at;

// How far a text is of the form: all before `at` is, and where not `ok`, the byte there is not.
#[derive(Clone, Copy)]
pub struct Cursor {
    pub ok: bool,
    pub at: usize,
}

impl Cursor {
    pub const START: Cursor = Cursor { ok: true, at: 0 };
}

// Where a list of states stands in the text: from a place up to another.
#[derive(Clone, Copy)]
pub struct Part {
    pub from: usize,
    pub upto: usize,
}

// The claimed verdict by its number, and the cursor behind its line.
#[derive(Clone, Copy)]
pub struct Claimed {
    pub claim: u8,
    pub next: Cursor,
}

// Where a run's states stand: those of the stem, and those of the loop.
#[derive(Clone, Copy)]
pub struct RunParts {
    pub stem: Part,
    pub turn: Part,
}

impl RunParts {
    // No state.
    pub const NONE: RunParts = RunParts {
        stem: Part { from: 0, upto: 0 },
        turn: Part { from: 0, upto: 0 },
    };
}

// A run, and the cursor behind its line.
#[derive(Clone, Copy)]
pub struct RunRead {
    pub run: RunParts,
    pub next: Cursor,
}

// A report: the claimed verdict by its number, and the two runs.
#[derive(Clone, Copy)]
pub struct ReportParts {
    pub claim: u8,
    pub keeping: RunParts,
    pub breaking: RunParts,
}

// One known byte.
#[tactic(auto, unfolding(crate::specs::Form::byte_taken))]
fn step(text: &[u8], c: Cursor, b: u8) -> Cursor
    ensures { result ≡ byte_taken text.now c b }
{
    if c.at < text.len() && c.ok && text[c.at] == b {
        return Cursor {
            ok: true,
            at: c.at + 1,
        };
    }
    Cursor { ok: false, ..c }
}

// Known bytes.
fn word(text: &[u8], c: Cursor, known: &[u8]) -> Cursor
    ensures { result ≡ word_from text.now c known.now }
{
    known.iter().fold(c, |d, b| step(text, d, *b))
}

fn is_digit(b: u8) -> bool
    ensures { result ≡ is_digit b }
{
    b.is_ascii_digit()
}

// Whether a list goes on with the byte: with a digit, and behind a digit with a comma.
fn goes_on(inside: bool, b: u8) -> bool
    ensures { result ≡ goes_on inside b }
{
    is_digit(b) || inside && b == b','
}

// The list that began at the cursor ends at a place. It may have no state, but it does not end with a comma.
fn list_end(c: Cursor, inside: bool, at: usize) -> Cursor
    ensures { result ≡ list_end c inside at }
{
    Cursor {
        ok: inside || at == c.at,
        at,
    }
}

// States in decimal with commas between them.
fn list(text: &[u8], c: Cursor) -> Cursor
    ensures { result ≡ list_of text.now c }
{
    if !c.ok {
        return c;
    }
    let mut inside = false;
    for at in c.at..text.len() {
        if !goes_on(inside, text[at]) {
            return list_end(c, inside, at);
        }
        inside = is_digit(text[at]);
    }
    list_end(c, inside, c.at.max(text.len()))
}

// The verdict whose word begins with the byte. What begins none is taken for the last, which then does not fit.
#[tactic(auto, unfolding(crate::specs::Form::claim_by))]
fn claim_by(b: u8) -> u8
    ensures { result ≡ claim_by b }
{
    match b {
        b'i' => 0,
        b't' => 1,
        b'f' => 2,
        _ => 3,
    }
}

// The word of a verdict, and LF.
#[tactic(auto, unfolding(crate::specs::Form::verdict_from))]
fn verdict(text: &[u8], c: Cursor, claim: u8) -> Cursor
    ensures { result ≡ verdict_from text.now c claim }
{
    match claim {
        0 => word(text, c, b"inconclusive\n"),
        1 => word(text, c, b"true\n"),
        2 => word(text, c, b"false\n"),
        _ => word(text, c, b"out-of-model\n"),
    }
}

// `claim=WORD` and LF.
#[tactic(auto, using(crate::proofs::Whole::claim_is))]
fn claim(text: &[u8]) -> Claimed
    ensures { result ≡ claim_of text.now }
{
    let behind = word(text, Cursor::START, b"claim=");
    let claim = claim_by(byte_at(text, behind.at));
    Claimed {
        claim,
        next: verdict(text, behind, claim),
    }
}

// `stem=.. loop=..` and LF.
fn shown_run(text: &[u8], c: Cursor) -> RunRead
    ensures { result ≡ shown_run text.now c }
{
    let a = word(text, c, b"stem=");
    let b = list(text, a);
    let d = word(text, b, b" loop=");
    let e = list(text, d);
    let next = word(text, e, b"\n");
    let stem = Part {
        from: a.at,
        upto: b.at,
    };
    let turn = Part {
        from: d.at,
        upto: e.at,
    };
    RunRead {
        run: RunParts { stem, turn },
        next,
    }
}

// No run, with the cursor behind what is said instead.
fn without(next: Cursor) -> RunRead
    ensures { result ≡ missing next }
{
    RunRead {
        run: RunParts::NONE,
        next,
    }
}

// A run behind its kind: there is one, or none.
fn run_line(text: &[u8], c: Cursor, kind: &[u8]) -> RunRead
    ensures { result ≡ run_line text.now c kind.now }
{
    let behind = word(text, c, kind);
    if byte_at(text, behind.at) == b'r' {
        return without(word(text, behind, b"refused=13 place=0\n"));
    }
    shown_run(text, behind)
}

// The line of a kind, which may be missing.
fn run(text: &[u8], c: Cursor, kind: &[u8]) -> RunRead
    ensures { result ≡ run_of text.now c kind.now }
{
    if byte_at(text, c.at) == byte_at(kind, 0) {
        return run_line(text, c, kind);
    }
    without(c)
}

// What a text says, if it is a report.
pub fn read_report(text: &[u8]) -> Result<ReportParts, usize>
    ensures { result ≡ report_read text.now }
{
    let claimed = claim(text);
    let keeps = run(text, claimed.next, b"keeps ");
    let breaks = run(text, keeps.next, b"breaks ");
    let end = breaks.next;
    if end.ok & (end.at == text.len()) {
        return Ok(ReportParts {
            claim: claimed.claim,
            keeping: keeps.run,
            breaking: breaks.run,
        });
    }
    Err(end.at)
}
