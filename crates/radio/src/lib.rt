// A log that comes in scraps: what is kept between them, and the loop over a scrap's pieces. A piece of a line is copied behind the bytes kept and read at
// once; what a rule says is worked out once a scrap, by the caller.
#![tactic(auto)]

mod ends;
mod line;
mod piece;

ghost use Rattle.std.specs.Prelude.{◌≡◌, [], ◌+◌, ◌^◌, ◌≤◌, ◌<◌, length};
ghost use Rattle.text.specs.Number.{width_of};
ghost use Rattle.course.specs.Course.{turn, Fitting};
ghost use Rattle.monitor.specs.Calls.{step_call};
ghost use Rattle.radio.specs.Radio.{hear_all};
ghost use Rattle.radio.specs.Kept.{ear_of, radio_of, heard_by, kept_ok, stopped_radio, lit_of, noted_at, Fit, Listened};

use answers::Refusal;
use ends::end_line;
use line::{good_of, joined};
use pairs::Pairs;
use piece::piece;
use plant::Plant;
use sides::Monitor;
use syntax::Rule;
use ways::Ways;

// The form that the log's lines have: not known before the first one is whole.
#[derive(Clone, Copy)]
pub enum Form {
    Unknown,
    Plain,
    Numbered,
}

// What is kept between scraps: the first `len` bytes of `part` are those of the line that is not whole yet, which begins at `start` in the whole
// log; the form of the lines before it; the refusal that stands, if an event or a byte was refused; and the monitor.
#[derive(Clone, Copy)]
pub struct Radio {
    pub part: [u8; 40],
    pub len: usize,
    pub start: usize,
    pub form: Form,
    pub standing: Result<(), Refusal>,
    pub monitor: Monitor,
}

impl Radio {
    // How many bytes a log may have.
    pub const LONGEST: usize = 4294967295;

    // Room for the bytes of a line that is not whole: the longest line has 37.
    pub const PART: usize = 40;

    // The same, with zeros behind the bytes kept.
    fn clean(self) -> Radio
        requires { self.len ≤ 40 }
        ensures { result ≡ radio_of (ear_of self) }
    {
        Radio {
            part: joined(self.part, self.len, &[], 0),
            ..self
        }
    }

    // Behind a refusal nothing is kept of the line.
    fn stopped(self, refusal: Refusal) -> Radio
        ensures { result ≡ stopped_radio self refusal }
    {
        Radio {
            part: [0; 40],
            len: 0,
            standing: Err(refusal),
            ..self
        }
    }
}

// The radio behind a scrap, and how many verdicts there were.
#[derive(Clone, Copy)]
pub struct Went {
    pub radio: Radio,
    pub done: usize,
}

// Whether the bytes kept begin a line of the log, and are fewer than it has.
pub fn begins_line(radio: Radio, props: usize) -> bool
    requires { radio.len ≤ 40 }
    ensures { result ≡ kept_ok (width_of props) radio }
{
    if radio.len == 0 {
        return true;
    }
    let kept = &radio.part[..radio.len];
    radio.len < event_log::line_bytes(kept, props) && radio.len <= good_of(kept, radio.form, props)
}

// The verdict of the event whose line a piece ended, if it ended one, is stored behind the others and counted.
fn note(verdicts: &mut [u8], done: usize, lit: Option<u8>) -> usize
    requires { done < 2 ^ 63 }
    ensures count { result ≡ done + length (lit_of lit) }
    ensures verdicts { verdicts.new ≡ noted_at verdicts.old done (lit_of lit) }
{
    match lit {
        None => done,
        Some(verdict) => {
            course::store(verdicts, done, verdict);
            done + 1
        }
    }
}

// The loop: piece after piece. Behind a refusal the rest of the scrap is one piece, of which nothing is heard.
fn pieces(
    plant: Plant,
    label: &[u16],
    next: &[u64],
    ways: Ways,
    live: Pairs,
    radio: Radio,
    scrap: &[u8],
    verdicts: &mut [u8],
) -> Went
    requires { (length label.now ≤ 64) × (ways.count ≤ 64) × Fit (width_of plant.props) radio (length scrap.now) × (radio ≡ radio_of (ear_of radio)) }
    ensures { Listened (hear_all (width_of plant.props) (turn plant label.now next.now ways live) (heard_by radio []) scrap.now)
        verdicts.old verdicts.new result }
{
    let mut now = radio;
    let mut at = 0;
    let mut done = 0;
    while at < scrap.len() {
        let read = piece(now, &scrap[at..], plant.props);
        at += read.took;
        let turned = end_line(
            plant,
            label,
            next,
            &ways.leave,
            &ways.enter,
            &ways.holds,
            ways.count,
            &live.words,
            read.radio,
            read.whole,
        );
        now = turned.radio;
        done = note(verdicts, done, turned.lit);
    }
    Went { radio: now, done }
}

// A scrap that ends lines: what the rule says is worked out, once for all of them.
fn hear_lines(
    plant: Plant,
    fair: &[u64],
    label: &[u16],
    next: &[u64],
    rule: Rule,
    live: Pairs,
    radio: Radio,
    scrap: &[u8],
    verdicts: &mut [u8],
) -> Went
    requires { Fitting plant fair.now label.now next.now rule live radio.monitor × Fit (width_of plant.props) radio (length scrap.now) }
    ensures { Listened (hear_all (width_of plant.props) (step_call plant fair.now label.now next.now rule live) (heard_by radio []) scrap.now)
        verdicts.old verdicts.new result }
{
    let ways = ways::ways_of(label, rule);
    let clean = radio.clean();
    pieces(plant, label, next, ways, live, clean, scrap, verdicts)
}

// A scrap heard from a radio on, of an accepted table and rule, with a live set and a monitor of theirs. One that ends no line is a single piece; no event is
// taken, so nothing that the rule says is asked, and it costs little.
pub fn listen(
    plant: Plant,
    fair: &[u64],
    label: &[u16],
    next: &[u64],
    rule: Rule,
    live: Pairs,
    radio: Radio,
    scrap: &[u8],
    verdicts: &mut [u8],
) -> Went
    requires { Fitting plant fair.now label.now next.now rule live radio.monitor × Fit (width_of plant.props) radio (length scrap.now) }
    ensures { Listened (hear_all (width_of plant.props) (step_call plant fair.now label.now next.now rule live) (heard_by radio []) scrap.now)
        verdicts.old verdicts.new result }
{
    let clean = radio.clean();
    if scrap.is_empty() {
        return Went {
            radio: clean,
            done: 0,
        };
    }
    let first = piece(clean, scrap, plant.props);
    if first.whole | (first.took < scrap.len()) {
        return hear_lines(plant, fair, label, next, rule, live, radio, scrap, verdicts);
    }
    Went {
        radio: first.radio,
        done: 0,
    }
}
