// The states that a move between two valuations may leave, and those that it may enter.
ghost use Rattle.std.specs.Prelude.{◌≡◌, ◌+◌, ◌≤◌, ◌<◌};
ghost use Rattle.leads.specs.Halves.{fitting_from, meeting_from, middle_of, leaving_of, entering_of, both_of};

// Half h of valuation x is at x * 8 + h: first those of the last digits, then, from 512 on, those of the first.
#[derive(Clone, Copy)]
pub struct Halves {
    pub words: [u64; 1024],
}

// The states at which `many` parts from `first` on have at v values that fit their operators, where w is next.
fn fitting_from(
    first: usize,
    many: usize,
    low: &[u64; 384],
    high: &[u64; 384],
    v: usize,
    w: usize,
) -> u64
    requires { (first + many ≤ 6) × (v < 64) }
    ensures { result ≡ fitting_from first many low.now high.now v w }
{
    (first..first + many).fold(u64::MAX, |fits, k| {
        let table = if words::has(w as u64, k) { high } else { low };
        let x = table[v * 6 + k];
        fits & if words::has(v as u64, k) { x } else { !x }
    })
}

// The states at which the operands of the parts X among them have at w the values that the parts have in v.
fn meeting_from(
    first: usize,
    many: usize,
    nexts: u64,
    operand: &[u64; 384],
    v: usize,
    w: usize,
) -> u64
    requires { (first + many ≤ 6) × (w < 64) }
    ensures { result ≡ meeting_from first many nexts operand.now v w }
{
    (first..first + many).fold(u64::MAX, |meets, k| {
        let x = operand[w * 6 + k];
        let y = if words::has(v as u64, k) { x } else { !x };
        meets & if words::has(nexts, k) { y } else { u64::MAX }
    })
}

// How many parts the first half has.
fn middle(parts: usize) -> usize
    ensures { (result ≡ middle_of parts) × (result ≤ parts) }
{
    parts.min(3)
}

// For v, and a half of w. (Both halves in one turn: with one store a turn the compiler no longer unrolls them.)
pub fn leaving<'a>(parts: usize, low: &'a [u64; 384], high: &'a [u64; 384]) -> Halves
    requires { parts ≤ 6 }
    ensures { result.words ≡ leaving_of parts low.now high.now }
{
    let mid = middle(parts);
    let rest = parts - mid;
    let mut words = [0u64; 1024];
    for i in 0..512 {
        let v = i / 8;
        let w = i % 8;
        words[i] = fitting_from(0, mid, low, high, v, w);
        words[i + 512] = fitting_from(mid, rest, low, high, v, w * 8);
    }
    Halves { words }
}

// For w, and a half of v.
pub fn entering(parts: usize, nexts: u64, operand: &[u64; 384]) -> Halves
    requires { parts ≤ 6 }
    ensures { result.words ≡ entering_of parts nexts operand.now }
{
    let mid = middle(parts);
    let rest = parts - mid;
    let mut words = [0u64; 1024];
    for i in 0..512 {
        let w = i / 8;
        let v = i % 8;
        words[i] = meeting_from(0, mid, nexts, operand, v, w);
        words[i + 512] = meeting_from(mid, rest, nexts, operand, v * 8, w);
    }
    Halves { words }
}

// The word of x and y: both halves of y.
pub fn both(halves: &[u64; 1024], x: usize, y: usize) -> u64
    requires { (x < 64) × (y < 64) }
    ensures { result ≡ both_of halves.now x y }
{
    halves[x * 8 + y % 8] & halves[x * 8 + y / 8 + 512]
}
