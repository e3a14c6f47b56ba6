// Which pairs have a move into a set.
ghost use Rattle.std.specs.Prelude.{◌≡◌, ◌≤◌, ◌<◌};
ghost use Rattle.sweeps.specs.Sweeps.{movers_at, movers_of};

use leads::halves::both;
use pairs::Pairs;

// The members of `within` at v with a move into `set`. For each valuation next the states that are still without a move are tried;
// where none is left, the scan is over.
fn scan_moves(
    next: &[u64],
    leave: &[u64; 1024],
    enter: &[u64; 1024],
    count: usize,
    set: &[u64; 64],
    within: u64,
    v: usize,
) -> u64
    requires { (count ≤ 64) × (v < 64) }
    ensures { result ≡ movers_at next.now leave.now enter.now count set.now within v }
{
    let mut rest = within;
    'scan: for w in 0..count {
        let target = set[w] & both(enter, w, v);
        let tried = words::only(target != 0, rest & both(leave, v, w));
        for s in words::members_in(tried) {
            if next.get(s).copied().unwrap_or(0) & target != 0 {
                rest = words::without(rest, words::single(s));
                if rest == 0 {
                    break 'scan;
                }
            }
        }
    }
    words::without(within, rest)
}

// Most words of a late sweep are empty.
#[tactic(auto, unfolding(crate::specs::Sweeps::movers_at))]
fn movers_at(
    next: &[u64],
    leave: &[u64; 1024],
    enter: &[u64; 1024],
    count: usize,
    set: &[u64; 64],
    within: u64,
    v: usize,
) -> u64
    requires { (count ≤ 64) × (v < 64) }
    ensures { result ≡ movers_at next.now leave.now enter.now count set.now within v }
{
    if within == 0 {
        return 0;
    }
    scan_moves(next, leave, enter, count, set, within, v)
}

// The pairs of `within` with a move into `set`.
#[tactic(auto, using(words::specs::Lists::words_none, words::specs::Lists::words_turn))]
pub fn movers(
    next: &[u64],
    leave: &[u64; 1024],
    enter: &[u64; 1024],
    count: usize,
    set: &[u64; 64],
    within: &[u64; 64],
) -> Pairs
    requires { count ≤ 64 }
    ensures { result.words ≡ movers_of next.now leave.now enter.now count set.now within.now }
{
    let mut words = [0u64; 64];
    for v in 0..count {
        words[v] = movers_at(next, leave, enter, count, set, within[v], v);
    }
    Pairs { words }
}
