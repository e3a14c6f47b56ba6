// Where a set of pairs leads.
ghost use Rattle.std.specs.Prelude.{◌≡◌, ◌≤◌, ◌<◌};
ghost use Rattle.std.specs.Int.Bits.{bit_and};
ghost use Rattle.moves.specs.Image.{reached_at, image_of};
ghost use Rattle.leads.specs.Halves.{from_in, to_in, moved_of};

use crate::halves::both;
use pairs::Pairs;

// The states that the members of `held` at v lead to at w. Most are empty.
#[tactic(auto, using(crate::specs::Laws::moved_none))]
fn moved(
    next: &[u64],
    leave: &[u64; 1024],
    enter: &[u64; 1024],
    held: u64,
    v: usize,
    w: usize,
) -> u64
    requires { (v < 64) × (w < 64) }
    ensures { result ≡ moved_of next.now leave.now enter.now held v w }
{
    if held == 0 {
        return 0;
    }
    let from = held & both(leave, v, w);
    if from == 0 {
        return 0;
    }
    pairs::post(next, from) & both(enter, w, v)
}

// The states that the pairs of `old` lead to at w.
fn reached_at(
    next: &[u64],
    leave: &[u64; 1024],
    enter: &[u64; 1024],
    count: usize,
    old: &[u64; 64],
    w: usize,
) -> u64
    requires { (count ≤ 64) × (w < 64) }
    ensures { result ≡ reached_at next.now old.now (from_in leave.now) (to_in enter.now) count w }
{
    (0..count).fold(
        0,
        |reached, v| reached | moved(next, leave, enter, old[v], v, w),
    )
}

// The same, cut to `kept`, the states that may stay; nothing is looked for where none may.
fn image_at(
    next: &[u64],
    leave: &[u64; 1024],
    enter: &[u64; 1024],
    count: usize,
    old: &[u64; 64],
    kept: u64,
    w: usize,
) -> u64
    requires { (count ≤ 64) × (w < 64) }
    ensures { result ≡ bit_and kept (reached_at next.now old.now (from_in leave.now) (to_in enter.now) count w) }
{
    if kept == 0 {
        return 0;
    }
    kept & reached_at(next, leave, enter, count, old, w)
}

// The live pairs with states of `agree` that the pairs of `old` lead to.
#[tactic(auto, using(words::specs::Lists::words_none, words::specs::Lists::words_turn), unfolding(moves::specs::Image::image_of))]
pub fn image(
    next: &[u64],
    leave: &[u64; 1024],
    enter: &[u64; 1024],
    count: usize,
    old: &[u64; 64],
    live: &[u64; 64],
    agree: u64,
) -> Pairs
    requires { count ≤ 64 }
    ensures { result.words ≡ image_of next.now old.now (from_in leave.now) (to_in enter.now) count live.now agree }
{
    let mut words = [0u64; 64];
    for w in 0..count {
        words[w] = image_at(next, leave, enter, count, old, live[w] & agree, w);
    }
    Pairs { words }
}
