// The moves between pairs: which fit, where a set of pairs leads, and what leads into it. Definitions and laws, in specs/; the code that goes by
// them is in leads and sweeps.
#![tactic(auto)]

ghost use Rattle.std.specs.Prelude.{◌≡◌, ◌^◌, ◌≤◌};

// How many valuations there are.
pub fn valuations(parts: usize) -> usize
    requires { parts ≤ 6 }
    ensures { (result ≡ 2 ^ parts) × (result ≤ 64) }
{
    words::single(parts) as usize
}
