// Signed numbers: the laws of the integers that proofs over them cite (specs/, whose Lib.antt says which to use when), and the test of
// a range.
#![tactic(auto)]

ghost use Rattle.std.specs.Prelude.{◌≡◌};
ghost use Rattle.ints.specs.Range.{in_range};

mod examples;

// Whether low <= x <= high.
#[tactic(auto, unfolding(crate::specs::Range::in_range))]
pub fn in_range(x: i64, low: i64, high: i64) -> bool
    ensures { result ≡ in_range low high x }
{
    (low..=high).contains(&x)
}
