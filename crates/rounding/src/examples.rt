// Worked examples of rounding in code: what a proof says after a call of `round_div`. Nothing calls them.
ghost use Rattle.std.specs.Prelude.{◌≡◌, pos, ◌*ℤ◌, ◌-ℤ◌};
ghost use Rattle.ints.specs.Range.{Between, Within};
ghost use Rattle.rounding.specs.Round.{round};

#[derive(Clone, Copy)]
struct Money(i64);

// By a numeral: `rounds`.
fn hundredths(amount: Money, less: Money) -> i64
    requires { Within 1000000000000000 amount.0 × Within 1000000000000000 less.0 }
    ensures { result ≡ round (pos 3 *ℤ amount.0) (pos 100) -ℤ less.0 }
{
    crate::round_div(3 * amount.0, 100) - less.0
}

// By any divisor: `rounds_any`.
fn apiece(amount: Money, count: i64) -> i64
    requires { Within 1000000000000000 amount.0 × Between (pos 1) (pos 10000000000) count }
    ensures { result ≡ round (pos 100 *ℤ amount.0) count }
{
    crate::round_div(100 * amount.0, count)
}
