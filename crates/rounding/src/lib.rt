// Quotients rounded to the nearest whole number. How a half goes is said in `tie` alone, and in specs/ in `tie_of` alone.
#![tactic(auto)]

ghost use Rattle.std.specs.Prelude.{◌≡◌, ◌*◌, ◌≤◌, ◌<◌, nat_abs};
ghost use Rattle.rounding.specs.Round.{tie_of, rounded_of, nearest_of, with_sign, round};
ghost use Rattle.rounding.specs.Weight.{weight_or0};

mod examples;

// The most that can be weighed: 10^10 kWh at a loss factor of 2, in hundred-thousandths.
pub const WEIGHED: i64 = 2_000_000_000_000_000;

// What a half adds to the whole part of a quotient's size: it goes away from zero.
fn tie(whole: u64) -> u64
    ensures { result ≡ tie_of whole }
{
    1
}

// The whole number nearest to whole + rest / b. The rest is held to what it lacks of b, since its double need not fit.
fn rounded(whole: u64, rest: u64, b: u64) -> u64
    requires { (whole ≤ 9223372036854775808) × (rest < b) }
    ensures { result ≡ rounded_of whole rest b }
{
    let lacking = b - rest;
    if rest < lacking {
        return whole;
    }
    if lacking < rest {
        return whole + 1;
    }
    whole + tie(whole)
}

// The whole number nearest to n / b.
fn nearest(n: u64, b: u64) -> u64
    requires { (n ≤ 9223372036854775808) × (0 < b) }
    ensures { result ≡ nearest_of n b }
{
    rounded(n / b, n % b, b)
}

// n with the sign of a, where a is no smaller: also for the least number, whose size does not fit.
// By `as` here and in `weight`: it has to fit, where `cast_signed` would wrap.
fn with_sign(a: i64, n: u64) -> i64
    requires { n ≤ nat_abs a }
    ensures { result ≡ with_sign a n }
{
    if a < 0 {
        return n.wrapping_neg().cast_signed();
    }
    n as i64
}

// The size of a number, the least one's too. A contract of its own, by which a wrong size is refused.
fn size(a: i64) -> u64
    ensures { result ≡ nat_abs a }
{
    a.unsigned_abs()
}

// round(a/b), for every a and every b: a divisor below 1 gives 0, and no Option, since the C call hands out a number.
pub fn round_div(a: i64, b: i64) -> i64
    ensures { result ≡ round a b }
{
    if b < 1 {
        return 0;
    }
    with_sign(a, nearest(size(a), size(b)))
}

// 100000 * part / whole to the nearest whole number, by two steps of long division: 100000 * part need not fit.
fn share(part: u64, whole: u64) -> u64
    requires { (part ≤ whole) × (0 < whole) × (whole ≤ 4000000000000000) }
    ensures { (result ≡ nearest_of (100000 * part) whole) × (result ≤ 100000) }
{
    let first = 1000 * part;
    let second = 100 * (first % whole);
    rounded(
        100 * (first / whole) + second / whole,
        second % whole,
        whole,
    )
}

// The secondary level's weight, w = round(100000 × Ws / (Ws + Wp)); 0, for C as above, where either is below 0 or above WEIGHED.
pub fn weight(secondary: i64, primary: i64) -> i64
    ensures { result ≡ weight_or0 secondary primary }
{
    if !ints::in_range(secondary, 0, WEIGHED) {
        return 0;
    }
    if !ints::in_range(primary, 0, WEIGHED) {
        return 0;
    }
    let part = size(secondary);
    let whole = part + size(primary);
    if whole == 0 {
        return 0;
    }
    share(part, whole) as i64
}
