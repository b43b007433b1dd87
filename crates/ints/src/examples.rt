// Worked examples of signed code, one function for each kind of fact that such code asks of its proof (proofs/examples/, where the check
// does not find the answer itself). Nothing calls them.
ghost use Rattle.std.specs.Prelude.{◌≡◌, cond, pos, neg_ℤ, ◌+ℤ◌, ◌-ℤ◌, ◌*ℤ◌, ◌≤ℤ◌};
ghost use Rattle.ints.specs.Range.{Between, Within, in_range};
ghost use Rattle.ints.specs.Machine.{eq_z};

#[derive(Clone, Copy, PartialEq)]
struct Money(i64);

#[derive(Clone, Copy)]
struct Rate(i32);

// Sums and products: each fits by the ranges of its parts, and the result is the formula.
fn variance(cost: Money, base: i64, sales: i64, rest: i64) -> i64
    requires { Within 1000000000000 cost.0 × Between (pos 0) (pos 99999) base × Between (pos 0) (pos 20000000000) sales × Within 50000 rest }
    ensures { result ≡ pos 95 *ℤ (pos 1000 *ℤ cost.0 -ℤ base *ℤ sales) +ℤ rest }
{
    95 * (1000 * cost.0 - base * sales) + rest
}

// A wider type, of a number of which only its type is known.
fn scaled(money: Money, rate: Rate) -> Money
    requires { Within 2000000 money.0 }
    ensures { result.0 ≡ money.0 *ℤ rate.0 }
{
    Money(money.0 * i64::from(rate.0))
}

// A call with a range to show, and its result in a sum: what it ensures gives value and range.
fn doubled(money: Money, rate: Rate) -> i64
    requires { Within 1000000 money.0 }
    ensures { result ≡ pos 2 *ℤ money.0 *ℤ rate.0 -ℤ pos 7 }
{
    scaled(Money(2 * money.0), rate).0 - 7
}

// A narrower type, and below an unsigned one, by `as`: std's `from` takes no number that only a range makes fit.
fn narrowed(x: i64) -> i32
    requires { Within 99999 x }
    ensures { result ≡ x }
{
    x as i32
}

// An unsigned type, of a number that is not negative.
fn counted(x: i64) -> u64
    requires { pos 0 ≤ℤ x }
    ensures { pos result ≡ x }
{
    x as u64
}

// A negation, which is a difference from 0 to the machine.
fn negated(x: i64) -> i64
    requires { Within 1000000000000 x }
    ensures { result ≡ neg_ℤ x }
{
    -x
}

// `<` on a number: an order.
fn not_below_zero(x: i64) -> i64
    ensures { pos 0 ≤ℤ result }
{
    if x < 0 {
        return 0;
    }
    x
}

// `<=` on fields: an order.
fn at_most(money: Money, limit: Money) -> Money
    ensures { result.0 ≤ℤ limit.0 }
{
    if money.0 <= limit.0 {
        return money;
    }
    limit
}

// `==` by a derive, as a test: equal values.
fn first_if_equal(a: Money, b: Money) -> Money
    ensures { result ≡ b }
{
    if a == b {
        return a;
    }
    b
}

// `==` by a derive, as a result.
fn same(a: Money, b: Money) -> bool
    ensures { result ≡ eq_z a.0 b.0 }
{
    a == b
}

// What a function tested of a field, once negated and once not, in a definition by those tests.
fn kept(money: Money) -> Money
    ensures { result.0 ≡ cond (in_range (neg_ℤ (pos 100)) (pos 100) money.0) (cond (in_range (pos 0) (pos 9) money.0) money.0 (pos 9)) (pos 0) }
{
    if !crate::in_range(money.0, -100, 100) {
        return Money(0);
    }
    if crate::in_range(money.0, 0, 9) {
        return money;
    }
    Money(9)
}

// A call of two numbers, handed on.
fn sum(a: i64, b: i64) -> i64
    requires { Within 1000000000000 a × Within 1000000000000 b }
    ensures { result ≡ a +ℤ b }
{
    a + b
}

fn handed(a: i64, b: i64) -> i64
    requires { Within 1000000000000 a × Within 1000000000000 b }
    ensures { result ≡ a +ℤ b }
{
    sum(a, b)
}
