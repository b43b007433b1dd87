// Sign: ten units billed at a credit factor keep their minus.
use crate::histories::{History, Voltage};
use crate::report::Tally;
use crate::shown::Shown;
use electric_rules::ElectricBook;
use refusals::Refusal;

pub(crate) fn check(tally: &mut Tally) {
    tally.history("Sign, electric", "checklist-sign-electric", electric);
    tally.history(
        "Sign, electric, interest",
        "checklist-sign-electric-interest",
        interest,
    );
    tally.history("Sign, steam", "checklist-sign-steam", steam);
}

// Fuel below the base on the secondary level, a refund on the primary one, in November.
// V = 1000 × 170,900 − 1,799 × 100,000 = −9,000,000; R = 95V / 100,000 = −8,550, all secondary; q = −855,000 / 95,000 = −9.
// Primary: Q = −9,000 and q = −900,000 / 1,000 = −900.
// 10 × −9 / 100 rounds to −1 cent, and 10 × −900 / 100 is −90 cents, which has no dollars to take a sign from.
fn electric(tally: &mut Tally) -> Result<(), Refusal> {
    let mut history = History::electric(tally)?;
    history.cost(170_900)?;
    history.sales(100_000, 0)?;
    history.adjust(Voltage::Primary, -9_000)?;
    history.to_first_november()?;
    let filed = history.settle(95_000, 1_000)?;
    history.fact(
        "Sign, electric, credit factors",
        Shown(filed),
        "filed -0.0009 -0.0900",
    );
    history.past_february()?;
    let billed = history.bill(Voltage::Secondary, 10)?;
    history.fact(
        "Sign, electric, ten kWh secondary",
        Shown(billed),
        "line -0.01",
    );
    let billed = history.bill(Voltage::Primary, 10)?;
    history.fact(
        "Sign, electric, ten kWh primary",
        Shown(billed),
        "line -0.90",
    );
    electric_dues(&mut history);
    Ok(())
}

// The credit still due is what was filed, less the lines: −8,550 + 1 and −9,000 + 90.
fn electric_dues(history: &mut History<'_, ElectricBook>) {
    let book = history.book();
    history.fact(
        "Sign, electric, still due secondary",
        book.secondary.first.due,
        "-85.49",
    );
    history.fact(
        "Sign, electric, still due primary",
        book.primary.first.due,
        "-89.10",
    );
}

// 60,000 × −100 / 12,000,000 is half a cent of credit, and rounds away from zero.
fn interest(tally: &mut Tally) -> Result<(), Refusal> {
    let mut history = History::electric(tally)?;
    history.adjust(Voltage::Primary, -100)?;
    let ended = history.month_end(60_000)?;
    history.fact(
        "Sign, electric, interest on a credit",
        Shown(ended),
        "interest 0.00 -0.01",
    );
    Ok(())
}

// V = 100 × 2,555,000 − 30,050 × 10,000 = −45,000,000; R = 80V / 10,000 = −360,000; q = −36,000,000 / 40,000 = −900.
// The run enters as run 2 at the end of May; 10 × −900 / 100 is −90 cents.
fn steam(tally: &mut Tally) -> Result<(), Refusal> {
    let mut history = History::steam(tally, 10_000)?;
    history.cost(2_555_000)?;
    history.sales(10_000)?;
    history.to_last_month()?;
    let filed = history.settle()?;
    history.fact("Sign, steam, credit factor", Shown(filed), "filed -0.0900");
    history.past_entry()?;
    let billed = history.bill(10)?;
    history.fact("Sign, steam, ten mmBtu", Shown(billed), "line -0.90");
    let book = history.book();
    history.fact("Sign, steam, still due", book.dues[1], "-3599.10");
    Ok(())
}
