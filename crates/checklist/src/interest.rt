// Interest of open months: a month's end bears interest on what settling today would share, before the settlement and in the next period.
use crate::histories::History;
use crate::report::Tally;
use crate::shown::Shown;
use electric_rules::ElectricBook;
use refusals::Refusal;

// 6% a year: half a percent a month.
const RATE: i64 = 60_000;

pub(crate) fn check(tally: &mut Tally) {
    tally.history(
        "Interest of open months, electric",
        "checklist-interest-electric",
        electric,
    );
}

// The paper's period, its cost a month before its sales, up to November and past it.
fn electric(tally: &mut Tally) -> Result<(), Refusal> {
    let mut history = History::electric(tally)?;
    history.cost(2_000_000)?;
    let what = "Interest of open months, electric, June with cost and no kWh";
    month(&mut history, what, "interest 0.00 0.00")?;
    history.sales(600_000, 400_000)?;
    // Shares of 115,513 and 75,437: 577.565 and 377.185 cents.
    let what = "Interest of open months, electric, July with cost and kWh";
    month(&mut history, what, "interest 5.78 3.77")?;
    // On the whole open period again, and none on the interest of July.
    let what = "Interest of open months, electric, August";
    month(&mut history, what, "interest 5.78 3.77")?;
    left_open(&mut history);
    accrued_alone(&mut history);
    history.months(2)?;
    settled(&mut history)?;
    month_after(&mut history)
}

fn month(
    history: &mut History<'_, ElectricBook>,
    what: &str,
    interest: &str,
) -> Result<(), Refusal> {
    let ended = history.month_end(RATE)?;
    history.fact(what, Shown(ended), interest);
    Ok(())
}

// A month's end leaves the open period as it is, cost and sales.
fn left_open(history: &mut History<'_, ElectricBook>) {
    let period = history.book().period;
    history.fact(
        "Interest of open months, electric, cost still open",
        period.cost,
        "20000.00",
    );
    history.fact(
        "Interest of open months, electric, secondary kWh still open",
        period.sales.secondary.0,
        "600000",
    );
    history.fact(
        "Interest of open months, electric, primary kWh still open",
        period.sales.primary.0,
        "400000",
    );
}

// It gives either level its interest, and nothing is pending.
fn accrued_alone(history: &mut History<'_, ElectricBook>) {
    let book = history.book();
    history.fact(
        "Interest of open months, electric, accrued secondary",
        book.secondary.interest,
        "11.56",
    );
    history.fact(
        "Interest of open months, electric, accrued primary",
        book.primary.interest,
        "7.54",
    );
    history.fact(
        "Interest of open months, electric, pending secondary before the settlement",
        book.secondary.pending.due,
        "0.00",
    );
    history.fact(
        "Interest of open months, electric, pending primary before the settlement",
        book.primary.pending.due,
        "0.00",
    );
}

// What is filed is the share and the interest: 115,513 + 1,156 and 75,437 + 754, so that the primary factor is 10 and not 9.
// The settled month has no share of its own: 0.5% of 116,669 and of 76,191 are 583.345 and 380.955.
fn settled(history: &mut History<'_, ElectricBook>) -> Result<(), Refusal> {
    let filed = history.settle(1_250_000, 800_000)?;
    history.fact(
        "Interest of open months, electric, factors filed",
        Shown(filed),
        "filed 0.0009 0.0010",
    );
    let book = history.book();
    history.fact(
        "Interest of open months, electric, pending secondary",
        book.secondary.pending.due,
        "1166.69",
    );
    history.fact(
        "Interest of open months, electric, pending primary",
        book.primary.pending.due,
        "761.91",
    );
    let what = "Interest of open months, electric, November, settled";
    month(history, what, "interest 5.83 3.81")
}

// V = 1000 × 29,900 − 1,799 × 100,000 = −150,000,000, and R = 95V / 100,000 = −142,500, all secondary.
// 0.5% of 116,669 − 142,500 is −129.155: the credit of the open month is more than what is filed.
fn month_after(history: &mut History<'_, ElectricBook>) -> Result<(), Refusal> {
    history.cost(29_900)?;
    history.sales(100_000, 0)?;
    let what = "Interest of open months, electric, December with a credit";
    month(history, what, "interest -1.29 3.81")
}
