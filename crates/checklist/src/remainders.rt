// Rounding: two tiny periods settled in a row, and no remainder is dropped.
use crate::histories::History;
use crate::report::Tally;
use crate::shown::Shown;
use electric_rules::ElectricBook;
use refusals::Refusal;
use steam_rules::SteamBook;

pub(crate) fn check(tally: &mut Tally) {
    tally.history(
        "Rounding, electric",
        "checklist-rounding-electric",
        electric,
    );
    tally.history("Rounding, steam", "checklist-rounding-steam", steam);
}

fn tiny_period(history: &mut History<'_, ElectricBook>) -> Result<(), Refusal> {
    history.cost(1_080)?;
    history.sales(600, 0)?;
    Ok(())
}

// V = 1000 × 1,080 − 1,799 × 600 = 600 and 95V = 57,000, so first R = 1 and rem = 57,000 − 100,000.
// Then 57,000 − 43,000 = 14,000 is too little for a cent: R = 0, and all of it remains.
// The first period's cent is in run 1 by then, so both periods' share is one cent: 100,000 + 14,000 = 95 × (600 + 600).
// Sales are estimated at 1 kWh, so that a cent shows in what is filed, as a factor of 100.
fn electric(tally: &mut Tally) -> Result<(), Refusal> {
    let mut history = History::electric(tally)?;
    tiny_period(&mut history)?;
    history.to_first_november()?;
    let filed = history.settle(1, 1)?;
    history.fact(
        "Rounding, electric, first period's factors",
        Shown(filed),
        "filed 0.0100 0.0000",
    );
    let what = "Rounding, electric, first period's share";
    period(&mut history, what, "0.01", "-43000");
    history.past_february()?;
    tiny_period(&mut history)?;
    history.months(2)?;
    let filed = history.settle(1, 1)?;
    history.fact(
        "Rounding, electric, second period's factors",
        Shown(filed),
        "filed 0.0000 0.0000",
    );
    let what = "Rounding, electric, second period's share";
    period(&mut history, what, "0.00", "14000");
    let book = history.book();
    history.fact(
        "Rounding, electric, first period's share in its run",
        book.secondary.first.due,
        "0.01",
    );
    Ok(())
}

fn period(history: &mut History<'_, ElectricBook>, what: &str, share: &str, remainder: &str) {
    let book = history.book();
    history.fact(what, book.secondary.pending.due, share);
    history.fact(
        "Rounding, electric, remainder after it",
        book.period.remainder.0,
        remainder,
    );
}

fn tiny_quarter(history: &mut History<'_, SteamBook>) -> Result<(), Refusal> {
    history.cost(301)?;
    history.sales(1)?;
    history.to_last_month()
}

// V = 100 × 301 − 30,050 × 1 = 50 and 80V = 4,000, too little for a cent: first R = 0 and rem = 4,000.
// Then 4,000 + 4,000 = 8,000: R = 1 and rem = 8,000 − 10,000, and 10,000 − 2,000 = 80 × (50 + 50). The cent is filed as 100 / 4 = 25.
fn steam(tally: &mut Tally) -> Result<(), Refusal> {
    let mut history = History::steam(tally, 1)?;
    tiny_quarter(&mut history)?;
    let filed = history.settle()?;
    history.fact(
        "Rounding, steam, first quarter's factor",
        Shown(filed),
        "filed 0.0000",
    );
    let what = "Rounding, steam, first quarter's share";
    quarter(&mut history, what, "0.00", "4000");
    history.months(1)?;
    tiny_quarter(&mut history)?;
    let filed = history.settle()?;
    history.fact(
        "Rounding, steam, second quarter's factor",
        Shown(filed),
        "filed 0.0025",
    );
    let what = "Rounding, steam, second quarter's share";
    quarter(&mut history, what, "0.01", "-2000");
    Ok(())
}

// As `period`, of the other book's fields.
fn quarter(history: &mut History<'_, SteamBook>, what: &str, share: &str, remainder: &str) {
    let book = history.book();
    history.fact(what, book.pending.due, share);
    history.fact(
        "Rounding, steam, remainder after it",
        book.period.remainder.0,
        remainder,
    );
}
